// Drawn six-bit characters.
use std::num;

// Ten characters each: all ones, all below 16, all below 8, blanks.
const ANY: u64 = 0o77777777777777777777;

const SIXTEEN: u64 = 0o17171717171717171717;

const EIGHT: u64 = 0o07070707070707070707;

const BLANKS: u64 = 0o60606060606060606060;

// Characters that are digits more or less often.
fn digits(how: u64, x: u64) -> u64 {
    match how {
        0 => x & ANY,
        1 => x & SIXTEEN,
        _ => x & EIGHT,
    }
}

// Ten characters, of which blanks lead in half of the cases.
pub fn drawn(a: u64, x: u64) -> u64 {
    let some = digits(a % 3, x);
    if a / 64 % 2 == 0 {
        return some;
    }
    let last = num::wrapping_sub_u64(1 << (a / 4 % 11 * 6), 1);
    (some & last) | (BLANKS & (last ^ ANY))
}
