// Drawn values that are references more or less often, and drawn tables.
ghost use Rattle.std.specs.Prelude.{◌<◌};

use std::num;

// Six base-64 digits from 5 to 36, of which a drawn count is dropped; in half of the cases one bit is then changed.
pub fn candidate(a: u64, x: u64) -> u64 {
    let digits = num::wrapping_add_u64(x & 0o373737373737, 0o050505050505);
    let some = digits >> (a % 6 * 6);
    if a / 8 % 2 == 0 {
        return some;
    }
    some ^ (1 << (a / 16 % 40))
}

// Eight rows of ten numbers, row 0 ill-formed and the others well. A character is its place from '0' on.
const ROWS: [u8; 80] = *b"\
    9999999999\
    1700020000\
    331018181G\
    34302Q142Q\
    352S112T1S\
    30I0112Q00\
    20702Q2Q00\
    1040601000";

// The eight rows.
fn good() -> [u64; 80] {
    ROWS.map(|digit| u64::from(digit).wrapping_sub(48))
}

// The eight rows with a code and any number of a row drawn anew.
pub fn changed(r: usize, a: u64, y: u64) -> [u64; 80]
    requires { r < 8 }
{
    let mut t = good();
    t[r * 10 + 2] = a / 64 % 38;
    t[r * 10 + (a / 4096 % 10) as usize] = y >> (a % 64);
    t
}
