// Operations 8 to 23, and fields, on a generated case: a number for choices, and two values.
ghost use Rattle.std.specs.Prelude.{◌^◌, ◌<◌};

use word::{arithmetic, count, fields, logic, shifts};

// A word of b bits.
fn word_of(b: u64, x: u64) -> u64
    requires { b < 64 }
    ensures { result < 2 ^ b }
{
    arithmetic::low_bits(b, x)
}

// The field functions, on a field that is now and then null, in the word v of b bits.
fn field_result(which: u64, b: u64, a: u64, v: u64, y: u64) -> u64
    requires { (0 < b) × (b < 64) }
{
    let right = cases::below(b, a / 64);
    let left = a / 4096 % (right + 2);
    match which {
        18 => fields::width(left, right),
        19 => fields::read_field(b, left, right, v),
        20 => fields::kept_bits(left, right, y),
        _ => fields::store_field(b, left, right, v, y),
    }
}

// What function number `which` gives on a case.
pub fn result(which: u64, a: u64, x: u64, y: u64) -> u64 {
    let w = cases::width(a);
    let v = word_of(w, x);
    match which {
        0 => arithmetic::power(a % 64),
        1 => arithmetic::low_bits(w, y),
        2 => arithmetic::add(w, x, y),
        3 => arithmetic::subtract(63, x / 4 + y / 4, y / 4),
        4 => arithmetic::multiply(w, x, y),
        5 => arithmetic::divide(x >> (a % 64), 1 + y % 64),
        6 => logic::or(w, x, y),
        7 => logic::and(w, x, y),
        8 => logic::exclusive_or(w, x, y),
        9 => logic::complement(w, v),
        10 => count::count_ones(w, x),
        11 => count::count_zeros(w, x),
        12 => count::leftmost_one(w, x),
        13 => count::rightmost_one(w, x),
        14 => count::leftmost_zero(w, x),
        15 => count::rightmost_zero(w, x),
        16 => shifts::left_shift(w, v, y),
        17 => shifts::right_shift(w, v, y),
        _ => field_result(which, w + 1, a, v, y),
    }
}
