// Fields of a word of b bits, from the bit left to the bit right; left > right makes the null field, of width 0.
ghost use Rattle.std.specs.Prelude.{◌≡◌, ◌+◌, ◌<◌};
ghost use Rattle.word.specs.Field.{width as width_of, shift as shift_of, field_of, kept, stored, bits_of, stored_in};

use super::arithmetic::{low_bits, power};

// The width: right - left + 1, or 0 for the null field.
pub fn width(left: u64, right: u64) -> u64
    requires { right < 256 }
    ensures { result ≡ width_of left right }
{
    let there = (left <= right) as u64;
    there * (right + 1) - there * left
}

// The places right of a field.
pub(crate) fn places_right(b: u64, right: u64) -> u64
    requires { right < b }
    ensures { result ≡ shift_of b right }
{
    b - 1 - right
}

// What n bits of the word w are that have s places right of them.
pub fn read_bits(s: u64, n: u64, w: u64) -> u64
    requires { (s < 64) × (n < 64) }
    ensures { result ≡ bits_of n s w }
{
    low_bits(n, w >> s)
}

// What a field reads of the word w.
pub fn read_field(b: u64, left: u64, right: u64, w: u64) -> u64
    requires { (b < 64) × (right < b) }
    ensures { result ≡ field_of b left right w }
{
    read_bits(places_right(b, right), width(left, right), w)
}

// What a store keeps of the value v: its rightmost bits that fit.
pub fn kept_bits(left: u64, right: u64, v: u64) -> u64
    requires { right < 63 }
    ensures { result ≡ kept left right v }
{
    low_bits(width(left, right), v)
}

// The word w with the rightmost n bits of v at the n places that have s places right of them: what stood there is taken away, and
// what is kept is added. For n = 0 the weight 2^n is 1, so nothing is taken away and nothing kept.
pub fn store_bits(s: u64, n: u64, w: u64, v: u64) -> u64
    requires { n + s < 64 }
    ensures { result ≡ stored_in n s w v }
{
    let place = power(s);
    let old = read_bits(s, n, w) * place;
    let new = low_bits(n, v) * place;
    w - old + new
}

// The word w after a store of v.
pub fn store_field(b: u64, left: u64, right: u64, w: u64, v: u64) -> u64
    requires { (b < 64) × (right < b) }
    ensures { result ≡ stored b left right w v }
{
    store_bits(places_right(b, right), width(left, right), w, v)
}
