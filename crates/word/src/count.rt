// The bits of a field of width w with contents v, counted and found: operations 16 to 21.
ghost use Rattle.std.specs.Prelude.{◌≡◌, ◌%◌, ◌^◌, ◌<◌};
ghost use Rattle.word.specs.Word.{complement as complemented, ones, zeros, leftmost, rightmost};

use super::arithmetic::low_bits;
use super::logic::complement;

// 16 count ones.
pub fn count_ones(w: u64, v: u64) -> u64
    requires { w < 64 }
    ensures { result ≡ ones w v }
{
    u64::count_ones(low_bits(w, v)) as u64
}

// 17 count zeros: the other bits of the width.
pub fn count_zeros(w: u64, v: u64) -> u64
    requires { w < 64 }
    ensures { result ≡ zeros w v }
{
    w - count_ones(w, v)
}

// 18 leftmost one: its place from the left, or the width.
pub fn leftmost_one(w: u64, v: u64) -> u64
    requires { w < 64 }
    ensures { result ≡ leftmost 1 w v }
{
    u64::leading_zeros(low_bits(w, v)) as u64 - (64 - w)
}

// 19 rightmost one: its place from the left, or the width.
pub fn rightmost_one(w: u64, v: u64) -> u64
    requires { w < 64 }
    ensures { result ≡ rightmost 1 w v }
{
    let bits = low_bits(w, v);
    if bits == 0 {
        w
    } else {
        w - 1 - u64::trailing_zeros(bits) as u64
    }
}

// The complement within the width.
fn other_bits(w: u64, v: u64) -> u64
    requires { w < 64 }
    ensures { result ≡ complemented w (v % 2 ^ w) }
{
    complement(w, low_bits(w, v))
}

// 20 leftmost zero: the leftmost one of the complement within the width.
pub fn leftmost_zero(w: u64, v: u64) -> u64
    requires { w < 64 }
    ensures { result ≡ leftmost 0 w v }
{
    leftmost_one(w, other_bits(w, v))
}

// 21 rightmost zero: the rightmost one of the complement within the width.
pub fn rightmost_zero(w: u64, v: u64) -> u64
    requires { w < 64 }
    ensures { result ≡ rightmost 0 w v }
{
    rightmost_one(w, other_bits(w, v))
}
