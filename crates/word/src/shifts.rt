// Shifts within a field of width w with contents v: operations 22 and 23.
ghost use Rattle.std.specs.Prelude.{◌≡◌, ◌<◌};
ghost use Rattle.word.specs.Word.{left_shift, right_shift};

use super::arithmetic::low_bits;

// 22 left shift by n; a count of the width or more gives 0.
pub fn left_shift(w: u64, v: u64, n: u64) -> u64
    requires { w < 64 }
    ensures { result ≡ left_shift w v n }
{
    if n < w { low_bits(w, v << n) } else { 0 }
}

// 23 right shift by n; a count of the width or more gives 0.
pub fn right_shift(w: u64, v: u64, n: u64) -> u64
    requires { w < 64 }
    ensures { result ≡ right_shift w v n }
{
    if w <= n { 0 } else { v >> n }
}
