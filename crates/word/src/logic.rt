// The bits of words of b bits, place by place: operations 12 to 15.
ghost use Rattle.std.specs.Prelude.{◌≡◌, ◌^◌, ◌<◌};
ghost use Rattle.word.specs.Word.{either, both, differing, complement as complemented};

use super::arithmetic::{low_bits, power};

// 12 or: one where either bit is one.
pub fn or(b: u64, x: u64, y: u64) -> u64
    requires { b < 64 }
    ensures { result ≡ either b x y }
{
    low_bits(b, x | y)
}

// 13 and: one where both bits are one.
pub fn and(b: u64, x: u64, y: u64) -> u64
    requires { b < 64 }
    ensures { result ≡ both b x y }
{
    low_bits(b, x & y)
}

// 14 exclusive or: one where the bits differ.
pub fn exclusive_or(b: u64, x: u64, y: u64) -> u64
    requires { b < 64 }
    ensures { result ≡ differing b x y }
{
    low_bits(b, x ^ y)
}

// 15 complement: all b bits.
pub fn complement(b: u64, x: u64) -> u64
    requires { (b < 64) × (x < 2 ^ b) }
    ensures { result ≡ complemented b x }
{
    power(b) - 1 - x
}
