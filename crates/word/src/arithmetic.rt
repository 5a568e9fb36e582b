// Arithmetic on words of b bits: operations 8 to 11.
ghost use Rattle.std.specs.Prelude.{◌≡◌, ◌-◌, ◌%◌, ◌^◌, ◌<◌, ◌≤◌};
ghost use Rattle.word.specs.Word.{sum, product, nearest};

use std::num;

// 2^n.
pub fn power(n: u64) -> u64
    requires { n < 64 }
    ensures { result ≡ 2 ^ n }
{
    1 << n
}

// The b rightmost bits of x: the remainder by 2^b.
pub fn low_bits(b: u64, x: u64) -> u64
    requires { b < 64 }
    ensures { result ≡ x % 2 ^ b }
{
    x % power(b)
}

// 8 add: x + y modulo 2^b.
pub fn add(b: u64, x: u64, y: u64) -> u64
    requires { b < 64 }
    ensures { result ≡ sum b x y }
{
    low_bits(b, num::wrapping_add_u64(x, y))
}

// 9 subtract: x - y modulo 2^b. Where y is not greater, the difference is its own remainder.
pub fn subtract(b: u64, x: u64, y: u64) -> u64
    requires { (b < 64) × (y ≤ x) × (x < 2 ^ b) }
    ensures { result ≡ x - y }
{
    low_bits(b, num::wrapping_sub_u64(x, y))
}

// 10 multiply: x * y modulo 2^b, on halves; the product of the two high halves lies above the b bits.
pub fn multiply(b: u64, x: u64, y: u64) -> u64
    requires { b < 63 }
    ensures { result ≡ product b x y }
{
    let h = (b + 1) / 2;
    let x0 = low_bits(h, x);
    let x1 = low_bits(h, x >> h);
    let y0 = low_bits(h, y);
    let y1 = low_bits(h, y >> h);
    let cross = low_bits(h, x1 * y0 + x0 * y1);
    low_bits(b, cross * power(h) + x0 * y0)
}

// 11 divide: x by y to the nearest whole number, at an exact half to the even neighbour. No number is larger than x and y.
pub fn divide(x: u64, y: u64) -> u64
    requires { 0 < y }
    ensures { result ≡ nearest x y }
{
    let down = x / y;
    let rest = x % y;
    if y - rest < rest + down % 2 {
        return down + 1;
    }
    down
}
