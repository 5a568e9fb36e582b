// Numbers read from bytes and written to them, low first.
#![tactic(auto)]

ghost use Rattle.std.specs.Prelude.{◌≡◌, ◌++◌, ◌+◌, ◌≤◌, length, take, drop};
ghost use Rattle.octets.specs.Octets.{low_first, bytes_of};

// The number of the n bytes from a place on.
pub fn number_at(bytes: &[u8], at: usize, n: usize) -> u64
    requires { (n ≤ 8) × (at + n ≤ length bytes.now) }
    ensures { result ≡ low_first (take n (drop at bytes.now)) }
{
    let mut number = 0;
    for left in (0..n).rev() {
        number = number * 256 + bytes[at + left] as u64;
    }
    number
}

// The n low bytes of a number, put from a place on.
pub fn put_number(bytes: &mut [u8], at: usize, n: usize, v: u64)
    requires { at + n ≤ length bytes.old }
    ensures { bytes.new ≡ take at bytes.old ++ (bytes_of n v ++ drop (at + n) bytes.old) }
{
    let mut rest = v;
    for i in 0..n {
        bytes[at + i] = (rest % 256) as u8;
        rest /= 256;
    }
}
