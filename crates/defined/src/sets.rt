// Sets as numbers: bit n, from the right, for the field of name number n that is not defined on some path, bit 36 if there is a
// path.
ghost use Rattle.std.specs.Prelude.{◌≡◌, ◌<◌};
ghost use Rattle.defined.specs.Search.{has, without, including, set_after};

use table::{Row, codes};
use word::arithmetic::power;
use word::logic;

// The bit of a path, and how many bits a set has.
const PATH: u64 = 36;

pub const BITS: u64 = 37;

// The last bit of a number.
const LAST_BIT: u64 = 63;

// Bit n of x.
pub fn contains(x: u64, n: u64) -> bool
    ensures { result ≡ has x n }
{
    if LAST_BIT < n {
        return false;
    }
    x / power(n) % 2 == 1
}

// A definition takes its name out.
fn taken_out(n: u64, x: u64) -> u64
    requires { n < 64 }
    ensures { result ≡ without n x }
{
    logic::exclusive_or(BITS, x, logic::and(BITS, x, power(n)))
}

// A restore puts its name in, where there is a path.
fn put_in(n: u64, x: u64) -> u64
    requires { n < 64 }
    ensures { result ≡ including n x }
{
    if contains(x, PATH) {
        return logic::or(BITS, x, power(n));
    }
    x
}

// The set after an operation that is no DO.
pub fn set_after(row: Row, x: u64) -> u64
    requires { row.name < 64 }
    ensures { result ≡ set_after row x }
{
    if row.code == codes::DEFINE {
        return taken_out(row.name, x);
    }
    if row.code == codes::RESTORE_DEFINITION {
        return put_in(row.name, x);
    }
    x
}
