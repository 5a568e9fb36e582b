// The numbers of a set-up judged: refusal 3, and of refusal 11 the set-up numbers.
ghost use Rattle.std.specs.Prelude.{◌≡◌};
ghost use Rattle.block.specs.SetUp.{fitting, absent};

use super::sizes::{level_of, size_of};
use block::{LAST_ADDRESS, MOST_WORDS, SetUp, TOP};

// The numbers d, s1 and s2 fit a lent storage of this length.
pub fn fits(lent: usize, d: u64, s1: u64, s2: u64) -> bool
    ensures { result ≡ fitting lent (record { d = d; s1 = s1; s2 = s2 }) }
{
    let largest = size_of(level_of(TOP, d)) as u64;
    if largest != d {
        return false;
    }
    let placed = (0 < s1) & (s1 % d == 0) & (s1 <= s2) & (s2 <= LAST_ADDRESS);
    if !placed {
        return false;
    }
    let words = s2 - s1 + 1;
    (words % d == 0) & (words <= MOST_WORDS) & (words <= lent as u64)
}

// No set-up yet: all three are zero.
pub fn is_absent(setup: SetUp) -> bool
    ensures { result ≡ absent setup }
{
    (setup.d == 0) & (setup.s1 == 0) & (setup.s2 == 0)
}
