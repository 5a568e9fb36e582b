// More words after those set up: the new last address judged, and the map with the free blocks added.
ghost use Rattle.std.specs.Prelude.{◌≡◌, ℕ, ◌<◌, ◌≤◌, true, length};
ghost use Rattle.block.specs.SetUp.{words, fitting};
ghost use Rattle.block.specs.Map.{keeps};
ghost use Rattle.block.specs.Extension.{extended_to, extending, extended_map};

use super::fresh::free_trees;
use super::section::words_of;
use super::sizes::{size_of, top_of};
use block::{LAST_ADDRESS, MOST_WORDS, SetUp};

// Whether a new last address is taken, with so many words lent: refusal 32.
pub fn extends(lent: usize, setup: SetUp, last: u64) -> bool
    requires { (0 < setup.d) × (setup.s1 ≤ setup.s2) }
    ensures { result ≡ extending lent last setup }
{
    let s2 = setup.s2 as u64;
    let later = (s2 < last) & (last <= LAST_ADDRESS);
    if !later {
        return false;
    }
    let words = last - setup.s1 as u64 + 1;
    ((last - s2) % (setup.d as u64) == 0) & (words <= MOST_WORDS) & (words <= lent as u64)
}

// The words up to a new last address become free blocks of the largest size.
pub fn extend_map(setup: SetUp, last: u16, map: &mut [u8])
    requires { ((lent : ℕ) × (fitting lent setup ≡ true) × (extending lent last setup ≡ true)) × (keeps setup map.old ≡ true)
        × (words (extended_to last setup) ≤ length map.old) }
    ensures { map.new ≡ extended_map last setup map.old }
{
    let k = top_of(setup.d);
    let count = (last - setup.s2) as usize / size_of(k);
    let from = words_of(setup);
    let end = map.len();
    free_trees(k, count, &mut map[from..end]);
}
