// The map of a fresh set-up: all free.
ghost use Rattle.std.specs.Prelude.{◌≡◌, ◌-◌, ◌*◌, ◌%◌, ◌≤◌, ◌++◌, length, replicate};
ghost use Rattle.block.specs.Blocks.{size, Free};
ghost use Rattle.block.specs.SetUp.{top, words};
ghost use Rattle.block.specs.Map.{all_written, fresh_map};

use super::section::words_of;
use super::sizes::{size_of, top_of};
use super::tree::free_tag;
use block::SetUp;

// So many free blocks of the k-th size, in zeros.
pub(crate) fn free_trees(k: u8, count: usize, map: &mut [u8])
    requires { (k ≤ 7) × (count * size k ≤ length map.old) × (map.old ≡ replicate (length map.old) 0) }
    ensures { map.new ≡ all_written k (replicate count Free) ++ replicate (length map.old - count * size k)
        0 }
{
    let n = size_of(k);
    let tag = free_tag(k);
    let mut i = 0;
    for done in 0..count {
        map[i] = tag;
        i += n;
    }
}

// Sets the words up: blocks of the largest size, all free.
pub fn set_up(setup: SetUp, map: &mut [u8])
    requires { (words setup % size (top setup.d) ≡ 0) × (words setup ≤ length map.old) }
    ensures { map.new ≡ fresh_map setup (length map.old) }
{
    let k = top_of(setup.d);
    let count = words_of(setup) / size_of(k);
    map.fill(0);
    free_trees(k, count, map);
}
