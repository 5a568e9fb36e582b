// The blocks of a map, from block to block: how many, and address and size of each.
#![tactic(auto)]

ghost use Rattle.std.specs.Prelude.{true, ◌≡◌, ◌+◌, ◌%◌, ◌≤◌, length};
ghost use Rattle.block.specs.Blocks.{size};
ghost use Rattle.block.specs.SetUp.{top, words};
ghost use Rattle.block.specs.Map.{keeps};
ghost use Rattle.machine.specs.Storage.{placed};
ghost use Rattle.listing.specs.Listing.{are_blocks, blocks, numbers_of, wanted, pair_if};

use block::SetUp;
use buddy::section::{keeps_section, words_of};
use buddy::setup::{fits, is_absent};
use buddy::sizes::size_of;
use machine::MAP;

// Whether set-up numbers and map keep their sections.
pub fn are_blocks(setup: SetUp, map: &[u8]) -> bool
    ensures { result ≡ are_blocks setup map.now }
{
    (fits(MAP, setup.d as u64, setup.s1 as u64, setup.s2 as u64) | is_absent(setup))
        & keeps_section(setup, map)
}

// Whether a block of this tag is one of those asked for.
fn is_wanted(live: bool, tag: u8) -> bool
    ensures { result ≡ wanted live tag }
{
    if tag % 2 == 0 { live } else { !live }
}

// How many live blocks there are, or free ones. No walk with a closure for this one and that below: of a list that a closure
// writes, a proof knows nothing after the walk.
pub fn count_blocks(live: bool, setup: SetUp, map: &[u8]) -> u64
    requires { (words setup % size (top setup.d) ≡ 0) × (keeps setup map.now ≡ true) }
    ensures value { result ≡ length (blocks live setup map.now) }
    ensures few { result ≤ 65536 }
{
    let mut i = 0;
    let mut n = 0;
    while i < words_of(setup) {
        let tag = map[i];
        n += is_wanted(live, tag) as u64;
        i += size_of((tag - 1) / 2);
    }
    n
}

// Puts address and size of a block that is one of those asked for. Returns the place after them.
fn put_block(list: &mut [u64], n: usize, asked: bool, address: u64, size: u64) -> usize
    requires { n + length (pair_if asked address size) ≤ length list.old }
    ensures value { result ≡ n + length (pair_if asked address size) }
    ensures list_after { list.new ≡ placed n (pair_if asked address size) list.old }
{
    if asked {
        list[n..n + 2].copy_from_slice(&[address, size]);
        return n + 2;
    }
    n
}

// Puts address and size of each live block, or of each free one, lowest first.
pub fn list_blocks(live: bool, setup: SetUp, map: &[u8], list: &mut [u64])
    requires { (words setup % size (top setup.d) ≡ 0) × (keeps setup map.now ≡ true)
        × (length list.old ≡ length (numbers_of (blocks live setup map.now))) }
    ensures { list.new ≡ numbers_of (blocks live setup map.now) }
{
    let end = words_of(setup);
    let mut i = 0;
    let mut n = 0;
    while i < end {
        let tag = map[i];
        let size = size_of((tag - 1) / 2);
        let asked = is_wanted(live, tag);
        n = put_block(list, n, asked, setup.s1 as u64 + i as u64, size as u64);
        i += size;
    }
}
