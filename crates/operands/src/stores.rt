// Stores into bugs and storage.
ghost use Rattle.std.specs.Prelude.{◌≡◌, ◌≤◌};
ghost use Rattle.operands.specs.Locating.{located};
ghost use Rattle.operands.specs.Reading.{Reached, Bugs};
ghost use Rattle.operands.specs.Storing.{bugs_stored, words_stored};

use crate::FIELDS;
use crate::locations::bits_of;
use machine::BugWords;
use word::arithmetic::low_bits;
use word::fields::store_field;

// The bugs after a store.
pub fn bugs_after(b: u64, bugs: &BugWords, at: u64, v: u64) -> BugWords
    requires { (b ≤ 48) × Bugs (located at) }
    ensures { result ≡ bugs_stored b (located at) v bugs.now }
{
    let mut after = *bugs;
    if at < FIELDS {
        let i = at as usize;
        after[i] = low_bits(b, v);
    }
    after
}

// A store: a bug's word is replaced, or a field's bits in its word.
pub fn store(b: u64, bugs: &mut BugWords, s1: u16, storage: &mut [u64], at: u64, v: u64)
    requires { (b ≤ 48) × Reached b s1 storage.old (located at) }
    ensures { (bugs.new ≡ bugs_stored b (located at) v bugs.old)
        × (storage.new ≡ words_stored b s1 (located at) v storage.old) }
{
    if at < FIELDS {
        let i = at as usize;
        bugs[i] = low_bits(b, v);
        return;
    }
    let bits = bits_of(at);
    let offset = (bits.address - s1 as u64) as usize;
    storage[offset] = store_field(b, bits.left, bits.right, storage[offset], v);
}
