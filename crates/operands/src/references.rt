// References over lent slices: one link, the links one after the other, and operands.
ghost use Rattle.std.specs.Prelude.{true, cond, [], ◌≡◌, ℕ, ◌+◌, ◌-◌, ◌%◌, ◌≤◌, ◌<◌, eqb, length, get_or, replicate};
ghost use Rattle.block.specs.Blocks.{size as size_of, size_at};
ghost use Rattle.block.specs.SetUp.{top, words};
ghost use Rattle.block.specs.Map.{keeps, live};
ghost use Rattle.table.specs.Reference.{is_reference};
ghost use Rattle.machine.specs.Storage.{placed, word_at};
ghost use Rattle.machine.specs.Answer.{told};
ghost use Rattle.machine.specs.Locate.{link_by, contents_of, contents, operand as operand_of};
ghost use Rattle.operands.specs.Reading.{seen, set_up_of, Readable, Reached, Taken, Lying, leads, standing};
ghost use Rattle.operands.specs.Reading.{told_linked, told_value};
ghost use Rattle.operands.specs.Locating.{located};
ghost use Rattle.operands.specs.Storing.{words_stored};
ghost use Rattle.operands.specs.Through.{through, delivered, Deliverable};

use crate::locations::{bits_of, field_number};
use crate::packing::{PackedFields, unpack};
use crate::{Delivery, FIELDS, Spot};
use block::SetUp;
use buddy::section::{live_size, size_at};
use machine::{BugWords, Definition, MapBytes, Refusal};
use table::references::{bits_after, bug_before, name_before};
use table::{Pair, codes, references};
use word::fields::{read_field, store_field};

// The word at an address.
fn word_at(s1: u16, storage: &[u64], address: u64) -> u64
    requires { (s1 ≤ address) × (address < s1 + length storage.now) }
    ensures { result ≡ get_or storage.now (address - s1) 0 }
{
    let offset = (address - s1 as u64) as usize;
    storage[offset]
}

// A word of the storage once n words at an address are delivered: zero if it is one of them.
fn word_delivered(s1: u16, storage: &[u64], from: u64, n: u64, address: u64) -> u64
    requires { (s1 ≤ from) × (from - s1 + n ≤ length storage.now) × (s1 ≤ address) × (address < s1 + length storage.now) }
    ensures { result ≡ word_at s1 address (placed (from - s1) (replicate n 0) storage.now) }
{
    if address < from {
        return word_at(s1, storage, address);
    }
    if address - from < n {
        return 0;
    }
    word_at(s1, storage, address)
}

// The same, once the address is stored at a location.
fn word_after(b: u64, s1: u16, storage: &[u64], from: u64, n: u64, at: u64, address: u64) -> u64
    requires { (b ≤ 48) × (s1 ≤ from) × (from - s1 + n ≤ length storage.now) × Reached b s1 storage.now (located at)
        × (s1 ≤ address) × (address < s1 + length storage.now) }
    ensures { result ≡ word_at s1 address (words_stored b s1 (located at) from
        (placed (from - s1) (replicate n 0) storage.now)) }
{
    let word = word_delivered(s1, storage, from, n, address);
    if at < FIELDS {
        return word;
    }
    let bits = bits_of(at);
    if bits.address == address {
        return store_field(b, bits.left, bits.right, word, from);
    }
    word
}

// What stands at a place once a block is delivered.
fn contents_after(
    b: u64,
    bugs: &BugWords,
    s1: u16,
    storage: &[u64],
    ahead: Delivery,
    place: u64,
) -> u64
    requires { (b ≤ 48) × (s1 ≤ ahead.address) × (ahead.address - s1 + ahead.size ≤ length storage.now)
        × Reached b s1 storage.now (located ahead.at) × Reached b s1 storage.now (located place) }
    ensures { result ≡ contents_of b bugs.now s1 (words_stored b s1 (located ahead.at) ahead.address
        (placed (ahead.address - s1) (replicate ahead.size 0) storage.now)) (located place) }
{
    if place < FIELDS {
        let i = place as usize;
        return bugs[i];
    }
    let bits = bits_of(place);
    let word = word_after(
        b,
        s1,
        storage,
        ahead.address,
        ahead.size,
        ahead.at,
        bits.address,
    );
    read_field(b, bits.left, bits.right, word)
}

// One link, by the field's definition and the size of the live block at the pointer, 0 if there is none: refusals 14, 15, 16 in
// this order. Where it leads, which is never a bug, and what stands there.
fn link(
    b: u64,
    s1: u16,
    storage: &[u64],
    x: Definition,
    size: u64,
    pointer: u64,
) -> Result<Spot, Refusal>
    requires { (b ≤ 48) × Lying b s1 storage.now x size pointer }
    ensures { told_linked result ≡ told (standing (contents_of b [] s1 storage.now) (link_by x size pointer)) }
{
    if !x.defined {
        return Err(Refusal::UndefinedField);
    }
    if size == 0 {
        return Err(Refusal::NotABlock);
    }
    let word = x.word as u64;
    if size <= word {
        return Err(Refusal::OutsideBlock);
    }
    let address = pointer + word;
    let left = x.left as u64;
    let right = x.right as u64;
    Ok(Spot {
        at: field_number(address, left, right),
        holds: read_field(b, left, right, word_at(s1, storage, address)),
    })
}

// The size of the live block at an address, 0 if there is none, once n words at an address are delivered.
fn size_after(setup: SetUp, map: &MapBytes, from: u64, n: u64, pointer: u64) -> u64
    requires { (words setup % size_of (top setup.d) ≡ 0) × (keeps setup map.now ≡ true) }
    ensures { result ≡ cond (eqb from pointer) n (size_at pointer (live setup map.now)) }
{
    if pointer == from {
        return n;
    }
    live_size(setup, map, pointer)
}

// Where a reference leads once a block is delivered: from its bug along the fields, up to the first link that is refused. What
// follows is counted down by a digit's bits: `(0..bits).step_by(6).rev()` would be no plainer.
pub fn locate_through(
    b: u64,
    bugs: &BugWords,
    fields: &PackedFields,
    setup: SetUp,
    map: &MapBytes,
    storage: &[u64],
    ahead: Delivery,
    value: u64,
) -> Result<Spot, Refusal>
    requires { Readable b (seen bugs.now fields.now setup map.now storage.now)
        × Deliverable b (seen bugs.now fields.now setup map.now storage.now) ahead.address ahead.size
        (located ahead.at)
        × (is_reference value ≡ true) }
    ensures { told_linked result ≡ told (standing (contents b (through b (delivered ahead)
        (seen bugs.now fields.now setup map.now storage.now)))
        (leads b (through b (delivered ahead)
        (seen bugs.now fields.now setup map.now storage.now))
        value)) }
{
    let mut bits = bits_after(value);
    let bug = bug_before(value, bits);
    let i = bug.0 as usize;
    let mut spot = Spot {
        at: bug.0,
        holds: bugs[i],
    };
    // no range: a digit's bits go in each turn
    while 0 < bits {
        bits -= references::DIGIT_BITS;
        let name = name_before(value, bits);
        let j = name.0 as usize;
        let pointer = spot.holds;
        let size = size_after(setup, map, ahead.address, ahead.size, pointer);
        let answer = link(b, setup.s1, storage, unpack(fields[j]), size, pointer);
        let Ok(next) = answer else {
            return answer;
        };
        let at = next.at;
        spot = Spot {
            at,
            holds: contents_after(b, bugs, setup.s1, storage, ahead, at),
        };
    }
    Ok(spot)
}

// Where a reference of more than a bug leads: from its bug along the fields, up to the first link that is refused. Of the set-up it
// is told the first address alone, so the promise is of every set-up that can be read with it. No one loop with locate_through:
// nearly every step takes this one, which looks at no delivery.
fn follow(
    b: u64,
    bugs: &BugWords,
    fields: &PackedFields,
    s1: u16,
    map: &MapBytes,
    storage: &[u64],
    value: u64,
) -> Result<Spot, Refusal>
    requires { ((d : ℕ) × (s2 : ℕ) × Readable b (seen bugs.now fields.now (set_up_of d s1 s2) map.now storage.now))
        × (is_reference value ≡ true) × (64 ≤ value) }
    ensures { (d s2 : ℕ) → Readable b (seen bugs.now fields.now (set_up_of d s1 s2) map.now
        storage.now) → told_linked result ≡ told (standing
        (contents b (seen bugs.now fields.now (set_up_of d s1 s2) map.now storage.now))
        (leads b (seen bugs.now fields.now (set_up_of d s1 s2) map.now storage.now)
        value)) }
{
    if value < references::TWO_DIGITS {
        let bug = bug_before(value, references::DIGIT_BITS);
        let i = bug.0 as usize;
        let j = name_before(value, 0).0 as usize;
        let size = size_at(s1, map, bugs[i]);
        return link(b, s1, storage, unpack(fields[j]), size, bugs[i]);
    }
    let mut left = bits_after(value);
    let bug = bug_before(value, left);
    let i = bug.0 as usize;
    let mut spot = Spot {
        at: bug.0,
        holds: bugs[i],
    };
    // no range: a digit's bits go in each turn
    while 0 < left {
        left -= references::DIGIT_BITS;
        let name = name_before(value, left);
        let j = name.0 as usize;
        let size = size_at(s1, map, spot.holds);
        let answer = link(b, s1, storage, unpack(fields[j]), size, spot.holds);
        let Ok(next) = answer else {
            return answer;
        };
        spot = next;
    }
    Ok(spot)
}

// Where a reference leads: that of a bug alone is found at once. The storage is lent anew to `follow`, so that its place and length
// are put into memory on that way alone.
pub fn locate(
    b: u64,
    bugs: &BugWords,
    fields: &PackedFields,
    setup: SetUp,
    map: &MapBytes,
    storage: &[u64],
    value: u64,
) -> Result<Spot, Refusal>
    requires { Readable b (seen bugs.now fields.now setup map.now storage.now) × (is_reference value ≡ true) }
    ensures { told_linked result ≡ told
        (standing (contents b (seen bugs.now fields.now setup map.now storage.now))
        (leads b (seen bugs.now fields.now setup map.now storage.now) value)) }
{
    if value < references::ONE_DIGIT {
        let bug = bug_before(value, 0);
        let i = bug.0 as usize;
        return Ok(Spot {
            at: bug.0,
            holds: bugs[i],
        });
    }
    follow(b, bugs, fields, setup.s1, map, &*storage, value)
}

// An operand that is used: a literal, or what stands where a reference leads; a bug's word is found at once.
pub fn operand(
    b: u64,
    bugs: &BugWords,
    fields: &PackedFields,
    setup: SetUp,
    map: &MapBytes,
    storage: &[u64],
    p: Pair,
) -> Result<Spot, Refusal>
    requires { Readable b (seen bugs.now fields.now setup map.now storage.now) × Taken b p }
    ensures { told_value b result ≡ told (operand_of b (seen bugs.now fields.now setup map.now
        storage.now) p) }
{
    if p.form == codes::LITERAL {
        return Ok(Spot {
            at: 0,
            holds: p.value,
        });
    }
    if p.value < references::ONE_DIGIT {
        let bug = bug_before(p.value, 0);
        let i = bug.0 as usize;
        return Ok(Spot {
            at: bug.0,
            holds: bugs[i],
        });
    }
    follow(b, bugs, fields, setup.s1, map, &*storage, p.value)
}
