// References on generated cases: where one leads over a map of blocks, and what stands there.
ghost use Rattle.std.specs.Prelude.{◌≡◌, true};
ghost use Rattle.machine.specs.Sound.{every, is_definition};
ghost use Rattle.operands.specs.Packing.{unpacked_all};

use crate::maps;
use block::SetUp;
use buddy::section;
use buddy::setup::fits;
use cases::{Case, references};
use machine::{BugWords, Definition, MapBytes, Refusal};
use operands::FIELDS;
use operands::locations::bits_of;
use operands::packing::{PackedFields, pack_all};
use operands::references::locate;
use soundness::are_words;
use table::references::is_reference;

// The first ten fields, each by its word and its leftmost and rightmost bit: halves of words or less, a null one, one outside every
// block, a whole word.
const FIELDS_TRIED: [(u8, u8, u8); 10] = [
    (0, 18, 35),
    (0, 0, 17),
    (0, 30, 35),
    (0, 12, 17),
    (1, 18, 35),
    (1, 0, 17),
    (2, 30, 35),
    (0, 20, 10),
    (127, 0, 35),
    (0, 0, 35),
];

// The definitions of the first ten fields, in range by their remainders; the others are undefined.
fn definitions() -> [Definition; 36]
    ensures { every (is_definition 36) result ≡ true }
{
    let none = Definition {
        defined: false,
        word: 0,
        left: 0,
        right: 0,
    };
    let mut all = [none; 36];
    for (i, (word, left, right)) in FIELDS_TRIED.iter().enumerate() {
        all[i] = Definition {
            defined: true,
            word: *word % 128,
            left: *left % 36,
            right: *right % 36,
        };
    }
    all
}

// A link's refusal.
fn refused(why: Refusal) -> u64 {
    match why {
        Refusal::UndefinedField => cases::REFUSED + 14,
        Refusal::NotABlock => cases::REFUSED + 15,
        Refusal::OutsideBlock => cases::REFUSED + 16,
        _ => cases::REFUSED,
    }
}

// A location folded: a bug or a field, and its numbers.
fn folded(at: u64) -> u64 {
    if at < FIELDS {
        return cases::fold(1, at);
    }
    let bits = bits_of(at);
    cases::fold(
        cases::fold(cases::fold(2, bits.address), bits.left),
        bits.right,
    )
}

// Where a reference leads and what stands there, or why it does not lead there; 1,000 if it is none.
fn followed(
    bugs: &BugWords,
    fields: &PackedFields,
    setup: SetUp,
    map: &MapBytes,
    storage: &[u64],
    v: u64,
) -> u64
    requires { every (is_definition 36) (unpacked_all fields.now) ≡ true }
{
    if !fits(
        storage.len(),
        u64::from(setup.d),
        u64::from(setup.s1),
        u64::from(setup.s2),
    ) {
        return maps::UNSOUND;
    }
    if !section::keeps_section(setup, map) {
        return maps::UNSOUND;
    }
    if !are_words(36, bugs) {
        return maps::UNSOUND;
    }
    if !is_reference(v) {
        return 1000;
    }
    match locate(36, bugs, fields, setup, map, storage, v) {
        Ok(spot) => cases::fold(folded(spot.at), spot.holds),
        Err(why) => refused(why),
    }
}

// A map of as many bytes as a state has: those of a shorter one, and zeros.
fn widened(map: &[u8; maps::BYTES]) -> MapBytes {
    let mut wide = [0u8; 4096];
    wide[..maps::BYTES].copy_from_slice(map);
    wide
}

// A drawn reference over drawn bugs and storage.
fn result(map: &[u8; maps::BYTES], case: Case) -> u64 {
    let bugs = references::words_of(case.x, 0o77);
    let storage = references::words_of(case.state, 0o777777777777);
    let v = references::drawn(case.a, case.state);
    let mut fields = [0u32; 36];
    pack_all(definitions(), &mut fields);
    let wide = widened(map);
    followed(&bugs, &fields, maps::small(), &wide, &storage, v)
}

// The checksum over references, each after a drawn operation on the map.
pub fn checksum() -> u64 {
    let mut map = maps::fresh(maps::small());
    let mut sum = 0;
    for case in cases::all() {
        sum = cases::fold(sum, maps::drawn_step(0, &mut map, 0, case.a));
        sum = cases::fold(sum, result(&map, case));
    }
    sum
}
