// What the cases reach: counts of the steps that were not refused, by operation, test and mode, and of the refusals.
//
// An operation counts at each step that does it. A test counts where it is its line's only one, since the line's outcome then
// tells whether it held. A first store counts by where it goes: to a bug, a whole word, a narrow field, or a null field, in which
// case the report has none.
ghost use Rattle.std.specs.Prelude.{◌<◌, ◌≤◌};

use crate::STATE;
use crate::numbers::{number, number_at, write_text};
use machine::Store;
use std::io;

// How many counts there are for a width: 36 operations, then from 36 on tests, from 50 modes, from 59 refusals, from 81 set-ups,
// from 89 stores, from 93 refusal 17 without and with free blocks, and 95 refusal 31.
pub const COUNTS: usize = 96;

// Where the map starts and ends among a state's bytes.
const MAP: usize = 2579;

const MAP_END: usize = 6675;

// One more of count i.
fn add(counts: &mut [u64; COUNTS], i: u64) {
    if let Some(count) = counts.get_mut(i as usize) {
        *count = count.wrapping_add(1);
    }
}

// Number i of a row.
fn number_of(table: &[u64], row: u64, i: usize) -> u64
    requires { i < 10 }
{
    number(table, (row % 65536) as usize * 10 + i)
}

// The step of a line's tests.
fn tests(counts: &mut [u64; COUNTS], table: &[u64], line: u64, satisfied: bool) {
    let mode = number_of(table, line, 2) % 8;
    add(counts, 49 + 2 * mode + u64::from(satisfied));
    let test = number_of(table, line, 4);
    let code = number_of(table, test, 2) % 8;
    let held = satisfied == (mode <= 2);
    if (mode != 0) & (number_of(table, test, 1) == 0) {
        add(counts, 34 + 2 * code + u64::from(held));
    }
}

// Which count a set-up belongs to.
fn set_up_count(d: u64) -> u64 {
    match d {
        1 => 81,
        2 => 82,
        4 => 83,
        8 => 84,
        16 => 85,
        32 => 86,
        64 => 87,
        _ => 88,
    }
}

// Which count a reported first store belongs to if its destination is a field, words having so many bits.
pub fn store_count(store: Store, width: u64) -> u64 {
    if store.address == 0 {
        92
    } else if (store.left == 0) & (u64::from(store.right) + 1 == width) {
        90
    } else {
        91
    }
}

// Whether an operation always makes a store into its first operand.
fn stores(code: u64) -> bool {
    matches!(code, 6 | 8..=24 | 26..=31 | 33)
}

// The step of an operation; `store` is its first store's count if that goes to a field.
fn operation(counts: &mut [u64; COUNTS], table: &[u64], row: u64, store: u64) {
    let code = number_of(table, row, 2) % 64;
    let first = number_of(table, row, 5);
    add(counts, code.wrapping_sub(1));
    if code == 1 {
        add(counts, set_up_count(first));
    }
    if stores(code) {
        add(counts, if first < 64 { 89 } else { store });
    }
}

// A step from a place of this kind, row and line that was not refused; the kind of the place after it tells whether a line is
// satisfied.
pub fn done(
    counts: &mut [u64; COUNTS],
    table: &[u64],
    kind: u64,
    row: u64,
    line: u64,
    after: u64,
    store: u64,
) {
    match kind {
        0 => tests(counts, table, line, (after == 1) | (after == 2)),
        1 => operation(counts, table, row, store),
        _ => {}
    }
}

// Whether a block of a state's map is free.
fn has_free(state: &[u8; STATE]) -> bool {
    state[MAP..MAP_END].iter().any(|byte| byte % 2 == 1)
}

// How a case ends: with a refusal, or not (0 or 100).
pub fn ended(counts: &mut [u64; COUNTS], answer: u64, state: &[u8; STATE]) {
    if answer == 17 {
        add(counts, 93 + u64::from(has_free(state)));
    }
    if answer == 31 {
        add(counts, 95);
        return;
    }
    if (answer != 0) & (answer != 100) {
        add(counts, 58 + answer % 32);
    }
}

// Writes the counts; what each is of stands in the input from a place on, each with its length before it. Tells where that ends.
pub fn write(
    rt: &impl Print,
    counts: &[u64; COUNTS],
    file: &[u8],
    from: usize,
) -> io::Result<usize> {
    let mut at = from;
    for count in counts {
        let length = number_at(file, at);
        at = write_text(rt, file, length.next, length.value)?;
        println!(rt; ": {count}")?;
    }
    Ok(at)
}
