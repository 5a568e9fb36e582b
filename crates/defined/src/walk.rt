// Sets joined where a line leads: the walk of a line's tests and operations with what is known at its start and at the DONEs.
ghost use Rattle.std.specs.Prelude.{◌≡◌, ◌<◌};
ghost use Rattle.table.specs.Row.{go_to_of, done};
ghost use Rattle.defined.specs.Answer.{IsRow};
ghost use Rattle.defined.specs.Search.{joined_at, joined_to, leaving, entering, set_past, tests_walked, chain_walked, line_walked};

use super::accepted::Table;
use super::sets::{BITS, set_after};
use table::Row;
use table::codes::{DO, DONE};
use table::rows::MOST;
use word::logic;

// x joined to the set in place r.
pub fn join_at(sets: &mut [u64; MOST], r: u64, x: u64)
    requires { r < 800 }
    ensures { sets.new ≡ joined_at r x sets.old }
{
    let at = r as usize;
    sets[at] = logic::or(BITS, sets[at], x);
}

// The same where a row is named.
fn join_to(sets: &mut [u64; MOST], r: u64, x: u64)
    requires { r < 800 }
    ensures { sets.new ≡ joined_to r x sets.old }
{
    if r != 0 {
        join_at(sets, r, x);
    }
}

// Where a line's exit leads.
fn leave(sets: &mut [u64; MOST], line: Row, x: u64)
    requires { (line.next < 800) × ((go_to_of line ≡ done → ⊥) → go_to_of line < 800) }
    ensures { sets.new ≡ leaving line x sets.old }
{
    let go_to = line.second.form;
    if go_to == DONE {
        join_at(sets, 0, x);
        return;
    }
    if go_to == 0 {
        join_to(sets, line.next, x);
        return;
    }
    join_at(sets, go_to, x);
}

// A DO leads into its line.
fn enter(sets: &mut [u64; MOST], row: Row, x: u64)
    requires { row.code ≡ 36 → row.first.value < 800 }
    ensures { sets.new ≡ entering row x sets.old }
{
    if row.code == DO {
        join_at(sets, row.first.value, x);
    }
}

// The set after an operation: after a DO, that of the DONEs.
pub fn set_past(done: u64, row: Row, x: u64) -> u64
    requires { row.name < 64 }
    ensures { result ≡ set_past done row x }
{
    if row.code == DO {
        return done;
    }
    set_after(row, x)
}

// The operations of a line with the set at its start and that of the DONEs, to its exit.
pub fn walk_chain(table: &Table, l: u64, start: u64, done: u64, sets: &mut [u64; MOST])
    requires { IsRow table.now.numbers.now 1 l }
    ensures { sets.new ≡ chain_walked table.now.numbers.now l start done sets.old }
{
    let line = table.row(l);
    let mut r = line.first.value;
    let mut x = start;
    while r != 0 {
        let row = table.row(r);
        enter(sets, row, x);
        x = set_past(done, row, x);
        r = row.next;
    }
    leave(sets, line, x);
}

// Tests that are not satisfied lead to the next line.
fn walk_tests(line: Row, x: u64, sets: &mut [u64; MOST])
    requires { line.next < 800 }
    ensures { sets.new ≡ tests_walked line x sets.old }
{
    if line.first.form != 0 {
        join_to(sets, line.next, x);
    }
}

// A line with the set at its start; what follows its DOs is walked by itself.
pub fn walk_line(table: &Table, l: u64, x: u64, sets: &mut [u64; MOST])
    requires { IsRow table.now.numbers.now 1 l }
    ensures { sets.new ≡ line_walked table.now.numbers.now l x sets.old }
{
    walk_tests(table.row(l), x, sets);
    walk_chain(table, l, x, 0, sets);
}
