// For each test and each operation the set of the names that some path to it has not defined.
ghost use Rattle.std.specs.Prelude.{◌≡◌};
ghost use Rattle.defined.specs.Answer.{IsRow, RowOrNone};
ghost use Rattle.defined.specs.Search.{tests_marked, chain_marked, line_marked_of, final_marks};

use super::accepted::Table;
use super::rounds::final_sets;
use super::walk::{join_at, set_past};
use table::rows::MOST;

// The set at a line's start, at each of its tests.
fn mark_tests(table: &Table, first: u64, x: u64, marks: &mut [u64; MOST])
    requires { RowOrNone table.now.numbers.now 2 first }
    ensures { marks.new ≡ tests_marked table.now.numbers.now first x marks.old }
{
    let mut t = first;
    while t != 0 {
        join_at(marks, t, x);
        t = table.row(t).next;
    }
}

// The set before each of its operations.
fn mark_chain(table: &Table, first: u64, start: u64, done: u64, marks: &mut [u64; MOST])
    requires { RowOrNone table.now.numbers.now 3 first }
    ensures { marks.new ≡ chain_marked table.now.numbers.now first start done marks.old }
{
    let mut r = first;
    let mut x = start;
    while r != 0 {
        let row = table.row(r);
        join_at(marks, r, x);
        x = set_past(done, row, x);
        r = row.next;
    }
}

// A line's tests and operations.
fn mark_line(table: &Table, l: u64, sets: &[u64; MOST], marks: &mut [u64; MOST])
    requires { IsRow table.now.numbers.now 1 l }
    ensures { marks.new ≡ line_marked_of table.now.numbers.now sets.now l marks.old }
{
    let line = table.row(l);
    let x = sets[l as usize];
    mark_tests(table, line.first.form, x, marks);
    mark_chain(table, line.first.value, x, sets[0], marks);
}

// Every line, with the sets that no further round changes.
pub fn marks(table: &Table) -> [u64; MOST]
    ensures { result ≡ final_marks table.now.numbers.now }
{
    let sets = final_sets(table);
    let mut marks = [0; MOST];
    for l in 1..table.rows() {
        if table.is_line(l) {
            mark_line(table, l, &sets, &mut marks);
        }
    }
    marks
}
