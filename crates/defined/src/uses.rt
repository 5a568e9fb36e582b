// The lowest row with a reference to a field that is in the set of some place where the row stands, and the first such field.
ghost use Rattle.std.specs.Prelude.{true, ◌≡◌, ◌<◌, length};
ghost use Rattle.table.specs.Reference.{is_reference, names_of};
ghost use Rattle.table.specs.Row.{rows};
ghost use Rattle.defined.specs.Paths.{pair_fields, fields_of};
ghost use Rattle.defined.specs.Search.{told_used, told_first_use, first_told, use_told, lowest_told, first_use_told};

use super::accepted::Table;
use super::marks::marks;
use super::sets::contains;
use crate::Use;
use table::references::names_in;
use table::rows::MOST;
use table::{Names, Pair, Row, codes};

// The first of these names that is in the set.
fn name_in(names: Names, x: u64) -> Option<u64>
    requires { length names.fields ≡ 5 }
    ensures { told_used result ≡ first_told (names_of names).fields x }
{
    // By place: `skip` leaves the proof no items, and a slice from there on would need that at most five come before.
    for i in names.from..5 {
        let n = u64::from(names.fields[i].0);
        if contains(x, n) {
            return Some(n);
        }
    }
    None
}

// That of a pair, which may be a reference.
fn pair_use(p: Pair, x: u64) -> Option<u64>
    requires { p.form ≡ 2 → is_reference p.value ≡ true }
    ensures { told_used result ≡ first_told (pair_fields p) x }
{
    if p.form != codes::REFERENCE {
        return None;
    }
    name_in(names_in(p.value), x)
}

// That of a row's pairs, in their order.
fn row_use(row: Row, x: u64) -> Option<u64>
    requires { (row.first.form ≡ 2 → is_reference row.first.value ≡ true)
        × (row.second.form ≡ 2 → is_reference row.second.value ≡ true)
        × (row.third.form ≡ 2 → is_reference row.third.value ≡ true) }
    ensures { told_used result ≡ first_told (fields_of row) x }
{
    pair_use(row.first, x)
        .or_else(|| pair_use(row.second, x))
        .or_else(|| pair_use(row.third, x))
}

// That of a row that is a test or an operation.
fn use_at(table: &Table, r: u64, x: u64) -> Option<u64>
    requires { (0 < r) × (r < rows table.now.numbers.now) }
    ensures { told_used result ≡ use_told table.now.numbers.now r x }
{
    if table.is_line(r) {
        return None;
    }
    row_use(table.row(r), x)
}

// The lowest row that uses a field in its set.
fn lowest_use(table: &Table, marks: &[u64; MOST]) -> Option<Use>
    ensures { told_first_use result ≡ lowest_told table.now.numbers.now marks.now }
{
    for row in 1..table.rows() {
        if let Some(field) = use_at(table, row, marks[row as usize]) {
            return Some(Use { row, field });
        }
    }
    None
}

// The lowest row that some path reaches with a reference to a field that is not defined there.
pub fn first_use(table: &Table) -> Option<Use>
    ensures { told_first_use result ≡ first_use_told table.now.numbers.now }
{
    lowest_use(table, &marks(table))
}
