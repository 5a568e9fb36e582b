// Refusal 30: the rows that rows name are of the right kind.
ghost use Rattle.std.specs.Prelude.{◌≡◌, ◌≢◌, SomeIff};
ghost use Rattle.table.specs.Row.{row_at};
ghost use Rattle.defined.specs.Kinds.{names_kind, line_names, operation_names, row_names, wrong_row};

use table::rows::row_at;
use table::{Row, codes, rows};

// The kind of row r, 0 where there is no such row, as a row that the definitions read there.
pub fn kind_at(table: &[u64], r: u64) -> u64
    ensures { result ≡ (row_at table.now r).kind }
{
    let at = rows::NUMBERS.saturating_mul(r as usize);
    table.get(at).copied().unwrap_or(0)
}

// A number that names a row of this kind, or none.
fn names_kind(table: &[u64], kind: u64, r: u64) -> bool
    ensures { result ≡ names_kind table.now kind r }
{
    let found = kind_at(table, r);
    (r == 0) | (found == kind)
}

// The rows that a line names.
fn line_names(table: &[u64], row: Row) -> bool
    ensures { result ≡ line_names table.now row }
{
    let tests = names_kind(table, codes::TEST, row.first.form);
    let operations = names_kind(table, codes::OPERATION, row.first.value);
    let go_to = names_kind(table, codes::LINE, row.second.form);
    tests & (operations & ((row.second.form == codes::DONE) | go_to))
}

// The line that a DO names.
fn operation_names(table: &[u64], row: Row) -> bool
    ensures { result ≡ operation_names table.now row }
{
    let kind = kind_at(table, row.first.value);
    (row.code != codes::DO) | (kind == codes::LINE)
}

// The rows that a row names.
fn row_names(table: &[u64], row: Row) -> bool
    ensures { result ≡ row_names table.now row }
{
    if !names_kind(table, row.kind, row.next) {
        return false;
    }
    match row.kind {
        codes::LINE => line_names(table, row),
        codes::OPERATION => operation_names(table, row),
        _ => true,
    }
}

// Row 1 where it is no line, otherwise the lowest row that names a row of the wrong kind, if there is one.
pub fn wrong_row(table: &[u64]) -> Option<u64>
    ensures { SomeIff result (wrong_row table.now ≢ 0) (wrong_row table.now) }
{
    if kind_at(table, 1) != codes::LINE {
        return Some(1);
    }
    let rows = table.len() / rows::NUMBERS;
    for r in 1..rows {
        if !row_names(table, row_at(table, r)) {
            return Some(r as u64);
        }
    }
    None
}
