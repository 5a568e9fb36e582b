// Reading a row.
ghost use Rattle.std.specs.Prelude.{◌≡◌, ◌+◌, ◌*◌, ◌≤◌, ◌<◌, length};
ghost use Rattle.table.specs.Row.{as_row, pair_at, row_at};

use crate::{Pair, Row};

// How many numbers a row has, how many rows a table at most, and how many numbers a table has at least and at most.
pub const NUMBERS: usize = 10;

pub const LEAST: usize = 20;

pub const MOST: usize = 800;

pub const ALL: usize = 8000;

// Which of them are its kind, its next row, its code, its name, and the forms and values of its three pairs.
pub const KIND: usize = 0;

pub const NEXT: usize = 1;

pub const CODE: usize = 2;

pub const NAME: usize = 3;

pub const FIRST_FORM: usize = 4;

pub const FIRST: usize = 5;

pub const SECOND_FORM: usize = 6;

pub const SECOND: usize = 7;

pub const THIRD_FORM: usize = 8;

pub const THIRD: usize = 9;

// Numbers i and i + 1 of a row as a pair.
pub fn pair_at(row: &[u64], i: usize) -> Pair
    requires { i + 1 < length row.now }
    ensures { result ≡ pair_at row.now i }
{
    Pair {
        form: row[i],
        value: row[i + 1],
    }
}

// Ten numbers as a row.
fn as_row(row: &[u64]) -> Row
    requires { 10 ≤ length row.now }
    ensures { result ≡ as_row row.now }
{
    Row {
        kind: row[KIND],
        next: row[NEXT],
        code: row[CODE],
        name: row[NAME],
        first: pair_at(row, FIRST_FORM),
        second: pair_at(row, SECOND_FORM),
        third: pair_at(row, THIRD_FORM),
    }
}

// The numbers of a table from row r on: its row stands first.
pub fn from_row(table: &[u64], r: usize) -> &[u64]
    requires { 10 * r + 10 ≤ length table.now }
    ensures { (as_row result.now ≡ row_at table.now r) × (10 ≤ length result.now) }
{
    let at = NUMBERS * r;
    &table[at..]
}

// Row r: ten numbers from number 10 r.
pub fn row_at(table: &[u64], r: usize) -> Row
    requires { 10 * r + 10 ≤ length table.now }
    ensures { result ≡ row_at table.now r }
{
    as_row(from_row(table, r))
}
