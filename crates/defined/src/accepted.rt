// A table that passes what comes before its paths are followed.
ghost use Rattle.std.specs.Prelude.{true, ◌≡◌, ◌<◌, MatchResult, Err};
ghost use Rattle.word.specs.Word.{is_width};
ghost use Rattle.table.specs.Row.{length_fits, row_at, rows};
ghost use Rattle.defined.specs.Answer.{ill_formed_row, fields_checked};
ghost use Rattle.defined.specs.Kinds.{is_kind, wrong_row};

use super::FieldsError;
use super::kinds::{kind_at, wrong_row};
use table::check::{has_length, lowest_ill_formed};
use table::rows::{NUMBERS, row_at};
use table::{Row, codes};

// A table of words of so many bits, which passes refusals 31 and 1, the table check and refusal 30.
#[derive(Clone, Copy)]
pub struct Table<'a> {
    pub width: u64,
    pub numbers: &'a [u64],
    pub ghost wide: { is_width width ≡ true },
    pub ghost long: { length_fits numbers.now ≡ true },
    pub ghost formed: { ill_formed_row width numbers.now ≡ 0 },
    pub ghost kinds: { wrong_row numbers.now ≡ 0 },
}

impl<'a> Table<'a> {
    // The table, or the first of these that it does not pass.
    pub fn accepted(width: u64, numbers: &'a [u64]) -> Result<Table<'a>, FieldsError>
        ensures { MatchResult result (λ t. (t.width ≡ width) × (t.numbers ≡ numbers.entry))
            (λ e. Err e ≡ fields_checked width numbers.now) }
    {
        if !word::is_width(width) {
            return Err(FieldsError::NoWidth);
        }
        if !has_length(numbers) {
            return Err(FieldsError::BadLength);
        }
        let row = lowest_ill_formed(width, numbers);
        if row != 0 {
            return Err(FieldsError::IllFormed(row));
        }
        match wrong_row(numbers) {
            Some(row) => Err(FieldsError::WrongKind(row)),
            None => Ok(Table { width, numbers }),
        }
    }

    // How many rows there are.
    pub fn rows(&self) -> u64
        ensures { result ≡ rows self.now.numbers.now }
    {
        (self.numbers.len() / NUMBERS) as u64
    }

    // Row r is a line. Three loops ask this of each row: a closure that changes the sets of its caller would read no plainer.
    pub fn is_line(&self, r: u64) -> bool
        ensures { result ≡ is_kind self.now.numbers.now 1 r }
    {
        kind_at(self.numbers, r) == codes::LINE
    }

    // A row that is there.
    pub fn row(&self, r: u64) -> Row
        requires { r < rows self.now.numbers.now }
        ensures { result ≡ row_at self.now.numbers.now r }
    {
        row_at(self.numbers, r as usize)
    }
}
