// Fields defined before they are used: ticket 8. What the answers mean stands in specs/.
#![tactic(auto)]

ghost use Rattle.std.specs.Prelude.{◌≡◌};
ghost use Rattle.defined.specs.Answer.{fields_checked, told_fields, fields_told, Meant};

mod accepted;
mod kinds;
mod marks;
mod rounds;
mod sets;
mod uses;
mod walk;

use accepted::Table;

// A row that uses a field in its set, and the first such field of it.
#[derive(Clone, Copy, PartialEq, Eq, Debug)]
pub struct Use {
    pub row: u64,
    pub field: u64,
}

// Why a table gets no yes: a field that is not defined where a row uses it; or what is wrong before paths are followed: the width
// (refusal 31), the table's length (refusal 1), the lowest ill-formed row, or a row of the wrong kind (refusal 30), with the row
// that names it, or row 1 where it is no line.
#[derive(Clone, Copy, PartialEq, Eq, Debug)]
pub enum FieldsError {
    NotDefined { row: u64, field: u64 },
    NoWidth,
    BadLength,
    IllFormed(u64),
    WrongKind(u64),
}

// The check of a table of words of b bits: refusals 31 and 1, the table check's own answer, refusal 30, then whether each field is
// defined before it is used.
pub fn check_fields(b: u64, table: &[u64]) -> Result<(), FieldsError>
    ensures value { result ≡ fields_checked b table.now }
    ensures meant { Meant b table.now result }
    ensures numbered { told_fields result ≡ fields_told b table.now }
{
    let table = Table::accepted(b, table)?;
    match uses::first_use(&table) {
        Some(Use { row, field }) => Err(FieldsError::NotDefined { row, field }),
        None => Ok(()),
    }
}
