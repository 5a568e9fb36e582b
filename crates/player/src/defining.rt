// Fields defined before they are used, for players in C and Rust.
ghost use Rattle.std.specs.Prelude.{◌≡◌};
ghost use Rattle.player.specs.Defined.{defined_left};

use crate::{ILL_FORMED, NO_WIDTH, NOT_DEFINED, TABLE_LENGTH};
use defined::{FieldsError, check_fields};

// The refusal of a row that names a row of the wrong kind.
const WRONG_KIND: u64 = 30;

// Whether each field of a table of words of width bits is defined before it is used; otherwise what is wrong, with its row, and of
// a field its name number.
#[unsafe(no_mangle)]
pub extern "C" fn l6_defined(width: u64, table: &[u64], row: &mut u64, field: &mut u64) -> u64
    ensures { record { answer = result; row = row.new; field = field.new }
        ≡ defined_left width table.now row.old field.old }
{
    let Err(error) = check_fields(width, table) else {
        return 0;
    };
    match error {
        FieldsError::NotDefined { row: r, field: n } => {
            *row = r;
            *field = n;
            NOT_DEFINED
        }
        FieldsError::NoWidth => NO_WIDTH,
        FieldsError::BadLength => TABLE_LENGTH,
        FieldsError::IllFormed(r) => {
            *row = r;
            ILL_FORMED
        }
        FieldsError::WrongKind(r) => {
            *row = r;
            WRONG_KIND
        }
    }
}
