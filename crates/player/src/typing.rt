// Tours typed as L6 lines, read for players in C and Rust.
ghost use Rattle.std.specs.Prelude.{◌≡◌};
ghost use Rattle.player.specs.Typed.{read_left};

use crate::NO_WIDTH;
use lines::{BAD_LABEL, BAD_LINE, ReadError, TOO_LONG};
use typed::read;

// The table of a text for words of width bits and how many rows it has, or the line of its fault.
#[unsafe(no_mangle)]
pub extern "C" fn l6_read(
    width: u64,
    text: &[u8],
    table: &mut [u64],
    count: &mut u64,
    line: &mut u64,
) -> u64
    ensures { record { answer = result; table = table.new; count = count.new; line = line.new }
        ≡ read_left width text.now table.old count.old line.old }
{
    match read(width, text, table) {
        Ok(n) => {
            *count = n;
            0
        }
        Err(ReadError::NoWidth) => NO_WIDTH,
        Err(ReadError::BadLine(n)) => {
            *line = n;
            BAD_LINE
        }
        Err(ReadError::BadLabel(n)) => {
            *line = n;
            BAD_LABEL
        }
        Err(ReadError::TooLong(n)) => {
            *line = n;
            TOO_LONG
        }
    }
}
