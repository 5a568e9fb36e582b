// Opening hours for players in C and Rust.
ghost use Rattle.std.specs.Prelude.{◌≡◌};
ghost use Rattle.player.specs.Hours.{hours_left};

use crate::CLOSED;
use hours::{BadHours, open_at};

// The row of the entry line on a day at a minute.
#[unsafe(no_mangle)]
pub extern "C" fn l6_hours(
    windows: &[u64],
    exceptions: &[u64],
    day: u64,
    minute: u64,
    row: &mut u64,
) -> u64
    ensures { record { answer = result; row = row.new }
        ≡ hours_left windows.now exceptions.now day minute row.old }
{
    match open_at(windows, exceptions, day, minute) {
        Ok(Some(found)) => {
            *row = found;
            0
        }
        Ok(None) => CLOSED,
        Err(BadHours) => 29,
    }
}
