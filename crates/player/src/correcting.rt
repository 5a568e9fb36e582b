// Re-recorded stops for players in C and Rust.
ghost use Rattle.std.specs.Prelude.{◌≡◌};
ghost use Rattle.player.specs.Recordings.{recordings_left};

use recordings::{CorrectionError, write_standing};

// Stop and recording of each record of a list that stands, and how many they are.
#[unsafe(no_mangle)]
pub extern "C" fn l6_recordings(list: &[u64], output: &mut [u64], count: &mut u64) -> u64
    ensures { record { answer = result; output = output.new; count = count.new }
        ≡ recordings_left list.now output.old count.old }
{
    let written = write_standing(list, output);
    *count = written.map_or(*count, |n| n as u64);
    match written {
        Ok(_) => 0,
        Err(CorrectionError::BadList) => 26,
        Err(CorrectionError::RowTwice) => 27,
        Err(CorrectionError::OutputShort) => 28,
    }
}
