// Storage kept by bit columns, for players in C and Rust.
ghost use Rattle.std.specs.Prelude.{◌≡◌};
ghost use Rattle.word.specs.Told.{number};
ghost use Rattle.columns.specs.Columns.{told_kept};
ghost use Rattle.player.specs.Keeping.{save_left, load_left};

use crate::NO_WIDTH;
use columns::{KeepError, load, save};

// The number of an answer.
fn number_of(answer: Result<usize, KeepError>) -> u64
    ensures { result ≡ number (told_kept answer) }
{
    match answer {
        Ok(_) => 0,
        Err(KeepError::NoWidth) => NO_WIDTH,
        Err(KeepError::WordTooWide) => 33,
        Err(KeepError::NotSaved) => 34,
        Err(KeepError::OutputShort) => 35,
    }
}

// Saves words as bytes, and says how many bytes they are.
#[unsafe(no_mangle)]
pub extern "C" fn l6_save(width: u64, words: &[u64], bytes: &mut [u8], count: &mut u64) -> u64
    ensures { record { answer = result; bytes = bytes.new; count = count.new }
        ≡ save_left width words.now bytes.old count.old }
{
    let kept = save(width, words, bytes);
    *count = kept.map_or(*count, |n| n as u64);
    number_of(kept)
}

// Loads n words from bytes.
#[unsafe(no_mangle)]
pub extern "C" fn l6_load(width: u64, bytes: &[u8], n: usize, words: &mut [u64]) -> u64
    ensures { record { answer = result; words = words.new }
        ≡ load_left width bytes.now n words.old }
{
    number_of(load(width, bytes, n, words))
}
