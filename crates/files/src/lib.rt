// Files, input and arguments as the programs read them.
#![tactic(auto)]

ghost use Rattle.std.specs.Prelude.{◌≡◌, length};
ghost use Rattle.files.specs.Counts.{IsPrefixLen};

use std::env::FillError;
use std::io::Read;
use std::rt::{Env, Files};
use std::{fs, str};

// So many zeros. Only their number is promised, which lending them as a slice needs.
pub fn zeros<const N: usize>() -> [u8; N]
    ensures { length result ≡ N }
{
    [0; N]
}

// Reads until the buffer is full, the input ends or a read fails, and says how many bytes it put at the start of the buffer.
pub fn read_full(from: &mut impl Read, bytes: &mut [u8]) -> usize
    ensures { IsPrefixLen result bytes.new }
{
    let mut done = 0;
    // A `while`: a read moves on by as many bytes as it got.
    while done < bytes.len() {
        match from.read(&mut bytes[done..]) {
            Ok(0) | Err(_) => break,
            Ok(n) => done += n,
        }
    }
    done
}

// Reads the first bytes of a file, and says how many: a missing file counts as empty, as does one that cannot be opened.
pub fn read_file(rt: &impl Files, name: &[u8], bytes: &mut [u8]) -> usize
    ensures { IsPrefixLen result bytes.new }
{
    let Ok(path) = str::from_utf8(name) else {
        return 0;
    };
    match fs::open(rt, path) {
        Ok(mut file) => read_full(&mut file, bytes),
        Err(_) => 0,
    }
}

// The word after the program's name, and how long it is, 0 where there is none: an empty slice then. One that is empty or too long
// counts as eight characters.
pub fn first_word(rt: &impl Env, word: &mut [u8; 8]) -> usize
    ensures { IsPrefixLen result word.new }
{
    match rt.arg(1, word) {
        Ok(0) | Err(FillError::TooLong) => 8,
        Ok(length) => length,
        Err(FillError::NotPresent) => 0,
    }
}
