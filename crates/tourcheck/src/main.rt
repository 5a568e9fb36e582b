// tourcheck: reads tour.tab, checks that each field is defined before it is used, prints one line. It takes a width as its
// argument, 36 or 48, and 36 where there is none. What it prints is proved of what it reads (crate diagnosis).
#![tactic(auto)]

use diagnosis::{LINE, diagnose};
use files::read_file;
use std::io;
use std::io::Write;
use tour::width::width_of;

// The buffer holds more than what tourcheck takes of the file: 64,000 bytes.
fn main(rt: HostRuntime) -> io::Result<()> {
    let mut tab = files::zeros::<65536>();
    let mut text = [0u8; LINE];
    let mut word = [0u8; 8];
    let given = files::first_word(&rt, &mut word);
    let table = read_file(&rt, b"tour.tab", &mut tab);
    let start = diagnose(width_of(&word[..given]), &tab[..table], &mut text);
    io::writer(&rt).write_all(&text[start..])
}
