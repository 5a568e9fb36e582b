// tourread: reads tour.l6 and writes tour.tab, or prints the line of a fault. It takes a width as its argument, 36 or 48, and 36
// where there is none. What it writes and prints is proved of what it reads (crate tourtext).
#![tactic(auto)]

use files::read_file;
use std::io::Write;
use std::rt::Files;
use std::{fs, io};
use tour::numbers::BYTES;
use tour::width::width_of;
use tourtext::{LINE, translate};

// As many bytes as the buffer of typed lines has.
const LONGEST: usize = 65536;

// Writes tour.tab anew.
fn write_tab(rt: &impl Files, bytes: &[u8]) -> io::Result<()> {
    fs::write(rt, "tour.tab", bytes)
}

fn main(rt: HostRuntime) -> io::Result<()> {
    let mut typed = files::zeros::<LONGEST>();
    let mut tab = [0u8; BYTES];
    let mut printed = [0u8; LINE];
    let mut word = [0u8; 8];
    let asked = files::first_word(&rt, &mut word);
    let given = read_file(&rt, b"tour.l6", &mut typed);
    if given == LONGEST {
        return println!(rt; "tour.l6 has more than 65535 bytes");
    }
    let done = translate(
        width_of(&word[..asked]),
        &typed[..given],
        &mut tab,
        &mut printed,
    );
    let bytes = done.bytes;
    let start = done.start;
    let kept = if 0 < bytes {
        write_tab(&rt, &tab[..bytes])
    } else {
        Ok(())
    };
    io::writer(&rt).write_all(&printed[start..])?;
    kept
}
