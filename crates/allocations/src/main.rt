// The block allocator and references tried: a checksum over generated cases for each function on sizes, over sequences of
// operations for each set-up, and over references; then bench cases of document 01. reference/leaves.rs computes the same lines
// independently.
#![tactic(auto)]

mod maps;
mod references;

use block::SetUp;
use buddy::{section, sizes};
use std::io;

// Any numbers for a set-up, its largest size seldom zero.
fn drawn_setup(a: u64, x: u64, y: u64) -> SetUp {
    SetUp {
        d: (a % 9) as u16,
        s1: (x % 65536) as u16,
        s2: (y % 65536) as u16,
    }
}

// What function number `which` gives on a case.
fn result(which: u64, a: u64, x: u64, y: u64) -> u64 {
    match which {
        0 => sizes::size_of((a % 8) as u8) as u64,
        1 => sizes::level_of((a % 8) as u8, x % 256) as u64,
        2 => sizes::top_of((x % 65536) as u16) as u64,
        _ => section::words_of(drawn_setup(a, x, y)) as u64,
    }
}

// The checksum of a function over its cases.
fn checksum(number: u64) -> u64 {
    let mut sum = 0;
    for case in cases::all() {
        sum = cases::fold(sum, result(number, case.a, case.x, case.y));
    }
    sum
}

// The operations of a bench case.
fn steps_of(which: u64) -> u64 {
    match which {
        9 => 0x3113,
        10 => 0x3115,
        11 => 0x19,
        12 => 0x111818,
        13 => 0x1821111818,
        _ => 0x1822111818,
    }
}

// The figure of line number `which`: the checksum of a function or of a set-up's sequence, or a bench case.
fn figure(which: u64) -> u64 {
    match which {
        0..=3 => checksum(which) / 2,
        4..=7 => maps::sequence(which - 4) / 2,
        8 => references::checksum() / 2,
        _ => maps::script(steps_of(which)),
    }
}

// The names of the lines.
const NAMES: [&str; 15] = [
    "size_of",
    "level_of",
    "top_of",
    "words_of",
    "blocks, d 8, s1 8, s2 23",
    "blocks, d 128, s1 128, s2 1151",
    "blocks, d 1, s1 1, s2 40",
    "blocks, d 16, s1 32, s2 95",
    "locate and contents",
    "get 3, its size",
    "get 5, its size",
    "get 9",
    "get 8, 8, 1",
    "get 8, 8, 1, free the first, get 8",
    "get 8, 8, 1, free the second, get 8",
];

fn main(rt: HostRuntime) -> io::Result<()> {
    for (name, which) in NAMES.iter().zip(0..) {
        cases::lines::write_line(&rt, name, figure(which))?;
    }
    Ok(())
}
