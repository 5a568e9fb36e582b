// Storage kept by bit columns tried: for each line a checksum over what the calls answer and leave on generated and damaged lists.
// reference/leaves.rs computes the same lines independently.
#![tactic(auto)]

ghost use Rattle.std.specs.Prelude.{◌≤◌, ◌<◌, length};

use columns::KeepError;
use std::io;

// What a call answers as a number: how many it wrote, or the refusal; 31 is a width that is none.
fn number(kept: Result<usize, KeepError>) -> u64 {
    match kept {
        Ok(n) => n as u64,
        Err(KeepError::NoWidth) => cases::REFUSED + 31,
        Err(KeepError::WordTooWide) => cases::REFUSED + 33,
        Err(KeepError::NotSaved) => cases::REFUSED + 34,
        Err(KeepError::OutputShort) => cases::REFUSED + 35,
    }
}

// The width of a line: 36, 48, or any number.
fn width(which: u64, a: u64, x: u64) -> u64 {
    match which % 3 {
        0 => 36,
        1 => 48,
        _ => x >> (a % 64),
    }
}

// How many bytes so many groups have; for a width that is none, as many as for 48.
fn whole(b: u64, groups: u64) -> u64
    requires { groups ≤ 6 }
    ensures { result ≤ 288 }
{
    if b == 36 { groups * 36 } else { groups * 48 }
}

// As many bytes as some groups have, or one more or less.
fn near(b: u64, a: u64) -> u64
    ensures { result ≤ 289 }
{
    let more = whole(b, a / 64 % 7) + a / 512 % 3;
    if more == 0 { 0 } else { more - 1 }
}

// One number in one case of four, and another one else.
fn seldom(a: u64, one: u64, other: u64) -> u64
    requires { (one ≤ 300) × (other ≤ 300) }
    ensures { result ≤ 300 }
{
    if a % 4 == 0 { one } else { other }
}

// How far a drawn number is moved right to make a word.
fn moved(b: u64) -> u64
    ensures { result < 64 }
{
    if b == 36 { 28 } else { 16 }
}

// Drawn words.
fn words_of(right: u64, drawn: u64) -> [u64; 48]
    requires { right < 64 }
{
    let mut made = [0u64; 48];
    let mut state = drawn;
    for word in &mut made {
        state = cases::next(state);
        *word = state >> right;
    }
    made
}

// Drawn words, one bit of them changed in one case of four.
fn damaged(b: u64, a: u64, y: u64) -> [u64; 48] {
    let mut words = words_of(moved(b), y);
    words[(y / 64 % 48) as usize] ^= (a / 4 % 4 / 3) << (a / 16 % 64);
    words
}

// Saves words where there is so much room.
fn save_into(b: u64, words: &[u64], room: usize, bytes: &mut [u8]) -> u64
    requires { room ≤ length bytes.old }
{
    number(columns::save(b, words, &mut bytes[..room]))
}

// Saves up to 40 such words into near as many bytes as some groups have.
fn save(b: u64, a: u64, y: u64) -> u64 {
    let n = (y % 41) as usize;
    let room = near(b, a) as usize;
    let words = damaged(b, a, y);
    let mut bytes = [77u8; 300];
    let answer = save_into(b, &words[..n], room, &mut bytes);
    cases::fold(answer, cases::fold_all(1, &bytes))
}

// Up to 40 words saved, one bit damaged in one case of four.
fn card(b: u64, n: usize, a: u64, y: u64) -> [u8; 300]
    requires { n ≤ 40 }
{
    let words = words_of(moved(b), y);
    let mut bytes = [0u8; 300];
    let _ = columns::save(b, &words[..n], &mut bytes);
    bytes[(y / 64 % 288) as usize] ^= ((a / 4 % 4 / 3) as u8) << (a / 16 % 8);
    bytes
}

// Loads words where there is so much room.
fn load_into(b: u64, bytes: &[u8], n: usize, room: usize, words: &mut [u64]) -> u64
    requires { room ≤ length words.old }
{
    number(columns::load(b, bytes, n, &mut words[..room]))
}

// Loads such bytes, each in one case of four: near as many of them as some groups have, another number of words, any room.
fn load(b: u64, a: u64, y: u64) -> u64 {
    let n = y % 41;
    let bytes = card(b, n as usize, a, y);
    let given = seldom(a / 8192, near(b, a), whole(b, (n + 7) / 8)) as usize;
    let wanted = seldom(a / 32768, y / 4096 % 41, n) as usize;
    let room = seldom(a / 131072, y / 262144 % 49, 48) as usize % 49;
    let mut words = [77u64; 48];
    let answer = load_into(b, &bytes[..given], wanted, room, &mut words);
    cases::fold(answer, cases::fold_all(1, &words))
}

// What a line's call gives on a case.
fn result(which: u64, a: u64, x: u64, y: u64) -> u64 {
    let b = width(which, a, x);
    if which < 3 {
        save(b, a, y)
    } else {
        load(b, a, y)
    }
}

// The checksum of a line over its cases.
fn checksum(which: u64) -> u64 {
    let mut sum = 0;
    for case in cases::all() {
        sum = cases::fold(sum, result(which, case.a, case.x, case.state));
    }
    sum
}

// The names of the lines.
const NAMES: [&str; 6] = [
    "save, width 36",
    "save, width 48",
    "save, any width",
    "load, width 36",
    "load, width 48",
    "load, any width",
];

fn main(rt: HostRuntime) -> io::Result<()> {
    for (name, which) in NAMES.iter().zip(0..) {
        cases::lines::write_line(&rt, name, checksum(which) / 2)?;
    }
    Ok(())
}
