// Labels kept as numbers, each beside the row of its line.
ghost use Rattle.std.specs.Prelude.{◌≡◌, ◌+◌, ◌^◌, ◌≤◌, ◌<◌, length, take, get_or};
ghost use Rattle.std.proofs.Props.{props};
ghost use Rattle.faults.specs.Names.{key_of, beside, known_row, Known, Put, PutLine};

use crate::{Label, Noted, line};
use lines::kinds;
use table::rows;

// A text, for words of b bits, and those of its labels that are known.
#[derive(Clone, Copy)]
pub struct Labels<'a> {
    pub b: u64,
    pub text: &'a [u8],
    pub known: &'a [Label],
    pub ghost width: { b ≤ 48 },
    pub ghost right: { Known b text.now known.now } by { Prim.hlevel props },
}

impl Labels<'_> {
    // The row of a label, 0 where it is none or not known: 0 is no line's row, and a table has it where no row is named.
    pub fn row_of(&self, w: &[u8]) -> u64
        ensures { result ≡ known_row self.now.known.now w.now }
    {
        known_row(self.known, w)
    }
}

// Byte i of a word, 0 past its end.
fn byte_or_zero(w: &[u8], i: usize) -> u64
    ensures { (result ≡ get_or w.now i 0) × (result < 256) }
{
    match w.get(i) {
        Some(x) => u64::from(*x),
        None => 0,
    }
}

// The number of a label.
pub fn key_of(w: &[u8]) -> u64
    ensures { result ≡ key_of w.now }
{
    let mut key = 0;
    for i in 0..kinds::LONGEST {
        key = key * 256 + byte_or_zero(w, i);
    }
    key
}

// The row beside a number, 0 where there is none. The definition has that 0.
fn row_beside(known: &[Label], key: u64) -> u64
    ensures { result ≡ beside known.now key }
{
    for label in known {
        if label.key == key {
            return label.row;
        }
    }
    0
}

// The row beside a label, 0 where it is none or not there.
pub fn known_row(known: &[Label], w: &[u8]) -> u64
    ensures { result ≡ known_row known.now w.now }
{
    if !kinds::is_label(w) {
        return 0;
    }
    row_beside(known, key_of(w))
}

// A label put after the first n, unless it is empty.
fn note(room: &mut [Label], n: usize, w: &[u8], row: u64) -> usize
    requires { n < length room.old }
    ensures { Put n w.now row room.old room.new result }
{
    if w.len() == 0 {
        return n;
    }
    room[n] = Label {
        key: key_of(w),
        row,
    };
    n + 1
}

// The label of a line put after the first n, and the line's rows.
fn note_line(b: u64, s: &[u8], n: usize, before: u64, room: &mut [Label]) -> Noted
    requires { (b ≤ 48) × ((before + 1 < 2 ^ 64) × (n < length room.old)) }
    ensures { PutLine b s.now n before room.old room.new result }
{
    let Some(c) = line::scan(b, s) else {
        return Noted { count: n, size: 0 };
    };
    let from = c.from;
    let end = c.label;
    let size = (1 + c.tests + c.operations) as u64;
    let count = note(room, n, &s[from..end], before + 1);
    Noted { count, size }
}

// The labels of a text's lines, the first 800: how many.
pub fn collect(b: u64, text: &[u8], room: &mut [Label]) -> usize
    requires { (b ≤ 48) × (800 ≤ length room.old) }
    ensures { (result ≤ length room.new) × Known b text.now (take result room.new) }
{
    let mut n = 0;
    let mut before: u64 = 0;
    // Tested at a turn's end, so that the line after the last one that is wanted is not looked through.
    for s in text.split_inclusive(|x| *x == b'\n') {
        let it = note_line(b, s, n, before, room);
        n = it.count;
        if rows::MOST <= n {
            return n;
        }
        before += it.size;
    }
    n
}
