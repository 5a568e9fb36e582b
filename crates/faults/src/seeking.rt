// Labels that a text uses and that are not known, sought in its lines together.
ghost use Rattle.std.specs.Prelude.{◌≡◌, true, false, List, ℕ, suc, ◌+◌, ◌^◌, ◌≤◌, ◌<◌, length, take, get_or};
ghost use Rattle.faults.specs.Places.{missing};
ghost use Rattle.faults.specs.Names.{Known, Found, Told, LineOf, Kept, Moved};

use crate::names::key_of;
use crate::{Label, line, names};
use lines::{arguments, kinds, words};
use table::rows;

// The row put beside a label that is found: past the last, since nobody asks which it is.
const PAST: u64 = 801;

// Whether a label is one of those found.
pub fn is_found(found: &[u64], w: &[u8]) -> bool
    ensures { (b : ℕ) (text : List ℕ) → Found b text found.now → result ≡ true
        → false ≡ missing b text w.now }
{
    kinds::is_label(w) && found.contains(&key_of(w))
}

// Whether a word is one that an operation calls or a line goes to.
fn is_use(text: &[u8], from: usize, end: usize) -> bool
    requires { (from ≤ end) × (end < length text.now) }
{
    let x = text[end];
    if x == b'\n' {
        return true;
    }
    if x != b')' {
        return false;
    }
    if from < 4 {
        return false;
    }
    let start = from - 4;
    &text[start..from] == b"(DO,".as_slice()
}

// A line's label put after the first m of those sought, if it is the one at a place past them: how many are put by then.
fn settle(sought: &mut [u64], m: usize, i: usize, w: &[u8]) -> usize
    requires { (m ≤ i) × (i < length sought.old) }
    ensures { Moved m sought.old result sought.new
        × ((b : ℕ) (text : List ℕ) → Told b text w.now → Kept b text m sought.old result sought.new) }
{
    if w.len() == 0 {
        return m;
    }
    let key = key_of(w);
    if sought[i] != key {
        return m;
    }
    sought[i] = sought[m];
    sought[m] = key;
    m + 1
}

// The same for the label of a line that declares it. A line that declares a label has eight bytes more at least.
fn seek_line(b: u64, s: &[u8], sought: &mut [u64], m: usize, n: usize) -> usize
    requires { (b ≤ 48) × ((m ≤ n) × (n ≤ length sought.old)) }
    ensures { Moved m sought.old result sought.new
        × ((text : List ℕ) → LineOf b text s.now → Kept b text m sought.old result sought.new) }
{
    let end = words::word_end(s, 0);
    if (end == 0) | (s.len() - end < 8) {
        return m;
    }
    let key = key_of(&s[0..end]);
    let Some(i) = sought[m..n].iter().position(|x| *x == key) else {
        return m;
    };
    let Some(c) = line::scan(b, s) else {
        return m;
    };
    let from = c.from;
    let to = c.label;
    settle(sought, m, m + i, &s[from..to])
}

// Those of the first n labels sought that lines declare, put first: how many.
fn seek(b: u64, text: &[u8], sought: &mut [u64], n: usize) -> usize
    requires { (b ≤ 48) × (n ≤ length sought.old) }
    ensures { (result ≤ length sought.new)
        × ((length sought.new ≡ length sought.old)
        × Found b text.now (take result sought.new)) }
{
    let mut m = 0;
    if n == 0 {
        return m;
    }
    // Tested at a turn's end, so that the line after the last one that is wanted is not looked through.
    for s in text.split_inclusive(|x| *x == b'\n') {
        m = seek_line(b, s, sought, m, n);
        if n <= m {
            return m;
        }
    }
    m
}

// A label put after the first n that are sought, unless it is known or sought.
fn want(known: &[Label], sought: &mut [u64], n: usize, w: &[u8]) -> usize
    requires { n < length sought.old }
    ensures { (result ≤ suc n) × (length sought.new ≡ length sought.old) }
{
    if !kinds::is_label(w) {
        return n;
    }
    if names::known_row(known, w) != 0 {
        return n;
    }
    let key = key_of(w);
    if sought[0..n].contains(&key) {
        return n;
    }
    sought[n] = key;
    n + 1
}

// A word put there if it is used.
fn want_word(
    part: &[u8],
    from: usize,
    end: usize,
    known: &[Label],
    sought: &mut [u64],
    n: usize,
) -> usize
    requires { ((from ≤ end) × (end < length part.now)) × (n < length sought.old) }
    ensures { (result ≤ suc n) × (length sought.new ≡ length sought.old) }
{
    if !is_use(part, from, end) {
        return n;
    }
    want(known, sought, n, &part[from..end])
}

// The labels that a part of a text uses and that are not known, as many as there is room for: how many.
fn gather(part: &[u8], known: &[Label], sought: &mut [u64]) -> usize
    ensures { (result ≤ length sought.new) × (length sought.new ≡ length sought.old) }
{
    let mut from = 0;
    let mut n = 0;
    // No range to go over: a word begins past the end of the one before it.
    while from < part.len() {
        if sought.len() <= n {
            return n;
        }
        let end = words::word_end(part, from);
        if part.len() <= end {
            return n;
        }
        n = want_word(part, from, end, known, sought, n);
        from = end + 1;
    }
    n
}

// The labels that a part of a text uses, that are not known and that lines of the text declare, as many as there is room for:
// how many.
pub fn resolve(b: u64, text: &[u8], part: &[u8], known: &[Label], found: &mut [u64]) -> usize
    requires { b ≤ 48 }
    ensures { (result ≤ length found.new)
        × ((length found.new ≡ length found.old)
        × Found b text.now (take result found.new)) }
{
    let n = gather(part, known, found);
    seek(b, text, found, n)
}

// Whether an operation, by what stands inside it, calls a label that is neither known nor found.
fn is_new(known: &[Label], found: &[u64], s: &[u8]) -> bool {
    if known.len() < rows::MOST {
        return false;
    }
    let Some(label) = arguments::called(s) else {
        return false;
    };
    if names::known_row(known, label) != 0 {
        return false;
    }
    !is_found(found, label)
}

// The labels found, and others from an operation on where it calls one that is not among them. The operation closes at a place
// of its line's part.
pub fn renew(
    b: u64,
    text: &[u8],
    part: &[u8],
    close: usize,
    known: &[Label],
    found: &mut [u64],
    n: usize,
) -> usize
    requires { (b ≤ 48) × ((1 ≤ close) × ((close < length part.now) × (n ≤ length found.old))) }
    ensures { (result ≤ length found.new)
        × ((length found.new ≡ length found.old)
        × Kept b text.now n found.old result found.new) }
{
    if !is_new(known, &found[0..n], &part[1..close]) {
        return n;
    }
    resolve(b, text, part, known, found)
}

// Labels that are found put after those that are known, as many as there is room for: how many then.
fn append(room: &mut [Label], n: usize, found: &[u64]) -> usize
    requires { (800 ≤ n) × (n ≤ length room.old) }
    ensures { (result ≤ length room.new) × ((b : ℕ) (text : List ℕ)
        → Known b text (take n room.old) → Found b text found.now → Known b text (take result room.new)) }
{
    let mut k = n;
    for key in found {
        if room.len() <= k {
            return k;
        }
        room[k] = Label {
            key: *key,
            row: PAST,
        };
        k += 1;
    }
    k
}

// Room for labels.
pub fn no_labels() -> [u64; rows::MOST] {
    [0; rows::MOST]
}

// The labels of a text's lines, the first 800 of them, and of the others those that the text uses first: how many.
pub fn learn(b: u64, text: &[u8], room: &mut [Label]) -> usize
    requires { (b ≤ 48) × (800 ≤ length room.old) }
    ensures { (result ≤ length room.new) × Known b text.now (take result room.new) }
{
    let n = names::collect(b, text, room);
    if n < rows::MOST {
        return n;
    }
    let mut found = no_labels();
    let m = resolve(b, text, text, &room[0..n], &mut found);
    append(room, n, &found[0..m])
}
