// One line read, a token a turn.
ghost use Rattle.std.specs.Prelude.{◌≡◌, ◌+◌, ◌≤◌, ◌<◌, length, drop, ◌∷◌, []};
ghost use Rattle.lines.specs.Words.{same};
ghost use Rattle.lines.specs.Reading.{read_line};
ghost use Rattle.lines.specs.Walking.{Within};
ghost use Rattle.faults.specs.Checking.{entered_walk, go_walk, mode_walk, word_walk, operation_walk, paren_walk, spot_walk};
ghost use Rattle.faults.specs.Checking.{place_after, Few, enough_at, column_at, end_scan, finish_walk};
ghost use Rattle.faults.specs.Checking.{told_walk, told_scanned, line_told, typed_told, PlacedTold};

use crate::{Scan, Walk};
use lines::{Spot, fitting, kinds, spots, words};
use table::codes;

// After a mode word.
fn entered(from: usize, label: usize, mode: u64, end: usize) -> Walk
    ensures { told_walk result ≡ told_walk (entered_walk from label mode end) }
{
    let c = Scan {
        from,
        label,
        mode,
        test: end,
        tests: 0,
        operation: end,
        operations: 0,
        goes: 0,
        ends: 0,
    };
    if mode == codes::THEN {
        Walk::Operations(c)
    } else {
        Walk::Tests(c)
    }
}

// A mode word after a label, or without one; another word goes another way.
fn mode_step(s: &[u8], from: usize, label: usize, at: usize, end: usize, other: Walk) -> Walk
    requires { (at ≤ end) × (end ≤ length s.now) }
    ensures { told_walk result ≡ told_walk (mode_walk s.now from label at end other) }
{
    let Some(mode) = kinds::mode_of(&s[at..end]) else {
        return other;
    };
    entered(from, label, mode, end)
}

// The first word.
fn first_step(s: &[u8], at: usize, end: usize) -> Walk
    requires { (at ≤ end) × (end ≤ length s.now) }
    ensures { told_walk result ≡ told_walk (word_walk s.now Walk.Start at end) }
{
    if !kinds::is_label(&s[at..end]) {
        return mode_step(s, 0, 0, at, end, Walk::Broken);
    }
    let c = Scan {
        from: at,
        label: end,
        mode: 0,
        test: 0,
        tests: 0,
        operation: 0,
        operations: 0,
        goes: 0,
        ends: 0,
    };
    mode_step(s, 0, 0, at, end, Walk::Mode(c))
}

// A go-to.
fn go_step(s: &[u8], c: Scan, at: usize, end: usize) -> Walk
    requires { (at ≤ end) × (end ≤ length s.now) }
    ensures { told_walk result ≡ told_walk (go_walk s.now c at end) }
{
    if (&s[at..end] == b"DONE".as_slice()) | kinds::is_label(&s[at..end]) {
        return Walk::End(Scan {
            goes: at,
            ends: end,
            ..c
        });
    }
    Walk::Broken
}

// After tests: THEN or a go-to.
fn test_step(s: &[u8], c: Scan, at: usize, end: usize) -> Walk
    requires { (at ≤ end) × (end ≤ length s.now) }
    ensures { told_walk result ≡ told_walk (word_walk s.now (Walk.Tests c) at end) }
{
    let d = Scan {
        operation: end,
        operations: 0,
        goes: 0,
        ends: 0,
        ..c
    };
    if &s[at..end] == b"THEN".as_slice() {
        return Walk::Then(d);
    }
    go_step(s, d, at, end)
}

// A word.
fn word_step(s: &[u8], walk: Walk, at: usize, end: usize) -> Walk
    requires { (at ≤ end) × (end ≤ length s.now) }
    ensures { told_walk result ≡ told_walk (word_walk s.now walk at end) }
{
    match walk {
        Walk::Start => first_step(s, at, end),
        Walk::Broken => Walk::Broken,
        Walk::Mode(c) => mode_step(s, c.from, c.label, at, end, Walk::Broken),
        Walk::Tests(c) => test_step(s, c, at, end),
        Walk::Then(_) => Walk::Broken,
        Walk::Operations(c) => go_step(s, c, at, end),
        Walk::End(_) => Walk::Broken,
    }
}

// One operation more.
fn operation_step(b: u64, s: &[u8], c: Scan, at: usize, close: usize) -> Walk
    requires { (b ≤ 48) × ((c.operations ≤ at) × ((at < close) × (close < length s.now))) }
    ensures { told_walk result ≡ told_walk (operation_walk s.now b c at close) }
{
    let from = at + 1;
    if !fitting::is_operation(b, &s[from..close]) {
        return Walk::Broken;
    }
    Walk::Operations(Scan {
        operations: c.operations + 1,
        goes: 0,
        ends: 0,
        ..c
    })
}

// One test more.
fn tested_step(b: u64, s: &[u8], c: Scan, at: usize, close: usize) -> Walk
    requires { (b ≤ 48) × ((c.tests ≤ at) × ((at < close) × (close < length s.now))) }
    ensures { told_walk result ≡ told_walk (paren_walk s.now b (Walk.Tests c) at close) }
{
    let from = at + 1;
    if !fitting::is_test(b, &s[from..close]) {
        return Walk::Broken;
    }
    Walk::Tests(Scan {
        tests: c.tests + 1,
        goes: 0,
        ends: 0,
        ..c
    })
}

// A parenthesis.
fn paren_step(b: u64, s: &[u8], walk: Walk, at: usize, close: usize) -> Walk
    requires { (b ≤ 48) × (Few walk at × ((at < close) × (close < length s.now))) }
    ensures { told_walk result ≡ told_walk (paren_walk s.now b walk at close) }
{
    match walk {
        Walk::Start => Walk::Broken,
        Walk::Broken => Walk::Broken,
        Walk::Mode(_) => Walk::Broken,
        Walk::Tests(c) => tested_step(b, s, c, at, close),
        Walk::Then(c) => operation_step(b, s, c, at, close),
        Walk::Operations(c) => operation_step(b, s, c, at, close),
        Walk::End(_) => Walk::Broken,
    }
}

// A token.
fn spot_step(b: u64, s: &[u8], walk: Walk, at: usize, spot: Spot) -> Walk
    requires { (b ≤ 48) × (Few walk at × Within s.now at (Some spot)) }
    ensures { told_walk result ≡ told_walk (spot_walk s.now b walk at spot) }
{
    match spot {
        Spot::Word(end) => word_step(s, walk, at, end),
        Spot::Paren(close) => paren_step(b, s, walk, at, close),
    }
}

// The place after a token.
fn place_after(s: &[u8], at: usize, spot: Spot) -> usize
    requires { Within s.now at (Some spot) }
    ensures { result ≡ place_after spot }
{
    match spot {
        Spot::Word(end) => end,
        Spot::Paren(close) => close + 1,
    }
}

// Whether the byte that ends a line is all that is left.
fn at_end(s: &[u8], at: usize) -> bool
    requires { at ≤ length s.now }
    ensures { result ≡ same (drop at s.now) (10 ∷ []) }
{
    if s.len() - at != 1 {
        return false;
    }
    s[at] == b'\n'
}

// Tests unless the line is a THEN line, and an operation or a go-to.
fn is_enough(c: Scan) -> bool
    ensures { result ≡ enough_at c }
{
    let going = !((c.operations == 0) & (c.goes == c.ends));
    if c.mode == codes::THEN {
        return (c.tests == 0) & going;
    }
    (c.tests != 0) & going
}

// A label in column one, or blanks.
fn in_column(s: &[u8], c: Scan) -> bool
    ensures { result ≡ column_at s.now c }
{
    let blanks = words::blanks_end(s, 0);
    if c.from == c.label {
        return 1 <= blanks;
    }
    blanks == 0
}

// A line that ends here.
fn end_scan(s: &[u8], c: Scan) -> Option<Scan>
    ensures { told_scanned result ≡ told_scanned (end_scan s.now c) }
{
    if is_enough(c) & in_column(s, c) {
        return Some(c);
    }
    None
}

// The line where a walk ends.
fn finish(s: &[u8], walk: Walk) -> Option<Scan>
    ensures { told_scanned result ≡ told_scanned (finish_walk s.now walk) }
{
    match walk {
        Walk::Start => None,
        Walk::Broken => None,
        Walk::Mode(_) => None,
        Walk::Tests(c) => {
            let d = Scan {
                operation: 0,
                operations: 0,
                goes: 0,
                ends: 0,
                ..c
            };
            end_scan(s, d)
        }
        Walk::Then(_) => None,
        Walk::Operations(c) => {
            let d = Scan {
                goes: 0,
                ends: 0,
                ..c
            };
            end_scan(s, d)
        }
        Walk::End(c) => end_scan(s, c),
    }
}

// The line.
pub fn scan(b: u64, s: &[u8]) -> Option<Scan>
    requires { b ≤ 48 }
    ensures { (line_told s.now (told_scanned result) ≡ typed_told (read_line b s.now))
        × PlacedTold s.now (told_scanned result) }
{
    let mut at: usize = 0;
    let mut walk = Walk::Start;
    // No range to go over: where a token begins is known only where the one before it ended.
    while !at_end(s, at) {
        let start = words::blanks_end(s, at);
        let spot = spots::token_at(s, start)?;
        walk = spot_step(b, s, walk, start, spot);
        at = place_after(s, start, spot);
    }
    finish(s, walk)
}
