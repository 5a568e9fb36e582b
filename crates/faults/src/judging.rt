// What the lines of a text use.
ghost use Rattle.std.specs.Prelude.{◌≡◌, true, ℕ, ◌+◌, ◌^◌, ◌≤◌, ◌<◌, length, drop};
ghost use Rattle.lines.specs.Words.{all, any};
ghost use Rattle.lines.specs.Forms.{is_operation};
ghost use Rattle.lines.specs.Reading.{split, read_line};
ghost use Rattle.lines.specs.Program.{called_in, bad_labels, row_count, too_long, refusal_of, program};
ghost use Rattle.lines.specs.Program.{told_read, refusal_told};
ghost use Rattle.faults.specs.Checking.{parens_in, operations_at, line_at, Placed};
ghost use Rattle.lines.specs.Walking.{calls_in};
ghost use Rattle.faults.specs.Names.{known_before, Found};
ghost use Rattle.faults.specs.Places.{lines_in, missing, goes_to_of, lines_before, line_judged};

use crate::names::Labels;
use crate::{Scan, labels, line, seeking};
use lines::{ReadError, Spot, arguments, spots, words};
use table::rows;

// How many numbers a row has, and how many rows a table at most.
const NUMBERS: u64 = rows::NUMBERS as u64;

const MOST: u64 = rows::MOST as u64;

// Whether rows are too many, or pass the lent numbers.
fn too_long(lent: u64, count: u64, size: u64) -> bool
    requires { count ≤ 800 }
    ensures { result ≡ too_long lent (count + size) }
{
    if MOST < size {
        return true;
    }
    let rows = count + size;
    !((rows <= MOST) & (NUMBERS * rows <= lent))
}

impl Labels<'_> {
    // Whether no line declares a label.
    fn is_missing(&self, label: &[u8]) -> bool
        ensures { result ≡ missing self.now.b self.now.text.now label.now }
    {
        if self.row_of(label) != 0 {
            return false;
        }
        if (self.known.len() < rows::MOST) & (0 < label.len()) {
            return true;
        }
        !labels::declared(self.b, self.text, label)
    }

    // Whether an operation, by what stands inside it, calls a label that no line declares.
    fn calls_missing(&self, found: &[u64], s: &[u8]) -> bool
        requires { Found self.now.b self.now.text.now found.now
            × (is_operation self.now.b (split s.now) ≡ true) }
        ensures { result ≡ any (missing self.now.b self.now.text.now) (calls_in self.now.b (split s.now)) }
    {
        let Some(label) = arguments::called(s) else {
            return false;
        };
        if seeking::is_found(found, label) {
            return false;
        }
        self.is_missing(label)
    }

    // Whether one of the operations from a place of a line on calls a label that no line declares; with room for labels that are
    // found.
    fn misses_any(&self, s: &[u8], at: usize, count: usize, found: &mut [u64]) -> bool
        requires { (at ≤ length s.now) × ((length (parens_in count (drop at s.now)) ≡ count)
            × (all (is_operation self.now.b) (parens_in count (drop at s.now)) ≡ true)) }
        ensures { result ≡ any (missing self.now.b self.now.text.now) (called_in self.now.b (parens_in count (drop at s.now))) }
    {
        let mut place = at;
        let mut n = 0;
        for left in (0..count).rev() {
            let start = words::blanks_end(s, place);
            let Some(Spot::Paren(close)) = spots::token_at(s, start) else {
                unreachable!()
            };
            let from = start + 1;
            n = seeking::renew(
                self.b,
                self.text,
                &s[start..],
                close - start,
                self.known,
                found,
                n,
            );
            if self.calls_missing(&found[0..n], &s[from..close]) {
                return true;
            }
            place = close + 1;
        }
        false
    }

    // The same, with that room.
    fn misses_call(&self, s: &[u8], at: usize, count: usize) -> bool
        requires { (at ≤ length s.now) × ((length (parens_in count (drop at s.now)) ≡ count)
            × (all (is_operation self.now.b) (parens_in count (drop at s.now)) ≡ true)) }
        ensures { result ≡ any (missing self.now.b self.now.text.now) (called_in self.now.b (parens_in count (drop at s.now))) }
    {
        if count == 0 {
            return false;
        }
        let mut found = seeking::no_labels();
        self.misses_any(s, at, count, &mut found)
    }

    // Whether a go-to is a label that no line declares.
    fn misses_go_to(&self, w: &[u8]) -> bool
        ensures { result ≡ any (missing self.now.b self.now.text.now) (goes_to_of w.now) }
    {
        if w.len() == 0 {
            return false;
        }
        if w == b"DONE".as_slice() {
            return false;
        }
        self.is_missing(w)
    }

    // Whether a label's row is known, and less than a number of rows.
    fn is_again(&self, count: u64, label: &[u8]) -> bool
        ensures { result ≡ known_before self.now.known.now count label.now }
    {
        let row = self.row_of(label);
        (row != 0) & (row < count)
    }

    // Whether a line uses a label that no line declares, or declares one again.
    fn is_mislabelled(&self, s: &[u8], count: u64, c: Scan) -> bool
        requires { (count ≤ 800) × (Placed s.now c
            × (all (is_operation self.now.b) (operations_at s.now c) ≡ true)) }
        ensures { (lines : ℕ) → count ≡ row_count (lines_before self.now.b self.now.text.now lines)
            → result ≡ bad_labels self.now.b (lines_in self.now.b self.now.text.now)
            (lines_before self.now.b self.now.text.now lines) (line_at s.now c) }
    {
        let from = c.from;
        let end = c.label;
        let goes = c.goes;
        let ends = c.ends;
        let calls = self.misses_call(s, c.operation, c.operations);
        let missed = calls | self.misses_go_to(&s[goes..ends]);
        missed | self.is_again(count, &s[from..end])
    }

    // The rows of a line, or its fault.
    fn judge_line(&self, s: &[u8], line: u64, count: u64, lent: u64) -> Result<u64, ReadError>
        requires { count ≤ 800 }
        ensures { (lines : ℕ) → count ≡ row_count (lines_before self.now.b self.now.text.now lines) → told_read result
            ≡ line_judged self.now.b lent (lines_in self.now.b self.now.text.now)
            (lines_before self.now.b self.now.text.now lines) line (read_line self.now.b s.now) }
    {
        let Some(c) = line::scan(self.b, s) else {
            return Err(ReadError::BadLine(line));
        };
        if self.is_mislabelled(s, count, c) {
            return Err(ReadError::BadLabel(line));
        }
        let size = (1 + c.tests + c.operations) as u64;
        if too_long(lent, count, size) {
            return Err(ReadError::TooLong(line));
        }
        Ok(size)
    }

    // The row count of the text, or its refusal with the line of the fault.
    pub fn judge(&self, lent: u64) -> Result<u64, ReadError>
        ensures { told_read result
            ≡ refusal_told (refusal_of self.now.b lent self.now.text.now) (row_count (program self.now.b self.now.text.now)) }
    {
        if self.text.len() == 0 {
            return Err(ReadError::BadLine(1));
        }
        let mut lines = 0;
        let mut count = 1;
        for s in self.text.split_inclusive(|x| *x == b'\n') {
            count += self.judge_line(s, lines + 1, count, lent)?;
            lines += 1;
        }
        Ok(count)
    }
}
