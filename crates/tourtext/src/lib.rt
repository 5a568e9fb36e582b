// tourread over slices: what it writes and prints of the bytes that it reads.
#![tactic(auto)]

ghost use Rattle.std.specs.Prelude.{◌≡◌, ◌++◌, ◌+◌, ◌*◌, ◌≤◌, length, take, drop};
ghost use Rattle.tour.specs.Put.{put_before};
ghost use Rattle.tourtext.specs.Translation.{filed, meaning, fault_line, width_line, refusal_line, file_of, printed_of};

use lines::{BAD_LABEL, BAD_LINE, ReadError, TOO_LONG};
use octets::put_number;
use table::rows::ALL;
use tour::numbers::BYTES;
use tour::text::{BLANK, NEWLINE, put, put_decimal, put_word};
use typed::read;

// How many bytes the printed line has at most.
pub const LINE: usize = 128;

// How many bytes tour.tab has, and where in the buffer the printed line starts.
#[derive(Clone, Copy)]
pub struct Translated {
    pub bytes: usize,
    pub start: usize,
}

// The numbers of a table as bytes.
fn put_table(table: &[u64], tab: &mut [u8])
    requires { 8 * length table.now ≤ length tab.old }
    ensures { tab.new ≡ filed table.now ++ drop (8 * length table.now) tab.old }
{
    for i in 0..table.len() {
        put_number(tab, 8 * i, 8, table[i]);
    }
}

// What a refusal means.
fn put_meaning(text: &mut [u8], at: usize, number: u64) -> usize
    requires { (80 ≤ at) × (at ≤ length text.old) }
    ensures number_value { result + length (meaning number) ≡ at }
    ensures text_after { text.new ≡ put_before at (meaning number) text.old }
    ensures at_bound { at ≤ result + 80 }
{
    if number == BAD_LINE {
        return put_word(text, at, b"this line breaks the grammar");
    }
    if number == BAD_LABEL {
        return put_word(
            text,
            at,
            b"a label that this line uses is missing, or its own is declared again",
        );
    }
    put_word(text, at, b"with this line the table has too many rows")
}

// The line of a fault, at the end of the text.
fn put_fault(text: &mut [u8], number: u64, line: u64) -> usize
    requires { 128 ≤ length text.old }
    ensures line_value { result + length (fault_line number line) ≡ length text.old }
    ensures text_after { text.new ≡ put_before (length text.old) (fault_line number line) text.old }
{
    let all = text.len();
    let end = put(text, all, NEWLINE);
    let words = put_meaning(text, end, number);
    let between = put(text, words, BLANK);
    let refusal = put_decimal(text, between, number);
    let before = put(text, refusal, BLANK);
    put_decimal(text, before, line)
}

// The bytes of a table of so many rows.
fn put_rows(table: &[u64], tab: &mut [u8; BYTES], rows: u64) -> Translated
    requires { (rows ≤ 800) × (length table.now ≡ 8000) }
    ensures bytes_value { (result.bytes ≡ 80 * rows) × (result.start ≡ 128) }
    ensures tab_after { tab.new ≡ filed (take (10 * rows) table.now) ++ drop (80 * rows) tab.old }
    ensures within { result.bytes ≤ length tab.new }
{
    let count = (10 * rows) as usize;
    put_table(&table[..count], tab);
    Translated {
        bytes: 8 * count,
        start: LINE,
    }
}

// Nothing for the file, and a line to print.
fn fault(printed: &mut [u8; LINE], number: u64, line: u64) -> Translated
    ensures bytes_value { (result.bytes ≡ 0) × (result.start + length (fault_line number line) ≡ 128) }
    ensures printed_after { printed.new ≡ put_before 128 (fault_line number line) printed.old }
{
    let start = put_fault(printed, number, line);
    Translated { bytes: 0, start }
}

// Nothing for the file, and that the width is none.
fn no_width(printed: &mut [u8; LINE]) -> Translated
    ensures bytes_value { (result.bytes ≡ 0) × (result.start + length width_line ≡ 128) }
    ensures printed_after { printed.new ≡ put_before 128 width_line printed.old }
{
    let start = put_word(printed, LINE, b"31 words have 36 or 48 bits\n");
    Translated { bytes: 0, start }
}

// Nothing for the file, and why the text is not read.
fn refused(printed: &mut [u8; LINE], error: ReadError) -> Translated
    ensures bytes_value { (result.bytes ≡ 0) × (result.start + length (refusal_line error) ≡ 128) }
    ensures printed_after { printed.new ≡ put_before 128 (refusal_line error) printed.old }
{
    match error {
        ReadError::NoWidth => no_width(printed),
        ReadError::BadLine(line) => fault(printed, BAD_LINE, line),
        ReadError::BadLabel(line) => fault(printed, BAD_LABEL, line),
        ReadError::TooLong(line) => fault(printed, TOO_LONG, line),
    }
}

// Reads a text for words of b bits: the bytes of tour.tab at the start of tab, and what is printed at the end of printed.
pub fn translate(b: u64, text: &[u8], tab: &mut [u8; BYTES], printed: &mut [u8; LINE]) -> Translated
    ensures bytes_value { (result.bytes ≡ length (file_of b text.now))
        × (result.start + length (printed_of b text.now) ≡ 128) }
    ensures tab_after { tab.new ≡ file_of b text.now ++ drop (length (file_of b text.now))
        tab.old }
    ensures printed_after { printed.new ≡ put_before 128 (printed_of b text.now) printed.old }
    ensures within { result.bytes ≤ length tab.new }
{
    let mut table = [0u64; ALL];
    match read(b, text, &mut table) {
        Ok(rows) => put_rows(&table, tab, rows),
        Err(error) => refused(printed, error),
    }
}
