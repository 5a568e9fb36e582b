// tourcheck over slices: the line that it prints of the bytes of tour.tab, put at the end of a text, last character first.
#![tactic(auto)]

ghost use Rattle.std.specs.Prelude.{◌≡◌, ◌++◌, ◌+◌, ◌≤◌, length};
ghost use Rattle.tour.specs.Tour.{decimal};
ghost use Rattle.tour.specs.Put.{put_before};
ghost use Rattle.diagnosis.specs.Diagnosis.{field_character, no_line_of, finding_line, printed};

use defined::{FieldsError, check_fields};
use table::rows::ALL;
use tour::numbers::read_table;
use tour::text::{put, put_decimal, put_word};

// How many bytes the line has at most.
pub const LINE: usize = 128;

// How many fields there are, as a number of 64 bits, how many of them are digits, and what is added to the name number of a letter.
const FIELDS: u64 = machine::FIELDS as u64;

const DIGITS: u8 = 10;

const BEFORE_LETTERS: u8 = b'A' - DIGITS;

// The character of a field's name.
pub fn field_character(n: u64) -> u8
    ensures { result ≡ field_character n }
{
    let name = (n % FIELDS) as u8;
    if name < DIGITS {
        b'0' + name
    } else {
        BEFORE_LETTERS + name
    }
}

// Words, a row's number, and words up to the line's end.
fn put_row(text: &mut [u8; LINE], head: &[u8], row: u64, tail: &[u8]) -> usize
    requires { length head.now + length tail.now ≤ 100 }
    ensures tail_value { result + length (head.now ++ (decimal row ++ tail.now)) ≡ 128 }
    ensures text_after { text.new
        ≡ put_before 128 (head.now ++ (decimal row ++ tail.now)) text.old }
{
    let end = put_word(text, LINE, tail);
    let number = put_decimal(text, end, row);
    put_word(text, number, head)
}

// The row and the field of a no.
fn put_no(text: &mut [u8; LINE], row: u64, field: u64) -> usize
    ensures field_value { result + length (no_line_of row field) ≡ 128 }
    ensures text_after { text.new ≡ put_before 128 (no_line_of row field) text.old }
{
    let end = put_word(text, LINE, b", which is not defined there\n");
    let name = put(text, end, field_character(field));
    let uses = put_word(text, name, b" uses field ");
    let number = put_decimal(text, uses, row);
    put_word(text, number, b"row ")
}

// What the check found, in words.
fn put_finding(text: &mut [u8; LINE], found: Result<(), FieldsError>) -> usize
    ensures found_value { result + length (finding_line found) ≡ 128 }
    ensures text_after { text.new ≡ put_before 128 (finding_line found) text.old }
{
    let Err(error) = found else {
        return put_word(text, LINE, b"yes\n");
    };
    match error {
        FieldsError::NotDefined { row, field } => put_no(text, row, field),
        FieldsError::NoWidth => put_word(text, LINE, b"refusal 31: words have 36 or 48 bits\n"),
        FieldsError::BadLength => put_word(
            text,
            LINE,
            b"refusal 1: the table has fewer than 20 numbers, more than 8,000, or no multiple of ten\n",
        ),
        FieldsError::IllFormed(row) => put_row(text, b"row ", row, b" is ill-formed\n"),
        FieldsError::WrongKind(row) => put_row(
            text,
            b"refusal 30: row ",
            row,
            b" names a row of the wrong kind, or is row 1 and no line\n",
        ),
    }
}

// Checks the table of a file's bytes, for words of b bits, and puts what tourcheck prints at the end of the text. Returns where it
// starts.
pub fn diagnose(b: u64, tab: &[u8], text: &mut [u8; LINE]) -> usize
    ensures tab_value { result + length (printed b tab.now) ≡ 128 }
    ensures text_after { text.new ≡ put_before 128 (printed b tab.now) text.old }
{
    let mut table = [0u64; ALL];
    let count = read_table(tab, &mut table);
    let found = check_fields(b, &table[..count]);
    put_finding(text, found)
}
