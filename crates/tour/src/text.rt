// The two lines that tourrun prints, put before a place of a buffer, last character first. Each function returns where it starts.
// No Display: there is no heap, and the contracts have the bytes, here and in the crates above that print so.
ghost use Rattle.std.specs.Prelude.{◌≡◌, ◌∷◌, [], ◌+◌, ◌-◌, ◌*◌, ◌/◌, ◌%◌, ◌≤◌, ◌<◌, length};
ghost use Rattle.tour.specs.Tour.{codes_line, octals, decimal, digits_within, answer_text, last_line, lines};
ghost use Rattle.tour.specs.Put.{put_before};

use engine::answers::refusal_number;
use machine::Answer;

pub const NEWLINE: u8 = b'\n';

pub const BLANK: u8 = b' ';

// A character.
pub fn put(text: &mut [u8], at: usize, character: u8) -> usize
    requires { (0 < at) × (at ≤ length text.old) }
    ensures result_value { result + 1 ≡ at }
    ensures text_after { text.new ≡ put_before at (character ∷ []) text.old }
{
    let place = at - 1;
    text[place] = character;
    place
}

// A word.
pub fn put_word(text: &mut [u8], at: usize, word: &[u8]) -> usize
    requires { (length word.now ≤ at) × (at ≤ length text.old) }
    ensures word_value { result + length word.now ≡ at }
    ensures text_after { text.new ≡ put_before at word.now text.old }
{
    let place = at - word.len();
    text[place..at].copy_from_slice(word);
    place
}

// The decimal digits of a number.
fn put_digits(text: &mut [u8], at: usize, n: u64) -> usize
    requires { (length (digits_within n n) ≤ at) × (at ≤ length text.old) }
    ensures n_value { result + length (digits_within n n) ≡ at }
    ensures text_after { text.new ≡ put_before at (digits_within n n) text.old }
{
    let mut place = at;
    let mut rest = n;
    while rest > 0 {
        place = put(text, place, b'0' + (rest % 10) as u8);
        rest /= 10;
    }
    place
}

// A number in decimal.
pub fn put_decimal(text: &mut [u8], at: usize, n: u64) -> usize
    requires { (length (decimal n) ≤ at) × (at ≤ length text.old) }
    ensures n_value { result + length (decimal n) ≡ at }
    ensures text_after { text.new ≡ put_before at (decimal n) text.old }
{
    if n == 0 {
        return put(text, at, b'0');
    }
    put_digits(text, at, n)
}

// A code in two octal digits, and the character after it.
fn put_code(text: &mut [u8], at: usize, code: u8, after: u8) -> usize
    requires { (3 ≤ at) × (at ≤ length text.old) }
    ensures result_value { result + 3 ≡ at }
    ensures text_after { text.new ≡ put_before at ((48 + code / 8 % 8) ∷ (48 + code % 8) ∷ after ∷ []) text.old }
{
    let end = put(text, at, after);
    let low = put(text, end, b'0' + code % 8);
    put(text, low, b'0' + code / 8 % 8)
}

// Codes, a blank after each but the last, and the line's end after that.
fn put_codes(text: &mut [u8], at: usize, codes: &[u8]) -> usize
    requires { (3 * length codes.now ≤ at) × (at ≤ length text.old) }
    ensures codes_value { result + length (octals codes.now) ≡ at }
    ensures text_after { text.new ≡ put_before at (octals codes.now) text.old }
{
    let mut place = at;
    let mut after = NEWLINE;
    for left in (0..codes.len()).rev() {
        place = put_code(text, place, codes[left], after);
        after = BLANK;
    }
    place
}

// The line of the codes.
fn put_codes_line(text: &mut [u8], at: usize, codes: &[u8]) -> usize
    requires { (3 * length codes.now + 1 ≤ at) × (at ≤ length text.old) }
    ensures codes_value { result + length (codes_line codes.now) ≡ at }
    ensures text_after { text.new ≡ put_before at (codes_line codes.now) text.old }
{
    if codes.len() == 0 {
        return put(text, at, NEWLINE);
    }
    put_codes(text, at, codes)
}

// The answer: a word, or the number of the refusal.
fn put_answer(text: &mut [u8], at: usize, answer: Answer) -> usize
    requires { (20 ≤ at) × (at ≤ length text.old) }
    ensures answer_value { result + length (answer_text answer) ≡ at }
    ensures text_after { text.new ≡ put_before at (answer_text answer) text.old }
    ensures at_bound { at ≤ result + 20 }
{
    match answer {
        Answer::Running => put_word(text, at, b"running"),
        Answer::Finished => put_word(text, at, b"finished"),
        Answer::Refused(r) => put_decimal(text, at, refusal_number(r)),
    }
}

// The last line.
fn put_last_line(text: &mut [u8], at: usize, answer: Answer, count: u64) -> usize
    requires { (42 ≤ at) × (at ≤ length text.old) }
    ensures count_value { result + length (last_line answer count) ≡ at }
    ensures text_after { text.new ≡ put_before at (last_line answer count) text.old }
    ensures at_bound { at ≤ result + 42 }
{
    let end = put(text, at, NEWLINE);
    let number = put_decimal(text, end, count);
    let between = put(text, number, BLANK);
    put_answer(text, between, answer)
}

// Both lines, at the end of the text.
pub fn put_lines(text: &mut [u8], codes: &[u8], answer: Answer, count: u64) -> usize
    requires { 3 * length codes.now + 43 ≤ length text.old }
    ensures count_value { result + length (lines codes.now answer count) ≡ length text.old }
    ensures text_after { text.new ≡ put_before (length text.old) (lines codes.now answer count)
        text.old }
{
    let last = put_last_line(text, text.len(), answer, count);
    put_codes_line(text, last, codes)
}
