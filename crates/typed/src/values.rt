// The values of arguments.
ghost use Rattle.std.specs.Prelude.{◌≡◌, true, false, cond, ◌-◌, ◌^◌, ◌≤◌, ◌<◌};
ghost use Rattle.character.specs.Character.{code_of};
ghost use Rattle.lines.specs.Words.{name_number, last_byte_of, is_label, is_field, is_kind, field_pair, literal_pair, pair_of};
ghost use Rattle.lines.specs.Walking.{kind_of};
ghost use Rattle.typed.specs.Values.{base_of, digit_as, value_from};
ghost use Rattle.lines.specs.Program.{row_count};
ghost use Rattle.faults.specs.Places.{lines_in};

use faults::names::Labels;
use lines::{Kind, kinds};
use table::{Pair, codes};

// The name numbers of A, J and S, at which the six-bit codes leave a gap.
const A: u64 = 10;

const J: u64 = 19;

const S: u64 = 28;

// What is added to a name number from each of them on.
const FROM_A: u64 = 0o21 - A;

const FROM_J: u64 = 0o41 - J;

const FROM_S: u64 = 0o62 - S;

// The bytes of 0, of 9 and of the period, and what is taken from the byte of a letter.
const ZERO: u64 = b'0' as u64;

const NINE: u64 = b'9' as u64;

const PERIOD: u64 = b'.' as u64;

const BEFORE_LETTERS: u64 = b'A' as u64 - A;

// The name number of a byte.
pub fn name_number(x: u64) -> u64
    ensures { (result ≡ name_number x) × (result ≤ x) }
{
    if (ZERO <= x) & (x <= NINE) {
        x - ZERO
    } else {
        x.saturating_sub(BEFORE_LETTERS)
    }
}

// The six-bit code of a name number.
fn code_of(n: u64) -> u64
    requires { n < 1000 }
    ensures { result ≡ code_of n }
{
    if n < A {
        return n;
    }
    if n < J {
        return n + FROM_A;
    }
    if n < S {
        return n + FROM_J;
    }
    n + FROM_S
}

// The digit of a byte in a word of a kind.
fn digit_as(kind: Kind, x: u8) -> u64
    ensures { result ≡ digit_as kind x }
{
    let n = u64::from(x);
    match kind {
        Kind::Field => name_number(n) + 1,
        Kind::Hollerith if n == PERIOD => 0o33,
        Kind::Hollerith => code_of(name_number(n)),
        _ => n.saturating_sub(ZERO),
    }
}

// The base of a kind.
#[tactic(auto, unfolding(crate::specs::Values::base_of))]
fn base_of(kind: Kind) -> u64
    ensures { result ≡ base_of kind }
{
    match kind {
        Kind::Decimal => 10,
        Kind::Octal => 8,
        _ => 64,
    }
}

// The value of bytes after those that make a number.
pub fn value_from(kind: Kind, before: u64, w: &[u8]) -> u64
    requires { value_from kind before w.now < 2 ^ 48 }
    ensures { result ≡ value_from kind before w.now }
{
    let base = base_of(kind);
    let mut v = before;
    for x in w {
        v = v * base + digit_as(kind, *x);
    }
    v
}

// The last byte of a word, 0 where there is none. The definition has that 0.
pub fn last_byte(w: &[u8]) -> u8
    ensures { result ≡ last_byte_of w.now }
{
    w.last().copied().unwrap_or(0)
}

// A pair with the value of a word.
fn valued(form: u64, kind: Kind, w: &[u8]) -> Pair
    requires { value_from kind 0 w.now < 2 ^ 48 }
    ensures { (result.form ≡ form) × (result.value ≡ value_from kind 0 w.now) }
{
    let value = value_from(kind, 0, w);
    Pair { form, value }
}

// The pair of a field designator or a literal.
fn either(kind: Kind, w: &[u8]) -> Pair
    requires { is_field w.now ≡ false → value_from kind 0 w.now < 2 ^ 48 }
    ensures { result ≡ cond (is_field w.now) (field_pair w.now)
        (literal_pair (value_from kind 0 w.now)) }
{
    if kinds::is_field(w) {
        valued(codes::REFERENCE, Kind::Field, w)
    } else {
        valued(codes::LITERAL, kind, w)
    }
}

// A pair without a value.
fn plain(form: u64) -> Pair
    ensures { (result.form ≡ form) × (result.value ≡ 0) }
{
    Pair { form, value: 0 }
}

// A text without a refusal, and its labels.
#[derive(Clone, Copy)]
pub struct Ready<'a> {
    pub labels: Labels<'a>,
    pub ghost few: { row_count (lines_in labels.b labels.text.now) ≤ 800 },
}

impl Ready<'_> {
    ghost use Rattle.typed.specs.Looking.{row_at};

    // The pair of a label: its row.
    fn labelled(&self, w: &[u8]) -> Pair
        requires { is_label w.now ≡ true }
        ensures { result ≡ literal_pair (row_at self.now w.now) }
    {
        let value = self.labels.row_of(w);
        Pair {
            form: codes::LITERAL,
            value,
        }
    }

    // The pair that an argument of a kind becomes.
    pub fn pair_of(&self, kind: Kind, w: &[u8]) -> Pair
        requires { is_kind self.now.labels.b (kind_of kind) w.now ≡ true }
        ensures { result ≡ pair_of (row_at self.now) (kind_of kind) w.now }
    {
        match kind {
            Kind::Word(_) => plain(codes::LITERAL),
            Kind::Field => valued(codes::REFERENCE, Kind::Field, w),
            Kind::Decimal => valued(codes::LITERAL, Kind::Decimal, w),
            Kind::Octal => valued(codes::LITERAL, Kind::Octal, w),
            Kind::Hollerith => valued(codes::LITERAL, Kind::Hollerith, w),
            Kind::FieldOrDecimal => either(Kind::Decimal, w),
            Kind::FieldOrOctal => either(Kind::Octal, w),
            Kind::Name => plain(codes::ABSENT),
            Kind::Definition => plain(codes::ABSENT),
            Kind::Symbol => self.labelled(w),
        }
    }
}
