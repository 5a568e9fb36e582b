// Tours typed as L6 lines: bytes, words, arguments and the forms of Table II. What a text says, and what is refused, stands in
// specs/.
#![tactic(auto)]

pub mod arguments;
pub mod fitting;
pub mod kinds;
pub mod spots;
mod table_two;
pub mod words;

// The refusals of a text, by the numbers that C is answered: a line that breaks the grammar, a label that is missing or declared
// again, too many rows.
pub const BAD_LINE: u64 = 23;

pub const BAD_LABEL: u64 = 24;

pub const TOO_LONG: u64 = 25;

// Why a text is not read: refusal 31, or the refusals 23, 24 and 25, each with the line of the fault, counted from 1.
#[derive(Clone, Copy, PartialEq, Eq, Debug)]
pub enum ReadError {
    NoWidth,
    BadLine(u64),
    BadLabel(u64),
    TooLong(u64),
}

// A token found at a place of a text: a word and where it ends, or a parenthesis and where it closes.
#[derive(Clone, Copy, PartialEq, Eq, Debug)]
pub enum Spot {
    Word(usize),
    Paren(usize),
}

// What an argument may be in Table II: a word itself, or in the letters of Table I a (and c), d, o, h, cd, co, f, Df, s.
#[derive(Clone, Copy, PartialEq, Eq, Debug)]
pub enum Kind {
    Word(&'static [u8]),
    Field,
    Decimal,
    Octal,
    Hollerith,
    FieldOrDecimal,
    FieldOrOctal,
    Name,
    Definition,
    Symbol,
}

// A form of Table II: its code, what its arguments may be, and which of them, from 0 on, become the row's pairs.
#[derive(Clone, Copy, Debug)]
pub struct Form {
    pub code: u64,
    pub arguments: &'static [Kind],
    pub operands: &'static [usize],
}
