// The table: rows of ten numbers, references, operands and the check. What each means stands in specs/.
#![tactic(auto)]

pub mod check;
pub mod codes;
mod forms;
pub mod references;
pub mod rows;

// A bug's letter: A is 0, Z is 25. It never selects a field's definition.
#[derive(Clone, Copy)]
pub struct BugLetter(pub u64);

// A field's name number: 0 to 9 for the digits, 10 to 35 for A to Z.
#[derive(Clone, Copy)]
pub struct FieldName(pub u8);

// A reference taken apart: its bug, and its field names in fields from place from on.
#[derive(Clone, Copy)]
pub struct Names {
    pub bug: BugLetter,
    pub from: usize,
    pub fields: [FieldName; 5],
}

// A pair of numbers of a row: an operand's form and value.
#[derive(Clone, Copy)]
pub struct Pair {
    pub form: u64,
    pub value: u64,
}

// The ten numbers of a row.
#[derive(Clone, Copy)]
pub struct Row {
    pub kind: u64,
    pub next: u64,
    pub code: u64,
    pub name: u64,
    pub first: Pair,
    pub second: Pair,
    pub third: Pair,
}

// What may stand in a pair; a and c are a Reference, and cd is an Either.
#[derive(Clone, Copy)]
pub enum Operand {
    Absent,
    Literal,
    Reference,
    Either,
    ReferenceOrAbsent,
    ReferenceOrZero,
    Line,
}

// What a code takes: whether it has a name, and its three pairs.
#[derive(Clone, Copy)]
pub struct Shape {
    pub named: bool,
    pub first: Operand,
    pub second: Operand,
    pub third: Operand,
}

// Why the table check is refused: the width is none, or the table's length does not fit.
#[derive(Clone, Copy, PartialEq, Eq, Debug)]
pub enum TableError {
    NoWidth,
    BadLength,
}
