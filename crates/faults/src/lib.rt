// Typed lines: a line read, the labels of a text, and its refusal.
#![tactic(auto)]

pub mod judging;
pub mod labels;
pub mod line;
pub mod names;
pub mod seeking;

// The places of a line's parts: where its label begins and ends, its mode, where its tests and its operations begin and how many
// they are, and where its go-to begins and ends.
#[derive(Clone, Copy)]
pub struct Scan {
    pub from: usize,
    pub label: usize,
    pub mode: u64,
    pub test: usize,
    pub tests: usize,
    pub operation: usize,
    pub operations: usize,
    pub goes: usize,
    pub ends: usize,
}

// How far a line is read.
#[derive(Clone, Copy)]
pub enum Walk {
    Start,
    Broken,
    Mode(Scan),
    Tests(Scan),
    Then(Scan),
    Operations(Scan),
    End(Scan),
}

// A label that is known: its number, and the row of its line.
#[derive(Clone, Copy)]
pub struct Label {
    pub key: u64,
    pub row: u64,
}

// How many labels are put by, and the rows of the line that was looked at.
#[derive(Clone, Copy)]
pub struct Noted {
    pub count: usize,
    pub size: u64,
}
