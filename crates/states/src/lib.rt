// What the program comparison stands on: the place in a state's bytes, checksums, the input taken apart, and counts.
#![tactic(auto)]

pub mod checksums;
pub mod counts;
pub mod numbers;

use octets::number_at;

// How many bytes a state has (crate layout).
pub const STATE: usize = 6676;

// The kind of the place, its row and its line.
pub fn kind(state: &[u8; STATE]) -> u64 {
    number_at(state, 0, 1)
}

pub fn row(state: &[u8; STATE]) -> u64 {
    number_at(state, 1, 2)
}

pub fn line(state: &[u8; STATE]) -> u64 {
    number_at(state, 3, 2)
}

// How many bits its words have.
pub fn width(state: &[u8; STATE]) -> u64 {
    number_at(state, 6675, 1)
}
