// The commit of a step: an action carried out on lent slices. It cannot fail.
#![tactic(auto)]

pub mod carry;
pub mod leading;
pub mod reports;
pub mod words;

use block::SetUp;
use machine::{Definition, FIELDS, Place, STACK};
use operations::Counts;

// Where an action leads: the set-up numbers, how far stacks, input and output are used, and whether it changes the records or goes
// to a place by the calls.
#[derive(Clone, Copy)]
pub struct Onward {
    pub setup: SetUp,
    pub counts: Counts,
    pub recorded: bool,
}

// The arrays of the core that no slice can lend: the definitions, and the entries of the stacks of definitions and of calls.
#[derive(Clone, Copy)]
pub struct Records {
    pub definitions: [Definition; FIELDS],
    pub saved: [Definition; STACK],
    pub calls: [Place; STACK],
}
