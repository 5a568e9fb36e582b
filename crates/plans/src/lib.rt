// The plan of a step at its place: what it does, or why it is refused.
#![tactic(auto)]

mod places;
pub mod steps;
mod tests;

use machine::{Place, Refusal};
use operations::Action;

// Whether a test holds, and the row of the next one.
#[derive(Clone, Copy)]
pub struct Outcome {
    pub holds: bool,
    pub next: u64,
}

// What a step does: the place to go to and the action there, or why it is refused. An enum, and no Result of a struct: that takes 4 to 8
// in 100 instructions more at each step of a run.
#[derive(Clone, Copy)]
pub enum Step {
    Goes { to: Place, action: Action },
    Stopped(Refusal),
}
