// A state as 6,676 bytes: numbers low byte first, at fixed places. They are a slice of a tested length and no array, as C lends it.
#![tactic(auto)]

pub mod offsets;
pub mod reading;
mod record;
pub mod writing;
