// The last address that may be set up, how many words at most, and the level of the largest size.
#![tactic(auto)]

pub const LAST_ADDRESS: u64 = 32767;

pub const MOST_WORDS: u64 = 4096;

pub const TOP: u8 = 7;

// The numbers of a set-up: the largest size, and the first and last address. All zero: no set-up yet. What they mean stands in
// specs/.
#[derive(Clone, Copy)]
pub struct SetUp {
    pub d: u16,
    pub s1: u16,
    pub s2: u16,
}
