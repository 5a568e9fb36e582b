// The buddy allocator on a block map. What its functions give stands in the crate block, and in specs/ what those inside it give.
#![tactic(auto)]

pub mod extension;
pub mod fresh;
pub mod section;
pub mod setup;
pub mod sizes;
mod tree;
