// Operands: references followed over lent slices, what stands where they lead, and stores there.
#![tactic(auto)]

pub mod locations;
pub mod packing;
pub mod references;
pub mod stores;

// A location as a number (Locating): a bug by its letter; a field, from FIELDS on, by its word's address, its right and its left bit,
// each of the two one of PLACES.
pub const FIELDS: u64 = 65536;

pub(crate) const PLACES: u64 = 256;

// A location and what stands there. Of a literal the location is a bug's, since both are whole words.
#[derive(Clone, Copy)]
pub struct Spot {
    pub at: u64,
    pub holds: u64,
}

// What a reference is followed through before it is carried out: the delivery of a block, by its address and size, with the address
// stored at a location.
#[derive(Clone, Copy)]
pub struct Delivery {
    pub address: u64,
    pub size: u64,
    pub at: u64,
}
