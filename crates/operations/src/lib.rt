// The operations: what each plans, an action or its refusal. A plan is made over lent slices and changes nothing.
#![tactic(auto)]

pub mod actions;
mod blocks;
pub mod codes;
pub mod places;
mod values;

use block::SetUp;
use machine::Definition;
use table::FieldName;

// How far the stacks, the input and the output are used.
#[derive(Clone, Copy)]
pub struct Counts {
    pub contents: usize,
    pub saved: usize,
    pub calls: usize,
    pub taken: usize,
    pub written: usize,
}

// What a plan knows besides what it is lent: the bits of a word, the set-up numbers, how far stacks, input and output are used, how
// long the output is, and whether the table is judged well-formed.
#[derive(Clone, Copy)]
pub struct Known {
    pub b: u64,
    pub setup: SetUp,
    pub counts: Counts,
    pub room: usize,
    pub judged: bool,
}

// What a step does besides going to a place. Locations are numbers (operands::FIELDS); what an action means is a deed (Deeds).
#[derive(Clone, Copy)]
pub enum Action {
    Nothing,
    // a value stored at a location, and two stores one after the other
    Store {
        at: u64,
        value: u64,
    },
    StoreTwo {
        at: u64,
        value: u64,
        then_at: u64,
        then_value: u64,
    },
    SetUpWords(SetUp),
    Define {
        field: FieldName,
        definition: Definition,
    },
    // a block by its address, size and the address that it is a copy of (0: none), its address stored at a location
    Deliver {
        address: u64,
        size: u64,
        copied: u64,
        at: u64,
    },
    // the same without a copy, and then a second store
    DeliverTwo {
        address: u64,
        size: u64,
        at: u64,
        then_at: u64,
        then_value: u64,
    },
    // the block at an address, and a store
    Free {
        address: u64,
        at: u64,
        value: u64,
    },
    // a store of what so many characters give
    Input {
        at: u64,
        value: u64,
        taken: u64,
    },
    // so many characters, of a value so wide
    Print {
        count: u64,
        width: u64,
        value: u64,
    },
    Save(u64),
    // a store of the newest saved value
    Restore {
        at: u64,
        value: u64,
    },
    SaveDefinition(FieldName),
    RestoreDefinition(FieldName),
    Call(u64),
    Return,
}

// An aligned run by its address and size.
#[derive(Clone, Copy)]
pub struct Run {
    pub address: u64,
    pub size: u64,
}
