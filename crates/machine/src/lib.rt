// The engine's state, answers and reports: what they mean stands in specs/.
#![tactic(auto)]

// How many bugs and fields there are, entries of a stack, and bytes of a map: one for each word that may be set up.
pub const BUGS: usize = 26;

pub const FIELDS: usize = 36;

pub const STACK: usize = 128;

pub const MAP: usize = block::MOST_WORDS as usize;

// The words of the bugs, the entries of the stack of contents, and the bytes of a map, as they are held and lent.
pub type BugWords = [u64; BUGS];

pub type Entries = [u64; STACK];

pub type MapBytes = [u8; MAP];

// The last row that a place may name.
pub const LAST_ROW: u16 = 799;

// The last word of a block that a definition may name.
pub const LAST_WORD: u8 = 127;

// How many characters a print writes at most.
pub const PRINTED: u64 = 120;

// Why a step is refused: document 01's refusals 1 to 21, in its order, then refusal 22 of ticket 1 and 31 of ticket 9.
#[derive(Clone, Copy)]
pub enum Refusal {
    TableLength,
    BadRow,
    SetUpNumbers,
    InputByte,
    InputShort,
    NotADigit,
    DefinitionNumber,
    BlockSize,
    ZeroDivisor,
    CharacterCount,
    Unsound,
    BeforeSetUp,
    SecondSetUp,
    UndefinedField,
    NotABlock,
    OutsideBlock,
    NoRun,
    FieldFreed,
    StackFull,
    StackEmpty,
    OutputFull,
    SubtrahendGreater,
    NoWidth,
}

// What a step or run answers. No Result: these three are document 01's answers, as Demand 1 has them, and none is passed on by `?`.
#[derive(Clone, Copy)]
pub enum Answer {
    Running,
    Finished,
    Refused(Refusal),
}

// Kinds of places: at the tests of a line, at an operation of a line, at a line's exit, finished.
pub const AT_TESTS: u8 = 0;

pub const AT_OPERATION: u8 = 1;

pub const AT_EXIT: u8 = 2;

pub const FINISHED: u8 = 3;

// Where the engine stands. Its kind is a number and no enum, since a state that C lends holds any byte there (layout's state_of).
#[derive(Clone, Copy)]
pub struct Place {
    pub kind: u8,
    pub row: u16,
    pub line: u16,
}

// A field's definition, or that it is undefined. A flag and no Option: a state that C lends has numbers beside a 0 too (state_of).
#[derive(Clone, Copy)]
pub struct Definition {
    pub defined: bool,
    pub word: u8,
    pub left: u8,
    pub right: u8,
}

// A stack: the first count entries are used. No Vec: there is no heap, and all entries are bytes of the state that C lends.
#[derive(Clone, Copy)]
pub struct Stack<T> {
    pub entries: [T; STACK],
    pub count: usize,
}

// All of the state but the block map.
#[derive(Clone, Copy)]
pub struct Core {
    pub place: Place,
    pub bugs: BugWords,
    pub definitions: [Definition; FIELDS],
    pub contents: Stack<u64>,
    pub saved: Stack<Definition>,
    pub calls: Stack<Place>,
    pub setup: block::SetUp,
    pub taken: usize,
    pub written: usize,
}

// The words of its engine have width bits.
#[derive(Clone, Copy)]
pub struct State {
    pub width: u8,
    pub core: Core,
    pub map: MapBytes,
}

// Where a reference leads: a bug, or bits left to right of the word at an address. Code has it as a number (operands::FIELDS).
#[derive(Clone, Copy)]
pub enum Location {
    Bug(table::BugLetter),
    Field { address: u64, left: u64, right: u64 },
}

// A store into storage, all zero where there is none, and no Option: C is handed these numbers, and Demand 3 speaks of them.
#[derive(Clone, Copy)]
pub struct Store {
    pub address: u64,
    pub left: u8,
    pub right: u8,
    pub bits: u64,
}

// What a step reports, each zero where there is none.
#[derive(Clone, Copy)]
pub struct Report {
    pub freed: u64,
    pub delivered: u64,
    pub size: u64,
    pub copied: u64,
    pub first: Store,
    pub second: Store,
}

// What a step returns.
#[derive(Clone, Copy)]
pub struct Stepped {
    pub state: State,
    pub answer: Answer,
    pub report: Report,
}

// What a run returns.
#[derive(Clone, Copy)]
pub struct Ran {
    pub state: State,
    pub answer: Answer,
    pub count: u64,
}

// Why no fresh engine is made: its width is none (refusal 31).
#[derive(Clone, Copy, PartialEq, Eq, Debug)]
pub struct NoWidth;

// A fresh engine's state, and that it is made. Where it is not, it is one that every call refuses: refusal 31.
#[derive(Clone, Copy)]
pub struct Fresh {
    pub state: State,
    pub answer: Result<(), NoWidth>,
}

// Why an extension is refused: refusals 31, 11, 12, and 32 of ticket 11.
#[derive(Clone, Copy, PartialEq, Eq, Debug)]
pub enum ExtensionError {
    NoWidth,
    Unsound,
    BeforeSetUp,
    LastAddress,
}

// What an extension returns.
#[derive(Clone, Copy)]
pub struct Extended {
    pub state: State,
    pub answer: Result<(), ExtensionError>,
}
