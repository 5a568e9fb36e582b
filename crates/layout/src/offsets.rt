// Where the parts of a state begin in its bytes, and how many bytes there are.

// The place, and how much is taken and written.
pub const PLACE: usize = 0;

pub const TAKEN: usize = 5;

pub const WRITTEN: usize = 13;

// The set-up's numbers.
pub const LARGEST: usize = 21;

pub const FIRST: usize = 23;

pub const LAST: usize = 25;

// The stacks' counts.
pub const CONTENTS_COUNT: usize = 27;

pub const SAVED_COUNT: usize = 35;

pub const CALLS_COUNT: usize = 43;

// The bugs, the saved contents, the fields' definitions, the saved ones, the calls.
pub const BUGS: usize = 51;

pub const CONTENTS: usize = 259;

pub const DEFINITIONS: usize = 1283;

pub const SAVED: usize = 1427;

pub const CALLS: usize = 1939;

// The map, and the width after it.
pub const MAP: usize = 2579;

pub const WIDTH: usize = 6675;

// The bytes of a state, and of a place and a definition in it.
pub const STATE_BYTES: usize = 6676;

pub const PLACE_BYTES: usize = 5;

pub const DEFINITION_BYTES: usize = 4;
