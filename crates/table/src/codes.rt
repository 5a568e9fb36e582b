// The numbers that stand in rows: kinds, modes, forms and codes, by document 01's names. Numbers, and no enums: rows are what C lends,
// and the definitions (`shape_of`, `compared`, `value_by`) go by the paper's numbers.

// Kinds of rows.
pub const LINE: u64 = 1;

pub const TEST: u64 = 2;

pub const OPERATION: u64 = 3;

// Modes of a line.
pub const THEN: u64 = 0;

pub const IFALL: u64 = 1;

pub const IFANY: u64 = 2;

pub const IFNONE: u64 = 3;

pub const IFNALL: u64 = 4;

// The go-to that names no row.
pub const DONE: u64 = 65535;

// Forms of a pair.
pub const ABSENT: u64 = 0;

pub const LITERAL: u64 = 1;

pub const REFERENCE: u64 = 2;

// Codes of tests; the last two ask for ones, or for zeros, wherever cd has ones.
pub const EQUAL: u64 = 1;

pub const UNEQUAL: u64 = 2;

pub const GREATER: u64 = 3;

pub const LESS: u64 = 4;

pub const SAME_POINTER: u64 = 5;

pub const ONES: u64 = 6;

pub const ZEROS: u64 = 7;

// Codes of operations.
pub const SET_UP: u64 = 1;

pub const DEFINE: u64 = 2;

pub const GET: u64 = 3;

pub const FREE: u64 = 4;

pub const DUPLICATE: u64 = 5;

pub const COPY: u64 = 6;

pub const INTERCHANGE: u64 = 7;

pub const ADD: u64 = 8;

pub const SUBTRACT: u64 = 9;

pub const MULTIPLY: u64 = 10;

pub const DIVIDE: u64 = 11;

pub const OR: u64 = 12;

pub const AND: u64 = 13;

pub const EXCLUSIVE_OR: u64 = 14;

pub const COMPLEMENT: u64 = 15;

pub const COUNT_ONES: u64 = 16;

pub const COUNT_ZEROS: u64 = 17;

pub const LEFTMOST_ONE: u64 = 18;

pub const RIGHTMOST_ONE: u64 = 19;

pub const LEFTMOST_ZERO: u64 = 20;

pub const RIGHTMOST_ZERO: u64 = 21;

pub const LEFT_SHIFT: u64 = 22;

pub const RIGHT_SHIFT: u64 = 23;

pub const INPUT: u64 = 24;

pub const PRINT: u64 = 25;

pub const BLANKS_TO_ZEROS: u64 = 26;

pub const DECIMAL_TO_BINARY: u64 = 27;

pub const OCTAL_TO_BINARY: u64 = 28;

pub const BINARY_TO_DECIMAL: u64 = 29;

pub const BINARY_TO_OCTAL: u64 = 30;

pub const ZEROS_TO_BLANKS: u64 = 31;

pub const SAVE: u64 = 32;

pub const RESTORE: u64 = 33;

pub const SAVE_DEFINITION: u64 = 34;

pub const RESTORE_DEFINITION: u64 = 35;

pub const DO: u64 = 36;
