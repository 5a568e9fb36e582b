// The forms of tests and operations: Table II.
ghost use Rattle.std.specs.Prelude.{◌≡◌, map};
ghost use Rattle.lines.specs.Walking.{forms_of, as_form};

use crate::Form;
use crate::Kind::{
    Decimal, Definition, Field, FieldOrDecimal, FieldOrOctal, Hollerith, Name, Octal, Symbol, Word,
};
use table::codes;

// A form in a line: its code, what each argument may be, and which of them, from 0 on, become the row's pairs.
macro_rules! form {
    ($code:ident: $($kind:expr),+ => $($operand:expr),*) => {
        Form { code: codes::$code, arguments: &[$($kind),+], operands: &[$($operand),*] }
    };
}

// I. Tests.
static TESTS: [Form; 19] = [
    form!(EQUAL: Field, Word(b"E"), FieldOrDecimal => 0, 2),
    form!(EQUAL: Field, Word(b"EO"), Octal => 0, 2),
    form!(EQUAL: Field, Word(b"EH"), Hollerith => 0, 2),
    form!(UNEQUAL: Field, Word(b"N"), FieldOrDecimal => 0, 2),
    form!(UNEQUAL: Field, Word(b"NO"), Octal => 0, 2),
    form!(UNEQUAL: Field, Word(b"NH"), Hollerith => 0, 2),
    form!(GREATER: Field, Word(b"G"), FieldOrDecimal => 0, 2),
    form!(GREATER: Field, Word(b"GO"), Octal => 0, 2),
    form!(GREATER: Field, Word(b"GH"), Hollerith => 0, 2),
    form!(LESS: Field, Word(b"L"), FieldOrDecimal => 0, 2),
    form!(LESS: Field, Word(b"LO"), Octal => 0, 2),
    form!(LESS: Field, Word(b"LH"), Hollerith => 0, 2),
    form!(SAME_POINTER: Field, Word(b"P"), Field => 0, 2),
    form!(ONES: Field, Word(b"O"), FieldOrOctal => 0, 2),
    form!(ONES: Field, Word(b"OD"), Decimal => 0, 2),
    form!(ONES: Field, Word(b"OH"), Hollerith => 0, 2),
    form!(ZEROS: Field, Word(b"Z"), FieldOrOctal => 0, 2),
    form!(ZEROS: Field, Word(b"ZD"), Decimal => 0, 2),
    form!(ZEROS: Field, Word(b"ZH"), Hollerith => 0, 2),
];

// II. Operations.
static OPERATIONS: [Form; 58] = [
    form!(SET_UP: Decimal, Word(b"SS"), Decimal, Decimal => 2, 0, 3),
    form!(DEFINE: FieldOrDecimal, Definition, FieldOrDecimal, FieldOrDecimal => 0, 2, 3),
    form!(GET: Field, Word(b"GT"), FieldOrDecimal => 0, 2),
    form!(GET: Field, Word(b"GT"), FieldOrDecimal, Field => 0, 2, 3),
    form!(FREE: Field, Word(b"FR"), Word(b"0") => 0, 2),
    form!(FREE: Field, Word(b"FR"), Field => 0, 2),
    form!(DUPLICATE: Field, Word(b"DP"), Field => 0, 2),
    form!(INTERCHANGE: Field, Word(b"IC"), Field => 0, 2),
    form!(COPY: Field, Word(b"P"), Field => 0, 2),
    form!(LEFT_SHIFT: Field, Word(b"L"), FieldOrDecimal => 0, 2),
    form!(RIGHT_SHIFT: Field, Word(b"R"), FieldOrDecimal => 0, 2),
    form!(LEFTMOST_ONE: Field, Word(b"LO"), Field => 0, 2),
    form!(LEFTMOST_ZERO: Field, Word(b"LZ"), Field => 0, 2),
    form!(RIGHTMOST_ONE: Field, Word(b"RO"), Field => 0, 2),
    form!(RIGHTMOST_ZERO: Field, Word(b"RZ"), Field => 0, 2),
    form!(COUNT_ONES: Field, Word(b"OS"), Field => 0, 2),
    form!(COUNT_ZEROS: Field, Word(b"ZS"), Field => 0, 2),
    form!(INPUT: Field, Word(b"IN"), FieldOrDecimal => 0, 2),
    form!(PRINT: FieldOrDecimal, Word(b"PR"), FieldOrOctal => 0, 2),
    form!(PRINT: FieldOrDecimal, Word(b"PRH"), Hollerith => 0, 2),
    form!(BLANKS_TO_ZEROS: Field, Word(b"BZ"), Field => 0, 2),
    form!(ZEROS_TO_BLANKS: Field, Word(b"ZB"), Field => 0, 2),
    form!(BINARY_TO_DECIMAL: Field, Word(b"BD"), Field => 0, 2),
    form!(BINARY_TO_OCTAL: Field, Word(b"BO"), Field => 0, 2),
    form!(DECIMAL_TO_BINARY: Field, Word(b"DB"), Field => 0, 2),
    form!(OCTAL_TO_BINARY: Field, Word(b"OB"), Field => 0, 2),
    form!(SAVE: Word(b"S"), Word(b"FC"), Field => 2),
    form!(RESTORE: Word(b"R"), Word(b"FC"), Field => 2),
    form!(SAVE_DEFINITION: Word(b"S"), Word(b"FD"), Name =>),
    form!(RESTORE_DEFINITION: Word(b"R"), Word(b"FD"), Name =>),
    form!(DO: Word(b"DO"), Symbol => 1),
    form!(COPY: Field, Word(b"E"), FieldOrDecimal => 0, 2),
    form!(COPY: Field, Word(b"EO"), Octal => 0, 2),
    form!(COPY: Field, Word(b"EH"), Hollerith => 0, 2),
    form!(ADD: Field, Word(b"A"), FieldOrDecimal => 0, 2),
    form!(ADD: Field, Word(b"AO"), Octal => 0, 2),
    form!(ADD: Field, Word(b"AH"), Hollerith => 0, 2),
    form!(SUBTRACT: Field, Word(b"S"), FieldOrDecimal => 0, 2),
    form!(SUBTRACT: Field, Word(b"SO"), Octal => 0, 2),
    form!(SUBTRACT: Field, Word(b"SH"), Hollerith => 0, 2),
    form!(MULTIPLY: Field, Word(b"M"), FieldOrDecimal => 0, 2),
    form!(MULTIPLY: Field, Word(b"MO"), Octal => 0, 2),
    form!(MULTIPLY: Field, Word(b"MH"), Hollerith => 0, 2),
    form!(DIVIDE: Field, Word(b"V"), FieldOrDecimal => 0, 2),
    form!(DIVIDE: Field, Word(b"VO"), Octal => 0, 2),
    form!(DIVIDE: Field, Word(b"VH"), Hollerith => 0, 2),
    form!(OR: Field, Word(b"O"), FieldOrOctal => 0, 2),
    form!(OR: Field, Word(b"OD"), Decimal => 0, 2),
    form!(OR: Field, Word(b"OH"), Hollerith => 0, 2),
    form!(AND: Field, Word(b"N"), FieldOrOctal => 0, 2),
    form!(AND: Field, Word(b"ND"), Decimal => 0, 2),
    form!(AND: Field, Word(b"NH"), Hollerith => 0, 2),
    form!(EXCLUSIVE_OR: Field, Word(b"X"), FieldOrOctal => 0, 2),
    form!(EXCLUSIVE_OR: Field, Word(b"XD"), Decimal => 0, 2),
    form!(EXCLUSIVE_OR: Field, Word(b"XH"), Hollerith => 0, 2),
    form!(COMPLEMENT: Field, Word(b"C"), FieldOrOctal => 0, 2),
    form!(COMPLEMENT: Field, Word(b"CD"), Decimal => 0, 2),
    form!(COMPLEMENT: Field, Word(b"CH"), Hollerith => 0, 2),
];

// The forms of tests or of operations.
pub fn forms_of(tests: bool) -> &'static [Form]
    ensures { map as_form result.now ≡ forms_of tests }
{
    if tests { &TESTS } else { &OPERATIONS }
}
