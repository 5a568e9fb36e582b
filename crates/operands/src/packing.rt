// Definitions packed into numbers, so that they can be lent.
ghost use Rattle.std.specs.Prelude.{◌≡◌, length};
ghost use Rattle.operands.specs.Packing.{unpacked, unpacked_all};

use machine::{Definition, FIELDS};

// The definitions of all fields, each packed into a number.
pub type PackedFields = [u32; FIELDS];

// Where a definition's parts begin in its number, after the flag, and how many values each has.
const WORD: u32 = 256;

const LEFT: u32 = 65536;

const RIGHT: u32 = 16777216;

const VALUES: u32 = 256;

// A definition in one number, in the order in which its parts lie in memory.
pub fn pack(x: Definition) -> u32
    ensures { unpacked result ≡ x }
{
    x.defined as u32 + x.word as u32 * WORD + x.left as u32 * LEFT + x.right as u32 * RIGHT
}

// The definition in a number.
pub(crate) fn unpack(x: u32) -> Definition
    ensures { result ≡ unpacked x }
{
    Definition {
        defined: x % VALUES != 0,
        word: (x / WORD % VALUES) as u8,
        left: (x / LEFT % VALUES) as u8,
        right: (x / RIGHT) as u8,
    }
}

// All definitions.
pub fn pack_all(definitions: [Definition; FIELDS], fields: &mut PackedFields)
    requires { length fields.old ≡ 36 }
    ensures { unpacked_all fields.new ≡ definitions }
{
    for i in 0..FIELDS {
        fields[i] = pack(definitions[i]);
    }
}
