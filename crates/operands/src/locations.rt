// Locations as numbers.
ghost use Rattle.std.specs.Prelude.{◌≡◌, ◌<◌, ◌≤◌};
ghost use Rattle.machine.specs.declared.Location.TheVariants.{Field};
ghost use Rattle.operands.specs.Locating.{located, bits_at};

use crate::{FIELDS, PLACES};
use word::fields::width;

// The bits of a word of the storage: its address, and the first and the last bit.
#[derive(Clone, Copy)]
pub struct Bits {
    pub address: u64,
    pub left: u64,
    pub right: u64,
}

// The number of a field's location.
pub(crate) fn field_number(address: u64, left: u64, right: u64) -> u64
    requires { (1 ≤ address) × (address ≤ 131327) × (left < 256) × (right < 256) }
    ensures { (located result ≡ Field address left right) × (65536 ≤ result) }
{
    (address * PLACES + right) * PLACES + left
}

// The bits of a field's location.
pub fn bits_of(at: u64) -> Bits
    requires { 65536 ≤ at }
    ensures { (located at ≡ Field result.address result.left result.right) × (result.left < 256) × (result.right < 256) }
{
    Bits {
        address: at / FIELDS,
        left: at % PLACES,
        right: at / PLACES % PLACES,
    }
}

// How many bits a location has.
pub fn width_of(b: u64, at: u64) -> u64
    ensures { result ≡ bits_at b at }
{
    if at < FIELDS {
        return b;
    }
    let bits = bits_of(at);
    width(bits.left, bits.right)
}
