// A state read from its bytes.
ghost use Rattle.std.specs.Prelude.{◌+◌, ◌≤◌, ◌≡◌, length};
ghost use Rattle.layout.specs.Records.{number_at};
ghost use Rattle.layout.specs.Layout.{state_length, state_of};

use crate::offsets;
use crate::record::{Record, records_at, short_at};
use block::SetUp;
use machine::{Core, Place, Stack, State};
use octets::number_at;

// A number of eight bytes, as a count.
fn count_at(bytes: &[u8], at: usize) -> usize
    requires { at + 8 ≤ length bytes.now }
    ensures { result ≡ number_at at 8 bytes.now }
{
    number_at(bytes, at, 8) as usize
}

// The set-up's numbers.
pub fn setup_at(bytes: &[u8]) -> SetUp
    requires { length bytes.now ≡ state_length }
    ensures { result ≡ (state_of bytes.now).core.setup }
{
    SetUp {
        d: short_at(bytes, offsets::LARGEST),
        s1: short_at(bytes, offsets::FIRST),
        s2: short_at(bytes, offsets::LAST),
    }
}

// The width.
pub fn width_at(bytes: &[u8]) -> u8
    requires { length bytes.now ≡ state_length }
    ensures { result ≡ (state_of bytes.now).width }
{
    bytes[offsets::WIDTH]
}

// All but the map and the width.
fn core_at(bytes: &[u8]) -> Core
    requires { length bytes.now ≡ state_length }
    ensures { result ≡ (state_of bytes.now).core }
{
    Core {
        place: Place::read(bytes, offsets::PLACE),
        bugs: records_at(bytes, offsets::BUGS),
        definitions: records_at(bytes, offsets::DEFINITIONS),
        contents: Stack {
            entries: records_at(bytes, offsets::CONTENTS),
            count: count_at(bytes, offsets::CONTENTS_COUNT),
        },
        saved: Stack {
            entries: records_at(bytes, offsets::SAVED),
            count: count_at(bytes, offsets::SAVED_COUNT),
        },
        calls: Stack {
            entries: records_at(bytes, offsets::CALLS),
            count: count_at(bytes, offsets::CALLS_COUNT),
        },
        setup: setup_at(bytes),
        taken: count_at(bytes, offsets::TAKEN),
        written: count_at(bytes, offsets::WRITTEN),
    }
}

// The state of these bytes.
pub fn read_state(bytes: &[u8]) -> State
    requires { length bytes.now ≡ state_length }
    ensures { result ≡ state_of bytes.now }
{
    let core = core_at(bytes);
    let mut map = [0u8; machine::MAP];
    map.copy_from_slice(&bytes[offsets::MAP..offsets::WIDTH]);
    State {
        width: width_at(bytes),
        core,
        map,
    }
}
