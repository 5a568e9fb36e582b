// A state written as its bytes.
ghost use Rattle.std.specs.Prelude.{◌≡◌, ◌++◌, length};
ghost use Rattle.octets.specs.Octets.{bytes_of};
ghost use Rattle.machine.specs.Storage.{placed};
ghost use Rattle.layout.specs.Records.{bytes_of_all};
ghost use Rattle.layout.specs.Layout.{state_length, bytes_of_place, bytes_of_numbers, bytes_of_arrays};
ghost use Rattle.layout.specs.Layout.{bytes_of_state, state_of};
ghost use Rattle.layout.specs.Ranged.{Array, Bytes, RangedPlace, RangedNumbers, RangedArrays};

use crate::offsets;
use crate::record::{Record, put_records};
use block::SetUp;
use machine::{Core, MapBytes, Place, State};
use octets::put_number;

// The place, and how much is taken and written.
fn put_streams(bytes: &mut [u8], place: Place, taken: usize, written: usize)
    requires { length bytes.old ≡ state_length }
    ensures bytes_after { bytes.new ≡ placed 0 (bytes_of_place place ++ (bytes_of 8 taken ++ bytes_of 8 written))
        bytes.old }
    ensures ranged { RangedPlace place × Bytes 8 taken × Bytes 8 written }
{
    place.put(bytes, offsets::PLACE);
    put_number(bytes, offsets::TAKEN, 8, taken as u64);
    put_number(bytes, offsets::WRITTEN, 8, written as u64);
}

// The set-up's numbers.
fn put_setup(bytes: &mut [u8], setup: SetUp)
    requires { length bytes.old ≡ state_length }
    ensures bytes_after { bytes.new ≡ placed 21 (bytes_of 2 setup.d ++ (bytes_of 2 setup.s1 ++ bytes_of 2 setup.s2))
        bytes.old }
    ensures ranged { Bytes 2 setup.d × Bytes 2 setup.s1 × Bytes 2 setup.s2 }
{
    put_number(bytes, offsets::LARGEST, 2, setup.d as u64);
    put_number(bytes, offsets::FIRST, 2, setup.s1 as u64);
    put_number(bytes, offsets::LAST, 2, setup.s2 as u64);
}

// The stacks' counts.
fn put_counts(bytes: &mut [u8], contents: usize, saved: usize, calls: usize)
    requires { length bytes.old ≡ state_length }
    ensures bytes_after { bytes.new ≡ placed 27 (bytes_of 8 contents ++ (bytes_of 8 saved ++ bytes_of 8 calls))
        bytes.old }
    ensures ranged { Bytes 8 contents × Bytes 8 saved × Bytes 8 calls }
{
    put_number(bytes, offsets::CONTENTS_COUNT, 8, contents as u64);
    put_number(bytes, offsets::SAVED_COUNT, 8, saved as u64);
    put_number(bytes, offsets::CALLS_COUNT, 8, calls as u64);
}

// What stands before the bugs.
fn put_numbers(bytes: &mut [u8], core: &Core)
    requires { length bytes.old ≡ state_length }
    ensures bytes_after { bytes.new ≡ placed 0 (bytes_of_numbers core.now) bytes.old }
    ensures ranged { RangedNumbers core.now }
{
    put_streams(bytes, core.place, core.taken, core.written);
    put_setup(bytes, core.setup);
    put_counts(
        bytes,
        core.contents.count,
        core.saved.count,
        core.calls.count,
    );
}

// From the bugs on to the calls.
fn put_arrays(bytes: &mut [u8], core: &Core)
    requires { length bytes.old ≡ state_length }
    ensures bytes_after { bytes.new ≡ placed 51 (bytes_of_arrays core.now) bytes.old }
    ensures ranged { RangedArrays core.now }
{
    put_records(bytes, offsets::BUGS, &core.bugs);
    put_records(bytes, offsets::CONTENTS, &core.contents.entries);
    put_records(bytes, offsets::DEFINITIONS, &core.definitions);
    put_records(bytes, offsets::SAVED, &core.saved.entries);
    put_records(bytes, offsets::CALLS, &core.calls.entries);
}

// The map.
fn put_map(bytes: &mut [u8], map: &MapBytes)
    requires { length bytes.old ≡ state_length }
    ensures bytes_after { bytes.new ≡ placed 2579 (bytes_of_all (bytes_of 1) map.now) bytes.old }
    ensures ranged { Array (Bytes 1) 0 4096 map.now }
{
    bytes[offsets::MAP..offsets::WIDTH].copy_from_slice(map);
}

// The width.
fn put_width(bytes: &mut [u8], width: u8)
    requires { length bytes.old ≡ state_length }
    ensures bytes_after { bytes.new ≡ placed 6675 (bytes_of 1 width) bytes.old }
    ensures ranged { Bytes 1 width }
{
    put_number(bytes, offsets::WIDTH, 1, width as u64);
}

// The bytes of a state.
pub fn write_state(bytes: &mut [u8], state: State)
    requires { length bytes.old ≡ state_length }
    ensures bytes_after { bytes.new ≡ bytes_of_state state }
    ensures back { state_of (bytes_of_state state) ≡ state }
{
    put_numbers(bytes, &state.core);
    put_arrays(bytes, &state.core);
    put_map(bytes, &state.map);
    put_width(bytes, state.width);
}
