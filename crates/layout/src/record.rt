// Records of one length: words, definitions and places, which stand one after the other in a state's bytes.
ghost use Rattle.std.specs.Prelude.{ℕ, List, ◌+◌, ◌*◌, ◌≤◌, ◌≡◌, length, take, drop};
ghost use Rattle.octets.specs.Octets.{low_first, bytes_of};
ghost use Rattle.machine.specs.State.{tests_of, undefined};
ghost use Rattle.machine.specs.Storage.{placed};
ghost use Rattle.layout.specs.Records.{number_at, bytes_of_all, records_of};
ghost use Rattle.layout.specs.Layout.{place_of, bytes_of_place, definition_of, bytes_of_definition};
ghost use Rattle.layout.specs.Ranged.{Array, Bytes, RangedPlace, RangedDefinition};
ghost use Rattle.layout.specs.Lengths.{length_word, length_place, length_definition};

use crate::offsets;
use machine::{Definition, Place};
use octets::{number_at, put_number};
use std::array;

// A record: its bytes, what they read as, what stands for a record that is not there, and what range a record is in.
pub trait Record: Copy {
    ghost BYTES: { ℕ };

    ghost as_bytes: { Self → List ℕ };

    ghost from_bytes: { List ℕ → Self };

    ghost none: { Self };

    ghost InRange: { Self → Type 0 };

    const BYTES: usize;

    fn read(bytes: &[u8], at: usize) -> Self
        requires { at + BYTES ≤ length bytes.now }
        ensures { result ≡ from_bytes (take BYTES (drop at bytes.now)) };

    fn put(self, bytes: &mut [u8], at: usize)
        requires { at + BYTES ≤ length bytes.old }
        ensures bytes_after { bytes.new ≡ placed at (as_bytes self) bytes.old }
        ensures ranged { InRange self };

    // Each has so many bytes.
    ghost long: { (x : Self) → length (as_bytes x) ≡ BYTES };
}

// A word: a number of eight bytes.
impl Record for u64 {
    ghost BYTES = { 8 };

    ghost as_bytes = { bytes_of 8 };

    ghost from_bytes = { low_first };

    ghost none = { 0 };

    ghost InRange = { Bytes 8 };

    ghost long = { length_word };

    const BYTES: usize = 8;

    fn read(bytes: &[u8], at: usize) -> u64 {
        number_at(bytes, at, 8)
    }

    fn put(self, bytes: &mut [u8], at: usize) {
        put_number(bytes, at, 8, self);
    }
}

// A number of two bytes.
pub fn short_at(bytes: &[u8], at: usize) -> u16
    requires { at + 2 ≤ length bytes.now }
    ensures { result ≡ number_at at 2 bytes.now }
{
    u16::from(bytes[at]) + 256 * u16::from(bytes[at + 1])
}

// A place: kind, row and line.
impl Record for Place {
    ghost BYTES = { 5 };

    ghost as_bytes = { bytes_of_place };

    ghost from_bytes = { place_of };

    ghost none = { tests_of 0 };

    ghost InRange = { RangedPlace };

    ghost long = { length_place };

    const BYTES: usize = offsets::PLACE_BYTES;

    fn read(bytes: &[u8], at: usize) -> Place {
        Place {
            kind: bytes[at],
            row: short_at(bytes, at + 1),
            line: short_at(bytes, at + 3),
        }
    }

    fn put(self, bytes: &mut [u8], at: usize) {
        put_number(bytes, at, 1, self.kind as u64);
        put_number(bytes, at + 1, 2, self.row as u64);
        put_number(bytes, at + 3, 2, self.line as u64);
    }
}

// A definition: whether it is defined, word, left and right.
impl Record for Definition {
    ghost BYTES = { 4 };

    ghost as_bytes = { bytes_of_definition };

    ghost from_bytes = { definition_of };

    ghost none = { undefined };

    ghost InRange = { RangedDefinition };

    ghost long = { length_definition };

    const BYTES: usize = offsets::DEFINITION_BYTES;

    fn read(bytes: &[u8], at: usize) -> Definition {
        Definition {
            defined: bytes[at] != 0,
            word: bytes[at + 1],
            left: bytes[at + 2],
            right: bytes[at + 3],
        }
    }

    fn put(self, bytes: &mut [u8], at: usize) {
        put_number(bytes, at, 1, self.defined as u64);
        put_number(bytes, at + 1, 1, self.word as u64);
        put_number(bytes, at + 2, 1, self.left as u64);
        put_number(bytes, at + 3, 1, self.right as u64);
    }
}

// Records one after the other, read.
pub fn records_at<T: Record, const N: usize>(bytes: &[u8], at: usize) -> [T; N]
    requires { at + T.BYTES * N ≤ length bytes.now }
    ensures { result ≡ records_of T.from_bytes T.BYTES N (drop at bytes.now) }
{
    array::from_fn(
        |i| -> T
            requires { at + T.BYTES * i + T.BYTES ≤ length bytes.now }
        { T::read(bytes, at + T::BYTES * i) },
    )
}

// Records one after the other, put.
pub fn put_records<T: Record>(bytes: &mut [u8], at: usize, records: &[T])
    requires { at + T.BYTES * length records.now ≤ length bytes.old }
    ensures bytes_after { bytes.new ≡ placed at (bytes_of_all T.as_bytes records.now) bytes.old }
    ensures ranged { Array T.InRange T.none (length records.now) records.now }
{
    for i in 0..records.len() {
        records[i].put(bytes, at + T::BYTES * i);
    }
}
