// Silent and repeated stops for players in C and Rust.
ghost use Rattle.std.specs.Prelude.{◌≡◌};
ghost use Rattle.silence.specs.Silence.{silent, repeated};
ghost use Rattle.player.specs.Silence.{counted_as, stops_left};

use silence::{OutputShort, write_repeated, write_silent};

// The number of an answer, with the count put in its place.
fn tell(told: Result<usize, OutputShort>, count: &mut u64) -> u64
    ensures { record { answer = result; count = count.new } ≡ counted_as told count.old }
{
    *count = told.map_or(*count, |n| n as u64);
    match told {
        Ok(_) => 0,
        Err(OutputShort) => 28,
    }
}

// Each stop of a list that no pair with a recording has, and how many they are.
#[unsafe(no_mangle)]
pub extern "C" fn l6_silent(
    stops: &[u64],
    pairs: &[u64],
    output: &mut [u64],
    count: &mut u64,
) -> u64
    ensures { record { answer = result; output = output.new; count = count.new }
        ≡ stops_left (silent pairs.now stops.now) output.old count.old }
{
    let told = write_silent(stops, pairs, output);
    tell(told, count)
}

// Each stop that stands in a list twice or more, once, and how many they are.
#[unsafe(no_mangle)]
pub extern "C" fn l6_repeated(stops: &[u64], output: &mut [u64], count: &mut u64) -> u64
    ensures { record { answer = result; output = output.new; count = count.new }
        ≡ stops_left (repeated stops.now) output.old count.old }
{
    let told = write_repeated(stops, output);
    tell(told, count)
}
