// Stops without a recording, and stops that stand twice: what a museum asks of its list before it opens. A stop is looked up along
// the pairs, or along the list, so the time grows with the product of two lengths; lists have hundreds of stops, thousands at most.
#![tactic(auto)]

ghost use Rattle.std.specs.Prelude.{[], ◌++◌, ◌≡◌, ◌≤◌, ◌<◌, length, drop};
ghost use Rattle.silence.specs.Silence.{has_recording, test_of, test_at, chosen, silent, repeated, telling, told_listed};
ghost use Rattle.silence.specs.Silence.{telling_told, Tells};

// The output is too short for the stops: refusal 28.
#[derive(Clone, Copy, PartialEq, Eq, Debug)]
pub struct OutputShort;

// Which stops are asked for. No closure takes its place: the definitions test_of and chosen, by which silent and repeated are
// stated, name it.
#[derive(Clone, Copy)]
pub enum Asked {
    Silent,
    Repeated,
}

// Whether some pair has the stop with a recording. A loop: `any` takes an instruction more for each pair.
fn has_recording(pairs: &[u64], stop: u64) -> bool
    ensures { result ≡ has_recording stop pairs.now }
{
    let (whole, _) = pairs.as_chunks::<2>();
    for pair in whole {
        if (pair[0] == stop) & (pair[1] != 0) {
            return true;
        }
    }
    false
}

// Whether the stop at a place of a list stands again later, and not before.
fn is_repeated(stops: &[u64], i: usize) -> bool
    requires { i < length stops.now }
    ensures { result ≡ test_at (test_of Asked.Repeated []) stops.now i }
{
    stops[i + 1..].contains(&stops[i]) && !stops[..i].contains(&stops[i])
}

// Whether the stop at a place of a list is one of those asked for.
fn is_picked(asked: Asked, stops: &[u64], pairs: &[u64], i: usize) -> bool
    requires { i < length stops.now }
    ensures { result ≡ test_at (test_of asked pairs.now) stops.now i }
{
    match asked {
        Asked::Silent => !has_recording(pairs, stops[i]),
        Asked::Repeated => is_repeated(stops, i),
    }
}

// How many stops of a list are those asked for.
fn count_picked(asked: Asked, stops: &[u64], pairs: &[u64]) -> usize
    ensures { result ≡ length (chosen asked pairs.now stops.now) }
{
    (0..stops.len())
        .filter(|i| is_picked(asked, stops, pairs, *i))
        .count()
}

// Puts the stops asked for, in the order of the list.
fn put_picked(asked: Asked, stops: &[u64], pairs: &[u64], output: &mut [u64])
    requires { length (chosen asked pairs.now stops.now) ≤ length output.old }
    ensures { output.new ≡ chosen asked pairs.now stops.now
        ++ drop (length (chosen asked pairs.now stops.now)) output.old }
{
    let mut n = 0;
    for i in 0..stops.len() {
        if is_picked(asked, stops, pairs, i) {
            output[n] = stops[i];
            n += 1;
        }
    }
}

// Writes the stops asked for, in the order of the list, and counts them; refusal 28 where the output is too short, which then
// stays.
fn write_picked(
    asked: Asked,
    stops: &[u64],
    pairs: &[u64],
    output: &mut [u64],
) -> Result<usize, OutputShort>
    ensures { Tells (chosen asked pairs.now stops.now) output.old result output.new }
{
    let count = count_picked(asked, stops, pairs);
    if output.len() < count {
        return Err(OutputShort);
    }
    put_picked(asked, stops, pairs, output);
    Ok(count)
}

// Writes each stop of a list that no pair with a recording has, in the order of the list and as often as it stands there, and
// counts them: refusal 28. Numbers past those written stay.
pub fn write_silent(stops: &[u64], pairs: &[u64], output: &mut [u64]) -> Result<usize, OutputShort>
    ensures output_after { record { answer = result; output = output.new }
        ≡ telling (silent pairs.now stops.now) output.old }
    ensures numbered { told_listed result ≡ telling_told (silent pairs.now stops.now)
        output.old }
{
    write_picked(Asked::Silent, stops, pairs, output)
}

// Writes each stop that stands in a list twice or more, once, in the order in which they first occur, and counts them: refusal 28.
pub fn write_repeated(stops: &[u64], output: &mut [u64]) -> Result<usize, OutputShort>
    ensures output_after { record { answer = result; output = output.new }
        ≡ telling (repeated stops.now) output.old }
    ensures numbered { told_listed result ≡ telling_told (repeated stops.now) output.old }
{
    write_picked(Asked::Repeated, stops, stops, output)
}
