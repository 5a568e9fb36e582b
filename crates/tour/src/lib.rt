// tourrun over slices: what it prints of the bytes that it reads.
#![tactic(auto)]

ghost use Rattle.std.specs.Prelude.{◌≡◌, ◌+◌, length, replicate};
ghost use Rattle.tour.specs.Tour.{played, printed};
ghost use Rattle.tour.specs.Put.{put_before};

pub mod numbers;
pub mod text;
pub mod width;

use engine::{fresh_state, run};
use machine::Ran;
use numbers::read_table;
use table::rows::ALL;
use text::put_lines;

// tourrun's words have 36 bits.
const WIDTH: u8 = 36;

// How many words and output bytes it lends, and how many input bytes at most.
pub const LENT: usize = 4096;

// How many steps it runs.
const STEPS: u64 = 100000;

// How many bytes the two lines have at most.
pub const TEXT: usize = 12331;

// Runs the tour of two files' bytes over storage and output that are zero.
pub fn run_tour(tab: &[u8], stops: &[u8], storage: &mut [u64], output: &mut [u8]) -> Ran
    requires { (storage.old ≡ replicate 4096 0) × (output.old ≡ replicate 4096 0) }
    ensures { record { ran = result; storage = storage.new; output = output.new }
        ≡ played tab.now stops.now }
{
    let mut table = [0u64; ALL];
    let count = read_table(tab, &mut table);
    let given = stops.len().min(LENT);
    run(
        &table[..count],
        storage,
        &stops[..given],
        output,
        fresh_state(WIDTH),
        STEPS,
    )
}

// Runs a tour and puts what tourrun prints at the end of the text. Returns where it starts.
pub fn play(tab: &[u8], stops: &[u8], text: &mut [u8; TEXT]) -> usize
    ensures stops_value { result + length (printed tab.now stops.now) ≡ 12331 }
    ensures text_after { text.new ≡ put_before 12331 (printed tab.now stops.now) text.old }
{
    let mut storage = [0u64; LENT];
    let mut output = [0u8; LENT];
    let ran = run_tour(tab, stops, &mut storage, &mut output);
    let written = ran.state.core.written;
    put_lines(text, &output[..written], ran.answer, ran.count)
}
