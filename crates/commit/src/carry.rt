// An action carried out in place on lent slices.
ghost use Rattle.std.specs.Prelude.{◌≡◌, ℕ, ◌+◌, ◌%◌, ◌≤◌, true, ◌⊎◌, length, ◌≢◌};
ghost use Rattle.block.specs.Blocks.{size, level};
ghost use Rattle.block.specs.SetUp.{top, words};
ghost use Rattle.block.specs.Map.{keeps, delivered_map};
ghost use Rattle.operations.specs.Deeds.{meant};
ghost use Rattle.commit.specs.Carried.{bugs_after, entries_after, map_after, words_after, output_after, zeroed, copied};
ghost use Rattle.commit.specs.Feasible.{ground, ground_of, Run, Copy, Feasible};

use crate::words::{copy_words, zero_words};
use block::SetUp;
use buddy::fresh::set_up;
use buddy::section::{deliver, free_block, words_of};
use buddy::sizes::{level_of, top_of};
use character::print_into;
use machine::{BugWords, Entries};
use operands::stores::store;
use operations::{Action, Known};

// The words of a delivered block: zero, and then those of the block that it copies, if there is one.
fn fill(s1: u16, storage: &mut [u64], address: u64, n: u64, from: u64)
    requires { (s1 ≤ address) × (address + n ≤ s1 + length storage.old)
        × ((from ≢ 0) → (s1 ≤ from) × (from + n ≤ s1 + length storage.old)
        × ((from + n ≤ address) ⊎ (address + n ≤ from))) }
    ensures { storage.new ≡ copied s1 address n from (zeroed s1 address n storage.old) }
{
    let first = s1 as u64;
    let to = (address - first) as usize;
    zero_words(&mut *storage, to, n as usize);
    if from != 0 {
        copy_words(storage, to, (from - first) as usize, n as usize);
    }
}

// A delivery: the run is live, and its words are filled.
fn take_run(setup: SetUp, map: &mut [u8], storage: &mut [u64], address: u64, n: u64, from: u64)
    requires { (words setup % size (top setup.d) ≡ 0) × (keeps setup map.old ≡ true)
        × Run (ground_of setup map.old storage.old) address n
        × ((from ≢ 0) → Copy (ground_of setup map.old storage.old) address n from) }
    ensures { (map.new ≡ delivered_map (level (top setup.d) n) address setup map.old)
        × (storage.new ≡ copied setup.s1 address n from (zeroed setup.s1 address n storage.old)) }
{
    let j = level_of(top_of(setup.d), n);
    deliver(setup, map, j, address as usize);
    fill(setup.s1, storage, address, n, from);
}

// An action: what becomes of the bugs, the entries of the contents stack, the map, the storage and the output.
pub fn carry_out(
    known: Known,
    bugs: &mut BugWords,
    entries: &mut Entries,
    map: &mut [u8],
    storage: &mut [u64],
    output: &mut [u8],
    action: Action,
)
    requires { (known.b ≤ 48) × (words known.setup % size (top known.setup.d) ≡ 0)
        × (keeps known.setup map.old ≡ true)
        × ((given : ℕ) × Feasible known.b
        (ground known.setup map.old storage.old known.counts given (length output.old)) (meant action)) }
    ensures { (bugs.new ≡ bugs_after known.b (meant action) bugs.old)
        × (entries.new ≡ entries_after known.counts.contents (meant action) entries.old)
        × (map.new ≡ map_after known.setup (meant action) map.old)
        × (storage.new ≡ words_after known.b known.setup.s1 (meant action) storage.old)
        × (output.new ≡ output_after known.counts.written (meant action) output.old) }
{
    let b = known.b;
    let setup = known.setup;
    let counts = known.counts;
    match action {
        Action::Store { at, value } => store(b, bugs, setup.s1, storage, at, value),
        Action::StoreTwo {
            at,
            value,
            then_at,
            then_value,
        } => {
            store(b, &mut *bugs, setup.s1, &mut *storage, at, value);
            store(b, bugs, setup.s1, storage, then_at, then_value);
        }
        Action::SetUpWords(u) => {
            set_up(u, map);
            zero_words(storage, 0, words_of(u));
        }
        Action::Deliver {
            address,
            size,
            copied,
            at,
        } => {
            take_run(setup, map, &mut *storage, address, size, copied);
            store(b, bugs, setup.s1, storage, at, address);
        }
        Action::DeliverTwo {
            address,
            size,
            at,
            then_at,
            then_value,
        } => {
            take_run(setup, map, &mut *storage, address, size, 0);
            store(b, &mut *bugs, setup.s1, &mut *storage, at, address);
            store(b, bugs, setup.s1, storage, then_at, then_value);
        }
        Action::Free { address, at, value } => {
            free_block(setup, map, address as usize);
            store(b, bugs, setup.s1, storage, at, value);
        }
        Action::Input {
            at,
            value,
            taken: _,
        } => store(b, bugs, setup.s1, storage, at, value),
        Action::Print {
            count,
            width,
            value,
        } => print_into(
            output,
            counts.written,
            count as usize,
            width as usize,
            value,
        ),
        Action::Save(v) => {
            let top = counts.contents;
            entries[top] = v;
        }
        Action::Restore { at, value } => store(b, bugs, setup.s1, storage, at, value),
        _ => {}
    }
}
