// More storage while a tour runs: between steps a host gives a new last address. Any storage and state may be lent.
#![tactic(auto)]

ghost use Rattle.std.specs.Prelude.{true, ◌≡◌, length};
ghost use Rattle.word.specs.Told.{number};
ghost use Rattle.block.specs.SetUp.{fitting};
ghost use Rattle.block.specs.Map.{keeps};
ghost use Rattle.block.specs.Extension.{extending};
ghost use Rattle.machine.specs.Extend.{engine_extended, extend as extend_of, told_extension, extend_told};
ghost use Rattle.machine.specs.Sound.{engine_on};

use buddy::extension::{extend_map, extends};
use buddy::section::words_of;
use commit::words::zero_words;
use machine::{Extended, ExtensionError, State};
use soundness::is_sound_engine;
use word::is_width;

// The engine with the words up to a new last address: free blocks, all zero.
fn grown(state: State, storage: &mut [u64], last: u16) -> State
    requires { (fitting (length storage.old) state.core.setup ≡ true)
        × (extending (length storage.old) last state.core.setup ≡ true) × (keeps state.core.setup state.map ≡ true) }
    ensures { record { state = result; storage = storage.new } ≡ engine_extended last (engine_on state storage.old) }
{
    let setup = state.core.setup;
    let mut after = state;
    extend_map(setup, last, &mut after.map);
    zero_words(storage, words_of(setup), (last - setup.s2) as usize);
    after.core.setup.s2 = last;
    after
}

// Why a new last address is refused, if it is: refusals 31, 11, 12, 32.
fn judge(storage: &[u64], state: &State, last: u64) -> Result<(), ExtensionError>
    ensures { result ≡ (extend_of last (record { state = state.now; storage = storage.now })).extended.answer }
{
    let b = u64::from(state.width);
    let setup = state.core.setup;
    if !is_width(b) {
        return Err(ExtensionError::NoWidth);
    }
    if !is_sound_engine(b, state.core, &state.map, storage) {
        return Err(ExtensionError::Unsound);
    }
    if setup.d == 0 {
        return Err(ExtensionError::BeforeSetUp);
    }
    if !extends(storage.len(), setup, last) {
        return Err(ExtensionError::LastAddress);
    }
    Ok(())
}

// A new last address for the words set up. The second promise gives the answer as the papers' number, 0 where it is no refusal.
pub fn extend(storage: &mut [u64], state: State, last: u64) -> Extended
    ensures storage_after { record { extended = result; storage = storage.new }
        ≡ extend_of last (record { state = state; storage = storage.old }) }
    ensures numbered { told_extension result.answer ≡ extend_told last (engine_on state storage.old) }
{
    let answer = judge(&*storage, &state, last);
    let after = match answer {
        Ok(()) => grown(state, storage, last as u16),
        Err(_) => state,
    };
    Extended {
        state: after,
        answer,
    }
}

// The number of an answer: 0 where nothing is refused. C is told it.
#[tactic(auto, unfolding(machine::specs::Extend::told_extension, word::specs::Told::number))]
pub fn number_of(answer: Result<(), ExtensionError>) -> u64
    ensures { result ≡ number (told_extension answer) }
{
    match answer {
        Ok(()) => 0,
        Err(ExtensionError::NoWidth) => 31,
        Err(ExtensionError::Unsound) => 11,
        Err(ExtensionError::BeforeSetUp) => 12,
        Err(ExtensionError::LastAddress) => 32,
    }
}
