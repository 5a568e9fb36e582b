// More storage while a tour runs, for players in C and Rust.
ghost use Rattle.std.specs.Prelude.{◌≡◌, length};
ghost use Rattle.layout.specs.Layout.{state_length, state_of};
ghost use Rattle.machine.specs.Extend.{extend as extend_of};
ghost use Rattle.player.specs.Extending.{extend_left};
ghost use Rattle.player.specs.Calls.{engine_at};

use crate::STATE_LENGTH;
use extension::{extend, number_of};
use layout::offsets::STATE_BYTES;
use layout::reading::read_state;
use layout::writing::write_state;

// A new last address for the words set up.
#[unsafe(no_mangle)]
pub extern "C" fn l6_extend(storage: &mut [u64], state: &mut [u8], last: u64) -> u64
    ensures state_after { record { answer = result; storage = storage.new; state = state.new }
        ≡ extend_left last storage.old state.old }
    ensures back { length state.old ≡ state_length → state_of state.new
        ≡ (extend_of last (engine_at state.old storage.old)).extended.state }
{
    if state.len() != STATE_BYTES {
        return STATE_LENGTH;
    }
    let extended = extend(storage, read_state(&*state), last);
    let number = number_of(extended.answer);
    if number != 0 {
        return number;
    }
    write_state(state, extended.state);
    0
}
