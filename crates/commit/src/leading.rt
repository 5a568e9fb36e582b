// What a commit makes of set-up numbers and counts.
ghost use Rattle.std.specs.Prelude.{◌≡◌};
ghost use Rattle.operations.specs.Deeds.{meant};
ghost use Rattle.commit.specs.Carried.{onward};
ghost use Rattle.commit.specs.Feasible.{Counted};

use crate::Onward;
use block::SetUp;
use operations::{Action, Counts};

// Where an action leads: the set-up numbers, how far stacks, input and output are used, of which the lengths are given, and whether
// the action changes the records or goes to a place by the calls.
pub fn go_on(action: Action, setup: SetUp, counts: Counts, given: usize, room: usize) -> Onward
    requires { Counted counts given room (meant action) }
    ensures { result ≡ onward (meant action) setup counts }
{
    let mut next = setup;
    let mut after = counts;
    let mut recorded = false;
    match action {
        Action::SetUpWords(u) => next = u,
        Action::Define {
            field: _,
            definition: _,
        } => recorded = true,
        Action::Input {
            at: _,
            value: _,
            taken,
        } => after.taken = counts.taken + taken as usize,
        Action::Print {
            count,
            width: _,
            value: _,
        } => after.written = counts.written + count as usize,
        Action::Save(_) => after.contents = counts.contents + 1,
        Action::Restore { at: _, value: _ } => after.contents = counts.contents - 1,
        Action::SaveDefinition(_) => {
            after.saved = counts.saved + 1;
            recorded = true;
        }
        Action::RestoreDefinition(_) => {
            after.saved = counts.saved - 1;
            recorded = true;
        }
        Action::Call(_) => {
            after.calls = counts.calls + 1;
            recorded = true;
        }
        Action::Return => {
            after.calls = counts.calls - 1;
            recorded = true;
        }
        _ => {}
    }
    Onward {
        setup: next,
        counts: after,
        recorded,
    }
}
