// The sets of all lines, and in place 0 that of the DONEs. A line is walked again only when its set has changed since it was last
// walked, and what follows the DOs only when the set of the DONEs has: each at most 37 times.
ghost use Rattle.std.specs.Prelude.{◌≡◌};
ghost use Rattle.defined.specs.Answer.{IsRow};
ghost use Rattle.defined.specs.Search.{changed_walked, lines_walked, rests_walked, returns_walked, rounded};
ghost use Rattle.defined.specs.Search.{first_rounds, final_sets};

use super::accepted::Table;
use super::walk::{join_at, walk_chain, walk_line};
use table::rows::MOST;

// All 36 names, and bit 36: there is a path.
const EVERYTHING: u64 = 137438953471;

// Each round but the last puts one of 37 elements into one of 1,600 sets.
const ROUNDS: u64 = 59200;

// The sets, and those with which the lines and what follows the DOs were last walked.
#[derive(Drop)]
pub struct Rounds {
    pub sets: [u64; MOST],
    pub walked: [u64; MOST],
}

impl Rounds {
    // At first only row 1 is reached, with no field defined, and nothing is walked.
    fn first() -> Rounds
        ensures { result ≡ first_rounds }
    {
        let mut sets = [0; MOST];
        sets[1] = EVERYTHING;
        Rounds {
            sets,
            walked: [0; MOST],
        }
    }

    // A line, if its set has changed since it was last walked.
    fn walk_changed(&mut self, table: &Table, l: u64)
        requires { IsRow table.now.numbers.now 1 l }
        ensures { self.new ≡ changed_walked table.now.numbers.now l self.old }
    {
        let at = l as usize;
        let x = self.sets[at];
        if self.walked[at] == x {
            return;
        }
        join_at(&mut self.walked, l, x);
        walk_line(table, l, x, &mut self.sets);
    }

    // Every such line, once. A loop here, in walk_rests and in marks: a closure that changes what it captures would be no plainer.
    fn walk_lines(&mut self, table: &Table)
        ensures { self.new ≡ lines_walked table.now.numbers.now self.old }
    {
        for l in 1..table.rows() {
            if table.is_line(l) {
                self.walk_changed(table, l);
            }
        }
    }

    // What follows every DO, if the set of the DONEs has changed since it was last walked.
    fn walk_returns(&mut self, table: &Table)
        ensures { self.new ≡ returns_walked table.now.numbers.now self.old }
    {
        let done = self.sets[0];
        if self.walked[0] == done {
            return;
        }
        join_at(&mut self.walked, 0, done);
        walk_rests(table, done, &mut self.sets);
    }

    // One round.
    fn walk(&mut self, table: &Table)
        ensures { self.new ≡ rounded table.now.numbers.now self.old }
    {
        self.walk_lines(table);
        self.walk_returns(table);
    }
}

// What follows every DO, with the set of the DONEs.
fn walk_rests(table: &Table, done: u64, sets: &mut [u64; MOST])
    ensures { sets.new ≡ rests_walked table.now.numbers.now done sets.old }
{
    for l in 1..table.rows() {
        if table.is_line(l) {
            walk_chain(table, l, 0, done, sets);
        }
    }
}

// The sets that no further round changes.
pub fn final_sets(table: &Table) -> [u64; MOST]
    ensures { result ≡ final_sets table.now.numbers.now }
{
    let mut rounds = Rounds::first();
    for _ in 0..ROUNDS {
        if rounds.walked == rounds.sets {
            break;
        }
        rounds.walk(table);
    }
    rounds.sets
}
