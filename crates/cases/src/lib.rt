// What the test programs share: how cases are generated, the checksum over what is answered on them, and how lines are written.
#![tactic(auto)]

pub mod characters;
pub mod lines;
pub mod references;
pub mod tables;

ghost use Rattle.std.specs.Prelude.{◌≡◌, ◌+◌, ◌<◌, ◌≤◌, MatchOption};
ghost use Rattle.std.specs.Iterator.{at_most};
ghost use Rattle.std.specs.List.{FoldsTo};
ghost use Rattle.cases.specs.Folding.{next, fold, Folds};

// An answer is a number: a value below this one, or this one and the number of a refusal.
pub const REFUSED: u64 = 9223372036854775808;

// A case: a number for choices, two values, and the generator's state after it.
#[derive(Clone, Copy)]
pub struct Case {
    pub a: u64,
    pub x: u64,
    pub y: u64,
    pub state: u64,
}

// The cases of a function: the generator's state, and how many are left.
#[derive(Drop)]
pub struct Cases {
    state: u64,
    left: u64,
}

// The generator's next state: a shift register of 64 bits.
pub fn next(state: u64) -> u64
    ensures { result ≡ next state }
{
    let a = state ^ (state << 13);
    let b = a ^ (a >> 7);
    b ^ (b << 17)
}

// The checksum after one more result.
pub fn fold(sum: u64, res: u64) -> u64
    ensures { result ≡ fold sum res }
{
    next(sum ^ res)
}

// Small and large values: ones, a single one, or drawn bits, moved right or left by a drawn count.
fn spread(drawn: u64) -> u64 {
    let places = drawn % 64;
    match drawn / 64 % 4 {
        0 => 18446744073709551615 >> places,
        1 => 1 << places,
        _ => next(drawn) >> places,
    }
}

// The 8,000 cases of a function.
pub fn all() -> Cases
    ensures start { result.state ≡ 1966 }
    ensures count { result.left ≡ 8000 }
{
    Cases {
        state: 1966,
        left: 8000,
    }
}

impl Iterator for Cases {
    type Item = Case;

    // A case, and one fewer left; none, and nothing changed, exactly where none is left.
    ghost next_gives = { λ s r t. MatchOption r ((s.left ≡ 0) × (t ≡ s)) (λ case. s.left ≡ t.left + 1) };

    ghost remaining = { λ s. at_most s.left };

    fn next(&mut self) -> Option<Case> {
        if self.left == 0 {
            return None;
        }
        let a = next(self.state);
        let x = next(a);
        let y = next(x);
        self.state = y;
        self.left -= 1;
        Some(Case {
            a,
            x: spread(x),
            y: spread(y),
            state: y,
        })
    }
}

// A width of 0 to 36, or 48.
pub fn width(drawn: u64) -> u64
    ensures { result ≤ 48 }
{
    let w = drawn % 38;
    if w == 37 { 48 } else { w }
}

// A number below n.
pub fn below(n: u64, drawn: u64) -> u64
    requires { 0 < n }
    ensures { result < n }
{
    drawn % n
}

// Words or bytes folded into a checksum.
pub fn fold_all<T: Copy + Into<u64>>(before: u64, numbers: &[T]) -> u64
    ensures { FoldsTo (Folds T.converts) before numbers.now result }
{
    let mut sum = before;
    for number in numbers {
        sum = fold(sum, (*number).into());
    }
    sum
}
