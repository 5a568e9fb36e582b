// The arguments of a parenthesis: what stands inside it, split at commas. Each function is lent the inside.
ghost use Rattle.std.specs.Prelude.{◌≡◌, true, ℕ, option_map, option_to_list, slice_get};
ghost use Rattle.lines.specs.Words.{all};
ghost use Rattle.lines.specs.Forms.{is_argument, is_operation, expanded};
ghost use Rattle.lines.specs.Reading.{split};
ghost use Rattle.lines.specs.Walking.{two_of, expanded_by, calls_in};

use crate::words;

// An argument: one or more characters.
fn is_argument(w: &[u8]) -> bool
    ensures { result ≡ is_argument w.now }
{
    !w.is_empty() & words::all_characters(w)
}

// Whether all are arguments.
pub fn all_arguments(s: &[u8]) -> bool
    ensures { result ≡ all is_argument (split s.now) }
{
    s.split(|x| *x == b',').all(|w| is_argument(w))
}

// An argument by its number.
pub fn argument_at(s: &[u8], i: usize) -> Option<&[u8]>
    ensures { option_map (λ w. w.now) result ≡ slice_get (split s.now) i }
{
    s.split(|x| *x == b',').nth(i)
}

// The arguments where they are two.
fn both(s: &[u8]) -> Option<(&[u8], &[u8])>
    ensures { option_map (λ p. (p.0.now, p.1.now)) result ≡ two_of (split s.now) }
{
    let first = argument_at(s, 0)?;
    let second = argument_at(s, 1)?;
    match argument_at(s, 2) {
        Some(_) => None,
        None => Some((first, second)),
    }
}

// The field and the names of (a, Δ), which stands for (a, P, aΔ).
pub fn moved(s: &[u8]) -> Option<(&[u8], &[u8])>
    ensures { expanded_by (option_map (λ p. (p.0.now, p.1.now)) result) (split s.now) ≡ expanded (split s.now) }
{
    let (a, names) = both(s)?;
    if a == b"DO".as_slice() {
        return None;
    }
    Some((a, names))
}

// The label that an operation calls.
pub fn called(s: &[u8]) -> Option<&[u8]>
    ensures { (b : ℕ) → is_operation b (split s.now) ≡ true
        → option_to_list (option_map (λ w. w.now) result) ≡ calls_in b (split s.now) }
{
    let (word, label) = both(s)?;
    if word != b"DO".as_slice() {
        return None;
    }
    Some(label)
}
