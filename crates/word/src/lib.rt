// Words of b bits, held in a u64: the arithmetic, the bits and the fields of document 01, each by equality with specs/.
#![tactic(auto)]

ghost use Rattle.std.specs.Prelude.{◌≡◌};
ghost use Rattle.word.specs.Word.{is_width};

pub mod arithmetic;
pub mod count;
pub mod fields;
pub mod logic;
pub mod shifts;

// Whether an engine's words may have b bits.
pub fn is_width(b: u64) -> bool
    ensures { result ≡ is_width b }
{
    (b == 36) | (b == 48)
}
