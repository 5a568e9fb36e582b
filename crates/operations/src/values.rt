// What the operations (a, x) that compute make of a's old contents and of x, by their codes.
ghost use Rattle.std.specs.Prelude.{◌≡◌, ◌^◌, ◌≤◌, ◌<◌};
ghost use Rattle.character.specs.Character.{to_binary};
ghost use Rattle.machine.specs.declared.Refusal.TheVariants.{NotADigit};
ghost use Rattle.machine.specs.Operations.{difference, quotient, or_refuse};
ghost use Rattle.operands.specs.Locating.{bits_at};
ghost use Rattle.operands.specs.Reading.{valued};
ghost use Rattle.operations.specs.Plans.{value_by, Computes};
ghost use Rattle.machine.specs.Answer.{told};
ghost use Rattle.operations.specs.Answers.{told_computed};

use machine::Refusal;
use operands::Spot;
use operands::locations::width_of;
use table::codes;

// 9, subtract: refusal 22.
fn subtracted(b: u64, x: u64, y: u64) -> Result<u64, Refusal>
    requires { (b ≤ 48) × (x < 2 ^ b) }
    ensures { told_computed result ≡ told (difference 0 (valued x 0) (valued y 0)) }
{
    if x < y {
        return Err(Refusal::SubtrahendGreater);
    }
    Ok(word::arithmetic::subtract(b, x, y))
}

// 11, divide: refusal 9.
fn divided(x: u64, y: u64) -> Result<u64, Refusal>
    ensures { told_computed result ≡ told (quotient 0 (valued x 0) (valued y 0)) }
{
    if y == 0 {
        return Err(Refusal::ZeroDivisor);
    }
    Ok(word::arithmetic::divide(x, y))
}

// 27, decimal, and 28, octal to binary: refusal 6.
fn binary(base: u64, n: usize, v: u64) -> Result<u64, Refusal>
    requires { (base ≤ 64) × (n ≤ 10) }
    ensures { told_computed result ≡ told (or_refuse (to_binary base n v) NotADigit) }
{
    character::to_binary(base, n, v).ok_or(Refusal::NotADigit)
}

// The value, by the code: a's old contents and x, each with its location, whose width is worked out where it is wanted.
pub fn compute(b: u64, code: u64, a: Spot, x: Spot) -> Result<u64, Refusal>
    requires { (b ≤ 48) × (a.holds < 2 ^ b) × (x.holds < 2 ^ b) × (bits_at b a.at ≤ b) × (bits_at b x.at ≤ b)
        × Computes code }
    ensures { told_computed result ≡ told (value_by code b (valued a.holds (bits_at b a.at))
        (valued x.holds (bits_at b x.at))) }
{
    let old = a.holds;
    let v = x.holds;
    let n = (b / 6) as usize;
    match code {
        codes::COPY => Ok(v),
        codes::ADD => Ok(word::arithmetic::add(b, old, v)),
        codes::SUBTRACT => subtracted(b, old, v),
        codes::MULTIPLY => Ok(word::arithmetic::multiply(b, old, v)),
        codes::DIVIDE => divided(old, v),
        codes::OR => Ok(word::logic::or(b, old, v)),
        codes::AND => Ok(word::logic::and(b, old, v)),
        codes::EXCLUSIVE_OR => Ok(word::logic::exclusive_or(b, old, v)),
        codes::COMPLEMENT => Ok(word::logic::complement(b, v)),
        codes::COUNT_ONES => Ok(word::count::count_ones(width_of(b, x.at), v)),
        codes::COUNT_ZEROS => Ok(word::count::count_zeros(width_of(b, x.at), v)),
        codes::LEFTMOST_ONE => Ok(word::count::leftmost_one(width_of(b, x.at), v)),
        codes::RIGHTMOST_ONE => Ok(word::count::rightmost_one(width_of(b, x.at), v)),
        codes::LEFTMOST_ZERO => Ok(word::count::leftmost_zero(width_of(b, x.at), v)),
        codes::RIGHTMOST_ZERO => Ok(word::count::rightmost_zero(width_of(b, x.at), v)),
        codes::LEFT_SHIFT => Ok(word::shifts::left_shift(width_of(b, a.at), old, v)),
        codes::RIGHT_SHIFT => Ok(word::shifts::right_shift(width_of(b, a.at), old, v)),
        codes::BLANKS_TO_ZEROS => Ok(character::blanks_to_zeros(n, width_of(b, x.at) as usize, v)),
        codes::DECIMAL_TO_BINARY => binary(10, n, v),
        codes::OCTAL_TO_BINARY => binary(8, n, v),
        codes::BINARY_TO_DECIMAL => Ok(character::from_binary_decimal(n, v)),
        codes::BINARY_TO_OCTAL => Ok(character::from_binary_octal(n, v)),
        _ => Ok(character::zeros_to_blanks(n, v)),
    }
}
