// The numbers of answers: document 01's, 22 of ticket 1, and 31 of ticket 9.
ghost use Rattle.std.specs.Prelude.{◌≡◌};
ghost use Rattle.machine.specs.Answer.{refusal_number};

use machine::Refusal;

// The number of a refusal.
pub fn refusal_number(refusal: Refusal) -> u64
    ensures { result ≡ refusal_number refusal }
{
    match refusal {
        Refusal::TableLength => 1,
        Refusal::BadRow => 2,
        Refusal::SetUpNumbers => 3,
        Refusal::InputByte => 4,
        Refusal::InputShort => 5,
        Refusal::NotADigit => 6,
        Refusal::DefinitionNumber => 7,
        Refusal::BlockSize => 8,
        Refusal::ZeroDivisor => 9,
        Refusal::CharacterCount => 10,
        Refusal::Unsound => 11,
        Refusal::BeforeSetUp => 12,
        Refusal::SecondSetUp => 13,
        Refusal::UndefinedField => 14,
        Refusal::NotABlock => 15,
        Refusal::OutsideBlock => 16,
        Refusal::NoRun => 17,
        Refusal::FieldFreed => 18,
        Refusal::StackFull => 19,
        Refusal::StackEmpty => 20,
        Refusal::OutputFull => 21,
        Refusal::SubtrahendGreater => 22,
        Refusal::NoWidth => 31,
    }
}
