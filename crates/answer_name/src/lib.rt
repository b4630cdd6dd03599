// The names of the refusals, for people to read beside the numbers; docs/NUMBERS.md has the same.
#![tactic(auto, unfolding(crate::specs::Names::name_text))]

ghost use Rattle.std.specs.Prelude.{◌≡◌};
ghost use Rattle.answer_name.specs.Names.{name_text};

use answer::Refusal;

// The name of a refusal. A number has one name, whatever comes with it.
pub fn name_of(e: Refusal) -> &'static str
    ensures { result.now ≡ name_text e }
{
    match e {
        Refusal::Ended => "ended",
        Refusal::EndedAfter(_) => "ended",
        Refusal::HeaderSmall => "header small",
        Refusal::HeaderLarge => "header large",
        Refusal::MinimumLow => "minimum low",
        Refusal::MaximumLow => "maximum low",
        Refusal::TooShort => "too short",
        Refusal::IndicesUsedUp => "indices used up",
        Refusal::NotFound(_) => "not found",
        Refusal::NotIndexed(_, _) => "not indexed",
        Refusal::LeafUnknown(_) => "leaf unknown",
        Refusal::NumberBad => "number bad",
        Refusal::PointerWord => "pointer word",
        Refusal::TableFull => "table full",
        Refusal::ForeignCursor => "foreign cursor",
        Refusal::NoSuchElement => "no such element",
        Refusal::TooLong => "too long",
        Refusal::WouldNotReadBack => "would not read back",
        Refusal::RecordTooLong => "record too long",
        Refusal::NoRoom => "no room",
        Refusal::FileWrong => "file wrong",
        Refusal::AnotherStream => "another stream",
        Refusal::OffTheChain => "off the chain",
        Refusal::TooDeep => "too deep",
        Refusal::LeafNotPrinted => "leaf not printed",
        Refusal::Signature => "signature",
        Refusal::Shift => "shift",
        Refusal::TotalTooLarge => "total too large",
        Refusal::LeavesFull => "leaves full",
        Refusal::NotFit => "not fit",
        Refusal::ReadsAsNone => "reads as none",
    }
}
