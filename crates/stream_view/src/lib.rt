// An entry's bytes: a part of the TPI stream or of the IPI stream, both lent, and the leaf that they start with.
#![tactic(auto)]

ghost use Rattle.std.specs.Prelude.{◌≡◌};
ghost use Rattle.stream_view.specs.Views.{part_of, view_of, said_view, view_bytes, kind_at, raw_kind_of};
ghost use Rattle.answer.specs.Refusals.{itself, said};

use answer::Refusal;
use field::fixed;
use field::index::ItemIndex;
use stream_header::LONGEST;
use stream_item::Entry;

// A part of one of the two streams; or no bytes, and why.
#[derive(Clone, Copy)]
pub struct EntryView<'a> {
    pub bytes: &'a [u8],
    pub answer: Result<(usize, usize), Refusal>,
}

// Whether the part of s at this place, of this length, is there.
#[tactic(auto, unfolding(crate::specs::Views::part_of))]
fn inside(s: &[u8], place: usize, length: usize) -> Result<(usize, usize), Refusal>
    ensures { said_view result ≡ part_of s.now place length }
{
    if place > s.len() {
        return Err(Refusal::Ended);
    }
    if length > s.len() - place {
        return Err(Refusal::Ended);
    }
    Ok((place, length))
}

// The leaf that the part starts with.
#[tactic(auto, unfolding(crate::specs::Views::kind_at, field::specs::Fields::fixed_at))]
fn kind_at(s: &[u8], place: usize, length: usize) -> Result<u16, Refusal>
    ensures { said itself result ≡ kind_at s.now place length }
{
    if place > s.len() {
        return Err(Refusal::Ended);
    }
    if length > s.len() - place {
        return Err(Refusal::Ended);
    }
    if length < 2 {
        return Err(Refusal::Ended);
    }
    let (kind, _) = fixed::u16_at(s, place)?;
    Ok(kind)
}

// Where the payload of an entry lies: the answer of `view` alone.
pub fn view_answer<'a>(
    tpi: &'a [u8],
    ipi: &'a [u8],
    entry: Entry,
) -> Result<(usize, usize), Refusal>
    ensures { said_view result ≡ view_of tpi.now ipi.now entry }
{
    if tpi.len() > LONGEST {
        return Err(Refusal::TooLong);
    }
    if ipi.len() > LONGEST {
        return Err(Refusal::TooLong);
    }
    match entry {
        Entry::Record(item) => match item.index {
            ItemIndex::Types(_) => inside(tpi, item.place, item.length),
            ItemIndex::Ids(_) => inside(ipi, item.place, item.length),
        },
        Entry::Marker(index) => Err(Refusal::NotFound(index.number())),
    }
}

// The bytes of `view` alone, for a caller that has no `EntryView` in a local: no bytes where `view_answer` refuses.
#[tactic(auto, unfolding(crate::specs::Views::part_of, field::specs::Runs::bytes_at))]
pub fn bytes_of<'a>(tpi: &'a [u8], ipi: &'a [u8], entry: Entry) -> &'a [u8]
    ensures { result.now ≡ view_bytes tpi.now ipi.now entry }
{
    if tpi.len() > LONGEST {
        return &tpi[0..0];
    }
    if ipi.len() > LONGEST {
        return &tpi[0..0];
    }
    match entry {
        Entry::Record(item) => match item.index {
            ItemIndex::Types(_) => field::run::bytes_at(tpi, item.place, item.length),
            ItemIndex::Ids(_) => field::run::bytes_at(ipi, item.place, item.length),
        },
        Entry::Marker(_) => &tpi[0..0],
    }
}

// The payload of an entry; or no bytes, and why.
pub fn view<'a>(tpi: &'a [u8], ipi: &'a [u8], entry: Entry) -> EntryView<'a>
    ensures { (said_view result.answer ≡ view_of tpi.now ipi.now entry) × (result.bytes.now ≡ view_bytes tpi.now ipi.now entry) }
{
    let bytes = bytes_of(tpi, ipi, entry);
    let answer = view_answer(tpi, ipi, entry);
    EntryView { bytes, answer }
}

// The leaf that an entry starts with: 0xffff, a reserved value, for the marker.
pub fn raw_kind(tpi: &[u8], ipi: &[u8], entry: Entry) -> Result<u16, Refusal>
    ensures { said itself result ≡ raw_kind_of tpi.now ipi.now entry }
{
    if tpi.len() > LONGEST {
        return Err(Refusal::TooLong);
    }
    if ipi.len() > LONGEST {
        return Err(Refusal::TooLong);
    }
    match entry {
        Entry::Record(item) => match item.index {
            ItemIndex::Types(_) => kind_at(tpi, item.place, item.length),
            ItemIndex::Ids(_) => kind_at(ipi, item.place, item.length),
        },
        Entry::Marker(_) => Ok(0xffff),
    }
}
