// The records of a section of an object file: R-6 of document 02. A `.debug$T` section is a u32 signature of 4, and then the same
// length-and-payload records as a type stream has, numbered from 0x1000. Only where a walk starts is new: `next`, `update` and `find` are
// the streams' own.
#![tactic(auto, using(crate::proofs::Used::laws))]

ghost use Rattle.std.specs.Prelude.{◌≡◌, ◌≤◌, length};
ghost use Rattle.field.specs.Fields.{little_at};
ghost use Rattle.section_item.specs.Sections.{section_start, last_of, count_of};
ghost use Rattle.answer.specs.Refusals.{itself, said};

use answer::Refusal;
use field::fixed;
use field::index::Stream;
use stream_header::LONGEST;
use stream_item::iter;
use stream_item::iter::ItemIter;

// The signature of a section whose records are numbered and laid out as a type stream's are.
const SIGNATURE: u32 = 4;

// Where the records start: behind the signature.
pub const START: u32 = 4;

// The first record's index.
pub const FIRST: u32 = 0x1000;

// The number at the start of a section that has four bytes.
fn signature(s: &[u8]) -> u32
    requires { 4 ≤ length s.now }
    ensures { result ≡ little_at 4 s.now 0 }
{
    match fixed::u32_at(s, 0) {
        Ok((x, _)) => x,
        Err(_) => 0,
    }
}

// A fresh iterator over a section: it stands behind the signature, at 0x1000. Types and ids are numbered in one run, and the items carry
// the type stream's tag.
pub fn iter(s: &[u8]) -> Result<ItemIter, Refusal>
    ensures { said itself result ≡ section_start s.now }
{
    if s.len() > LONGEST {
        return Err(Refusal::TooLong);
    }
    if s.len() < 4 {
        return Err(Refusal::Ended);
    }
    if signature(s) != SIGNATURE {
        return Err(Refusal::Signature);
    }
    Ok(ItemIter {
        stream: Stream::Types,
        at: START as usize,
        index: FIRST,
    })
}

// Where a walk from a cursor ends: behind the last record, or at the first refusal.
fn last(s: &[u8], c: ItemIter) -> Result<ItemIter, Refusal>
    ensures { said itself result ≡ last_of s.now c }
{
    let mut d = c;
    while let Some((_, behind)) = iter::next(s, d)? {
        d = behind;
    }
    Ok(d)
}

// The number of records, by a whole walk: a section has no count of its own.
pub fn len(s: &[u8]) -> Result<u32, Refusal>
    ensures { said itself result ≡ count_of s.now }
{
    let c = iter(s)?;
    let d = last(s, c)?;
    Ok(d.index - FIRST)
}
