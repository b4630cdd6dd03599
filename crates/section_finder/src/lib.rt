// The finder over a section of an object file: R-6 of document 02. It counts the records by a whole walk first, since a section does not say
// how many it has; then it is the streams' own finder, with 4 for the start, 0x1000 for the least index and 0x1000 plus the records for the
// one behind the last. `update`, `find_type` and `max_type_index` are those of crates/stream_finder, on the section's bytes.
#![tactic(auto, using(crate::proofs::Used::laws))]

ghost use Rattle.stream_finder.specs.Finder.{Fills};
ghost use Rattle.section_finder.specs.Finders.{section_create_by, section_create_of, SectionIndexesBy, SectionIndexes};

use answer::Refusal;
use field::index::Stream;
use section_item::{FIRST, START};
use stream_finder::{ItemFinder, Records};
use stream_index::Tour;
use stream_item::iter::ItemIter;

// A fresh finder of a section, with blocks of 8: it holds the place of the first record, if there is one.
pub fn create(s: &[u8], t: &mut [u32]) -> Result<ItemFinder, Refusal>
    ensures { Fills t.old (section_create_of s.now t.old) result t.new }
{
    create_by(s, t, stream_finder::SHIFT)
}

// The same with blocks of 2^shift.
pub fn create_by(s: &[u8], t: &mut [u32], shift: u32) -> Result<ItemFinder, Refusal>
    ensures { Fills t.old (section_create_by shift s.now t.old) result t.new }
{
    let n = section_item::len(s)?;
    let records = Records {
        start: START,
        minimum: FIRST,
        maximum: FIRST + n,
    };
    stream_finder::begin(t, records, shift)
}

// A whole section indexed, with blocks of 8.
pub fn index_all(s: &[u8], t: &mut [u32]) -> Result<Tour, Refusal>
    ensures { SectionIndexes s.now t.old result t.new }
{
    index_all_by(s, t, stream_finder::SHIFT)
}

// The same with blocks of 2^shift: a second walk, which fills the finder that the first one was counted for.
pub fn index_all_by(s: &[u8], t: &mut [u32], shift: u32) -> Result<Tour, Refusal>
    ensures { SectionIndexesBy shift s.now t.old result t.new }
{
    let f = create_by(s, t, shift)?;
    let first = ItemIter {
        stream: Stream::Types,
        at: START as usize,
        index: FIRST,
    };
    Ok(stream_index::index_on(s, f, t, first))
}
