// What an entry of a section says: R-6 of document 02. "An object file numbers types and ids in one run; each item goes to the reader that
// takes its leaf": the id reader for the seven id leaves, the type reader for all others. So do the lists of records.
#![tactic(auto, using(crate::proofs::Used::laws), unfolding(answer::specs::Tables::find, record_layout::specs::Layouts::id_leaves, crate::specs::Readers::read_of, crate::specs::Readers::reader_at, crate::specs::Readers::reader_of, crate::specs::Readers::tag_of))]

ghost use Rattle.std.specs.Prelude.{◌≡◌};
ghost use Rattle.record_list.specs.Lists.{start_of};
ghost use Rattle.record_parse.specs.Record.{said_parse};
ghost use Rattle.section_read.specs.Readers.{reader_of, reader_at, tag_of, sorted_of, read_of};
ghost use Rattle.answer.specs.Refusals.{itself, said};

use answer::Refusal;
use field::fixed;
use field::index::{ItemIndex, Stream};
use record_layout::{
    LF_BUILDINFO, LF_FUNC_ID, LF_MFUNC_ID, LF_STRING_ID, LF_SUBSTR_LIST, LF_UDT_MOD_SRC_LINE,
    LF_UDT_SRC_LINE,
};
use record_list::ListCursor;
use record_parse::EntryData;
use stream_item::{Entry, Item};

// The stream whose reader takes a leaf.
fn reader(leaf: u16) -> Stream
    ensures { result ≡ reader_of leaf }
{
    if leaf == LF_FUNC_ID {
        return Stream::Ids;
    }
    if leaf == LF_MFUNC_ID {
        return Stream::Ids;
    }
    if leaf == LF_BUILDINFO {
        return Stream::Ids;
    }
    if leaf == LF_SUBSTR_LIST {
        return Stream::Ids;
    }
    if leaf == LF_STRING_ID {
        return Stream::Ids;
    }
    if leaf == LF_UDT_SRC_LINE {
        return Stream::Ids;
    }
    if leaf == LF_UDT_MOD_SRC_LINE {
        return Stream::Ids;
    }
    Stream::Types
}

// The same of the leaf at a place; what has none goes to the type reader, which refuses it.
fn reader_at(s: &[u8], p: usize) -> Stream
    ensures { result ≡ reader_at s.now p }
{
    let Ok((leaf, _)) = fixed::u16_at(s, p) else {
        return Stream::Types;
    };
    reader(leaf)
}

// The same of a record by its number and its place; what is below 0x1000 is a primitive, which the type reader reads.
fn tag(s: &[u8], n: u32, p: usize) -> Stream
    ensures { result ≡ tag_of s.now n p }
{
    if n < 0x1000 {
        return Stream::Types;
    }
    reader_at(s, p)
}

// The entry under the tag of the reader that takes it, whatever its tag was.
fn sorted(s: &[u8], entry: Entry) -> Entry
    ensures { result ≡ sorted_of s.now entry }
{
    match entry {
        Entry::Record(item) => {
            let index = item.index;
            let n = index.number();
            let place = item.place;
            let length = item.length;
            let stream = tag(s, n, place);
            let named = stream.index(n);
            Entry::Record(Item {
                index: named,
                place,
                length,
            })
        }
        Entry::Marker(index) => Entry::Marker(Stream::Types.index(index.number())),
    }
}

// The entry's data: the section is lent as both streams.
pub fn parse(s: &[u8], entry: Entry) -> Result<EntryData, Refusal>
    ensures { said_parse result ≡ read_of s.now entry }
{
    let e = sorted(s, entry);
    record_parse::parse(s, s, e)
}

// The list of a record, by its bytes, at its first element; `step` and `element_from` of crates/record_list go on from there.
pub fn start(bytes: &[u8]) -> Result<ListCursor, Refusal>
    ensures { said itself result ≡ start_of (reader_at bytes.now 0) bytes.now }
{
    let stream = reader_at(bytes, 0);
    record_list::start(stream, bytes)
}
