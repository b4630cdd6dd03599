// A finder, a cursor, an entry and a walk, as C gives and gets them: definitions in specs/, laws in proofs/. Streams and sections are walked alike, so what
// goes behind `out` for a walk stands here, once for both.
#![tactic(auto)]

ghost use Rattle.std.specs.Prelude.{◌≡◌, ◌∷◌};
ghost use Rattle.stream_index.specs.Walk.{said_end};
ghost use Rattle.pane_state.specs.Given.{cursor_at, finder_with};
ghost use Rattle.pane_state.specs.Entries.{index_of_stream, entry_at};
ghost use Rattle.pane_state.specs.Finders.{finder_fields};
ghost use Rattle.pane_state.specs.Walk.{end_fields, tour_out};

use answer::Refusal;
use field::index::{IdIndex, ItemIndex, Stream, TypeIndex};
use stream_finder::ItemFinder;
use stream_index::Tour;
use stream_item::iter::ItemIter;
use stream_item::{Entry, Item};

// A cursor that C gives.
pub fn cursor_given(at: usize, index: u32) -> ItemIter
    ensures { result ≡ cursor_at at index }
{
    ItemIter {
        stream: Stream::Types,
        at,
        index,
    }
}

// A finder that C gives, beside its table.
pub fn finder_given(minimum: u32, maximum: u32, held: usize, shift: u32) -> ItemFinder
    ensures { result ≡ finder_with minimum maximum held shift }
{
    ItemFinder {
        minimum_index: minimum,
        maximum_index: maximum,
        held,
        shift,
    }
}

// What goes behind `out` for a finder: no details; its minimum and maximum, how many places it holds, and its shift.
pub fn finder_out(f: ItemFinder) -> [u64; 6]
    ensures { result ≡ 0 ∷ 0 ∷ finder_fields f }
{
    [
        0,
        0,
        f.minimum_index as u64,
        f.maximum_index as u64,
        f.held as u64,
        f.shift as u64,
    ]
}

// How a walk ended: 0 where no record was left, else the refusal's number; and its two details.
fn ending(end: Result<(), Refusal>) -> [u64; 3]
    ensures { result ≡ end_fields (said_end end) }
{
    match end {
        Ok(()) => [0, 0, 0],
        Err(e) => [e.number() as u64, pane_out::first(e), pane_out::second(e)],
    }
}

// What goes behind `out` for a walk: no details; the finder's minimum and maximum, how many places it holds, and its shift; the cursor behind the last
// record, its place and index; and how the walk ended.
pub fn walk_out(t: Tour) -> [u64; 11]
    ensures { result ≡ tour_out t }
{
    let [number, first, second] = ending(t.end);
    [
        0,
        0,
        t.finder.minimum_index as u64,
        t.finder.maximum_index as u64,
        t.finder.held as u64,
        t.finder.shift as u64,
        t.cursor.at as u64,
        t.cursor.index as u64,
        number,
        first,
        second,
    ]
}

// The index that C names: of the id stream where `ids` is set, else of the type stream.
fn index_of(ids: u32, index: u32) -> ItemIndex
    ensures { result ≡ index_of_stream ids index }
{
    if pane_out::is_set(ids) {
        ItemIndex::Ids(IdIndex(index))
    } else {
        ItemIndex::Types(TypeIndex(index))
    }
}

// The entry that C names.
pub fn entry_of(ids: u32, item: u32, index: u32, place: usize, length: usize) -> Entry
    ensures { result ≡ entry_at ids item index place length }
{
    let index = index_of(ids, index);
    if pane_out::is_set(item) {
        Entry::Record(Item {
            index,
            place,
            length,
        })
    } else {
        Entry::Marker(index)
    }
}
