// Items of a TPI or IPI stream: where an item's bytes lie, and the marker that stands for an index below the stream's minimum.
// link.rt has the links that records lie in, iter.rt the iterator over them, information.rt a stream's count.
// An item's bytes are given by the crate stream_view.
#![tactic(auto, using(crate::proofs::Used::laws), unfolding(crate::specs::Information::is_empty_of, crate::specs::Information::len_of, crate::specs::Iterator::iter_of))]

pub mod information;
pub mod iter;
pub mod link;

ghost use Rattle.std.specs.Prelude.{◌≡◌, ◌+◌, ◌≤◌, ◌<◌, eqb, length};
ghost use Rattle.field.specs.Fields.{little_at};
ghost use Rattle.stream_item.specs.Items.{index_of, length_of};

use field::fixed;
use field::index::ItemIndex;

// A record of a stream: its index, and where its payload lies in the stream that the index names.
#[derive(Clone, Copy)]
pub struct Item {
    pub index: ItemIndex,
    pub place: usize,
    pub length: usize,
}

// What an index names: a record, or the marker, which has an index but no bytes in either stream.
#[derive(Clone, Copy)]
pub enum Entry {
    Record(Item),
    Marker(ItemIndex),
}

impl Entry {
    // The index that the entry was named by.
    pub fn index(self) -> ItemIndex
        ensures { result ≡ index_of self }
    {
        match self {
            Entry::Record(item) => item.index,
            Entry::Marker(index) => index,
        }
    }

    // The payload's length; the marker has 2.
    pub fn len(self) -> usize
        ensures { result ≡ length_of self }
    {
        match self {
            Entry::Record(item) => item.length,
            Entry::Marker(_) => 2,
        }
    }

    pub fn is_empty(self) -> bool
        ensures { result ≡ eqb (length_of self) 0 }
    {
        self.len() == 0
    }
}

// The length that a link starts with, where it is known to be there.
#[tactic(auto, unfolding(field::specs::Fields::little_at))]
fn length_at(s: &[u8], p: usize) -> usize
    requires { p + 2 ≤ length s.now }
    ensures { (result ≡ little_at 2 s.now p) × (result < 65536) }
{
    (s[p] as usize) + 256 * (s[p + 1] as usize)
}
