// Indexing a whole stream: the loop that every user of a finder writes. Each turn takes the iterator one record on and updates the finder
// with the cursor behind it; the walk ends where the iterator is done, or at the first refusal of either, such as a table that is full.
#![tactic(auto, using(crate::proofs::Used::laws))]

ghost use Rattle.stream_finder.specs.Finder.{state};
ghost use Rattle.stream_index.specs.Walk.{turn_of, Leads, Walks, IndexesBy, Indexes};

use answer::Refusal;
use field::index::Stream;
use stream_finder::ItemFinder;
use stream_item::iter;
use stream_item::iter::ItemIter;

// Where a walk ended: after a refusal, finder, cursor and table are as before the turn that was refused, so that the walk can go on from
// there, with a longer table for example.
#[derive(Clone, Copy)]
pub struct Tour {
    pub finder: ItemFinder,
    pub cursor: ItemIter,
    pub end: Result<(), Refusal>,
}

// One record on, and the finder updated; refused by either, it changes nothing.
pub fn next_and_update(
    s: &[u8],
    f: ItemFinder,
    t: &mut [u32],
    c: ItemIter,
) -> Result<Option<(ItemFinder, ItemIter)>, Refusal>
    ensures { Leads t.old (turn_of s.now (state f t.old) c) result t.new }
{
    match iter::next(s, c)? {
        Some((_, d)) => {
            let g = stream_finder::update(f, t, d)?;
            Ok(Some((g, d)))
        }
        None => Ok(None),
    }
}

// As many turns as there are, from any finder and any cursor.
pub fn index_on(s: &[u8], f: ItemFinder, t: &mut [u32], c: ItemIter) -> Tour
    ensures { Walks s.now c (state f t.old) result t.new }
{
    let mut finder = f;
    let mut cursor = c;
    loop {
        match next_and_update(s, finder, t, cursor) {
            Ok(Some((g, d))) => {
                finder = g;
                cursor = d;
            }
            Ok(None) => {
                return Tour {
                    finder,
                    cursor,
                    end: Ok(()),
                };
            }
            Err(e) => {
                return Tour {
                    finder,
                    cursor,
                    end: Err(e),
                };
            }
        }
    }
}

// A whole stream, from a fresh finder with blocks of 8 and a fresh iterator.
pub fn index_all(stream: Stream, s: &[u8], t: &mut [u32]) -> Result<Tour, Refusal>
    ensures { Indexes stream s.now t.old result t.new }
{
    index_all_by(stream, s, t, stream_finder::SHIFT)
}

// The same with blocks of 2^shift.
pub fn index_all_by(stream: Stream, s: &[u8], t: &mut [u32], shift: u32) -> Result<Tour, Refusal>
    ensures { IndexesBy shift stream s.now t.old result t.new }
{
    let c = iter::iter(stream, s)?;
    let f = stream_finder::create_by(s, t, shift)?;
    Ok(index_on(s, f, t, c))
}
