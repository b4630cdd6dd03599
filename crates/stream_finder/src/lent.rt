// The finder lent by `&mut`, as document 01 has it: "`update` changes the finder in place". Thin over the update by value, which is what callers
// inside this repository use: a caller of a lent form takes a proof by hand.
ghost use Rattle.stream_finder.specs.Finder.{state};
ghost use Rattle.stream_finder.specs.Lent.{Updates};

use crate::ItemFinder;
use answer::Refusal;
use stream_item::iter::ItemIter;

// What an update answers, and the finder after it.
#[derive(Clone, Copy)]
pub struct UpdateStep {
    pub answer: Result<(), Refusal>,
    pub finder: ItemFinder,
}

// The work, by value.
fn updated(f: ItemFinder, t: &mut [u32], c: ItemIter) -> UpdateStep
    ensures { Updates (state f t.old) c result.answer (state result.finder t.new) }
{
    match crate::update(f, t, c) {
        Ok(g) => UpdateStep {
            answer: Ok(()),
            finder: g,
        },
        Err(e) => UpdateStep {
            answer: Err(e),
            finder: f,
        },
    }
}

impl ItemFinder {
    // The lent finder holds the place of the record that an iterator came to, if that starts the next block.
    pub fn update(&mut self, t: &mut [u32], c: ItemIter) -> Result<(), Refusal>
        ensures { Updates (state self.old t.old) c result (state self.new t.new) }
    {
        let u = updated(*self, t, c);
        *self = u.finder;
        u.answer
    }
}
