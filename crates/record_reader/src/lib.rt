// The list reader of document 01: it "holds the record's bytes and walks them", by a cursor. Its methods are thin over `step` and
// `element_from` of record_list; `nth` has plain parameters, so that its callers need no proof by hand.
#![tactic(auto)]

ghost use Rattle.std.specs.Prelude.{◌≡◌};
ghost use Rattle.record_list.specs.Lists.{step_of, element_by, element_of};
ghost use Rattle.record_reader.specs.Reader.{Steps};
ghost use Rattle.answer.specs.Refusals.{said};
ghost use Rattle.record_list.specs.Said.{element_values};

use answer::Refusal;
use field::index::Stream;
use record_list::{Element, ListCursor};

// A record's bytes, and where in them its list is read: one reader for all lists, by the leaf in the cursor.
#[derive(Clone, Copy)]
pub struct ListReader<'a> {
    pub bytes: &'a [u8],
    pub cursor: ListCursor,
}

// What a step in place leaves as the cursor, and what it answers.
#[derive(Clone, Copy)]
pub struct Stepped {
    pub cursor: ListCursor,
    pub answer: Result<Element, Refusal>,
}

fn stepped_at(bytes: &[u8], cursor: ListCursor) -> Stepped
    ensures { Steps cursor (step_of bytes.now cursor) result.answer result.cursor }
{
    match record_list::step(bytes, cursor) {
        Ok((e, next)) => Stepped {
            cursor: next,
            answer: Ok(e),
        },
        Err(x) => Stepped {
            cursor,
            answer: Err(x),
        },
    }
}

impl<'a> ListReader<'a> {
    // The reader at a cursor; `record_list::start` says where a record's list starts, or why it has none.
    pub fn new(bytes: &'a [u8], cursor: ListCursor) -> ListReader<'a>
        ensures { (result.bytes ≡ bytes.entry) × (result.cursor ≡ cursor) }
    {
        ListReader { bytes, cursor }
    }

    // Element k from the cursor on.
    pub fn element(self, k: u32) -> Result<Element, Refusal>
        ensures { said element_values result ≡ element_by (step_of self.entry.bytes.now) k self.entry.cursor }
    {
        record_list::element_from(self.bytes, self.cursor, k)
    }

    // The element at the cursor; the lent reader stands past it after, and where it was after a refusal.
    pub fn step(&mut self) -> Result<Element, Refusal>
        ensures { Steps self.old.cursor (step_of self.old.bytes.now self.old.cursor) result self.new.cursor × (self.new.bytes ≡ self.old.bytes) }
    {
        let t = stepped_at(self.bytes, self.cursor);
        self.cursor = t.cursor;
        t.answer
    }
}

// Element k of a record's list, from its start.
#[tactic(auto, unfolding(record_list::specs::Lists::element_of))]
pub fn nth(stream: Stream, s: &[u8], k: u32) -> Result<Element, Refusal>
    ensures { said element_values result ≡ element_of stream s.now k }
{
    let c = record_list::start(stream, s)?;
    record_list::element_from(s, c, k)
}
