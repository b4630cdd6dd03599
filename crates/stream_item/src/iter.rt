// The iterator over a stream's records: document 01, "Links and the iterator". It comes and goes by value.
ghost use Rattle.std.specs.Prelude.{◌≡◌, ◌+◌, ◌≤◌, ◌<◌, length};
ghost use Rattle.answer.specs.Answer.{answered};
ghost use Rattle.stream_item.specs.Iterator.{iter_of, over_record, next_of, said_next};
ghost use Rattle.answer.specs.Refusals.{itself, said};

use crate::{Item, length_at};
use answer::Refusal;
use field::index::Stream;
use stream_header::{Header, LONGEST};

// The cursor: where the next record starts, and the index it will have. Any cursor may be given; `index` is the count that `next` goes
// on from, and the item that it yields has it as an ItemIndex.
#[derive(Clone, Copy)]
pub struct ItemIter {
    pub stream: Stream,
    pub at: usize,
    pub index: u32,
}

// A fresh iterator over a stream: it stands behind the header, at the minimum index.
pub fn iter(stream: Stream, s: &[u8]) -> Result<ItemIter, Refusal>
    ensures { said itself result ≡ iter_of stream s.now }
{
    let h = Header::parse(s)?;
    Ok(ItemIter {
        stream,
        at: h.header_size as usize,
        index: h.minimum_index,
    })
}

// The record at the cursor, and the cursor behind it. The tests stand in the order that a walk is fastest by; what each refusal comes after in
// document 01's order is asked again where it is refused.
pub fn next(s: &[u8], c: ItemIter) -> Result<Option<(Item, ItemIter)>, Refusal>
    ensures { said_next result ≡ next_of s.now c }
{
    let at = c.at;
    let index = c.index;
    if s.len() > LONGEST {
        return Err(Refusal::TooLong);
    }
    if s.len() < 2 {
        return no_length(s, c);
    }
    if at > s.len() - 2 {
        return no_length(s, c);
    }
    let n = length_at(s, at);
    let after = at + 2 + n;
    if index == 4294967295 {
        if n < 2 {
            return Err(Refusal::TooShort);
        }
        if after > s.len() {
            return Err(Refusal::Ended);
        }
        return Err(Refusal::IndicesUsedUp);
    }
    if after > s.len() {
        if n < 2 {
            return Err(Refusal::TooShort);
        }
        return Err(Refusal::Ended);
    }
    if n < 2 {
        return Err(Refusal::TooShort);
    }
    stepped(c, n)
}

// Where not even a length is left: the end, or a byte before it, or past it.
fn no_length(s: &[u8], c: ItemIter) -> Result<Option<(Item, ItemIter)>, Refusal>
    requires { (length s.now ≤ 4294967294) × (length s.now < c.at + 2) }
    ensures { said_next result ≡ next_of s.now c }
{
    if c.at == s.len() {
        return Ok(None);
    }
    Err(Refusal::Ended)
}

// The step over a record of n bytes that is all there.
fn stepped(c: ItemIter, n: usize) -> Result<Option<(Item, ItemIter)>, Refusal>
    requires { (c.at + 2 + n ≤ 4294967294) × (c.index < 4294967295) }
    ensures { said_next result ≡ answered (over_record c n) }
{
    let stream = c.stream;
    let index = c.index;
    let place = c.at + 2;
    let named = stream.index(index);
    let after = place + n;
    let following = index + 1;
    Ok(Some((
        Item {
            index: named,
            place,
            length: n,
        },
        ItemIter {
            stream,
            at: after,
            index: following,
        },
    )))
}
