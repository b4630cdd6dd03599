// The finder: it holds where every block of records of a stream starts, so that a record is found by its index. Document 01, "Finder", and
// R-7 of document 02.
//
// Its time and space: a block is 2^shift links, the shift chosen at creation, from 0 to 6. At 3, which `create` takes, one place of 4 bytes
// for 8 records is 4 bits a record, and a lookup starts at its block's place and passes 0 to 7 links, 3.5 on average, each a load of a u16
// and seven instructions. Shift 0, a place for each record, is 32 bits for no link passed; shift 6, blocks of 64, is half a bit for 31.5
// links. Records are short (84% have at most 32 bytes), so that a block of 8 mostly lies in a few cache lines. 500,000 records take 250 KB
// of table at shift 3, 2 MB at 0 and 31 KB at 6.
//
// The places live in a table that the caller lends; the finder itself is a few numbers, and comes and goes by value;
// lent.rt has it lent by `&mut`.
#![tactic(auto, using(crate::proofs::Used::laws))]

pub mod lent;

ghost use Rattle.std.specs.Prelude.{◌≡◌, ◌%◌, ◌^◌, ◌≤◌, length};
ghost use Rattle.field.specs.declared.index.ItemIndex.TheVariants as index;
ghost use Rattle.stream_finder.specs.Finder.{state, begun_in, create_by, create_of, update_of, Fills, max_index_of, look_of, find_of, said_find};

use answer::Refusal;
use field::index::{IdIndex, ItemIndex, TypeIndex};
use stream_header::{Header, LONGEST};
use stream_item::iter::ItemIter;
use stream_item::link::Hit;
use stream_item::{Entry, Item};

// The shift of a finder whose creation names none: blocks of 8 links.
pub const SHIFT: u32 = 3;

// The largest shift: blocks of 64 links.
const LARGEST_SHIFT: u32 = 6;

// The records that a finder is made for, by three numbers: where their first link starts, the least index, and the index behind the last. A
// stream's are its header's.
#[derive(Clone, Copy)]
pub struct Records {
    pub start: u32,
    pub minimum: u32,
    pub maximum: u32,
}

// The finder: the stream's least index, the index behind its last, how many places of the lent table it holds, and its shift: a block is
// 2^shift links.
#[derive(Clone, Copy)]
pub struct ItemFinder {
    pub minimum_index: u32,
    pub maximum_index: u32,
    pub held: usize,
    pub shift: u32,
}

// A fresh finder of a stream, with blocks of 8: it holds the place of the first record, if there is one.
pub fn create(s: &[u8], t: &mut [u32]) -> Result<ItemFinder, Refusal>
    ensures { Fills t.old (create_of s.now t.old) result t.new }
{
    create_by(s, t, SHIFT)
}

// A fresh finder of a stream, with blocks of 2^shift.
pub fn create_by(s: &[u8], t: &mut [u32], shift: u32) -> Result<ItemFinder, Refusal>
    ensures { Fills t.old (create_by shift s.now t.old) result t.new }
{
    let h = Header::parse(s)?;
    let records = Records {
        start: h.header_size,
        minimum: h.minimum_index,
        maximum: h.maximum_index,
    };
    begin(t, records, shift)
}

// A fresh finder of any records: what is fresh is the same wherever they start.
pub fn begin(t: &mut [u32], records: Records, shift: u32) -> Result<ItemFinder, Refusal>
    ensures { Fills t.old (begun_in shift t.old records) result t.new }
{
    let minimum = records.minimum;
    let maximum = records.maximum;
    if shift > LARGEST_SHIFT {
        return Err(Refusal::Shift);
    }
    if maximum <= minimum {
        return Ok(ItemFinder {
            minimum_index: minimum,
            maximum_index: maximum,
            held: 0,
            shift,
        });
    }
    if t.len() == 0 {
        return Err(Refusal::TableFull);
    }
    t[0] = records.start;
    Ok(ItemFinder {
        minimum_index: minimum,
        maximum_index: maximum,
        held: 1,
        shift,
    })
}

// The links that a lookup at distance d passes in its block: d mod 2^shift.
fn rest_of(d: u32, shift: u32) -> u32
    requires { shift ≤ 6 }
    ensures { result ≡ d % 2 ^ shift }
{
    d & ((1 << shift) - 1)
}

// The finder after an iterator came to a record: it holds the record's place if that starts the next block.
pub fn update(f: ItemFinder, t: &mut [u32], c: ItemIter) -> Result<ItemFinder, Refusal>
    ensures { Fills t.old (update_of (state f t.old) c) result t.new }
{
    let at = c.at;
    let index = c.index;
    let minimum = f.minimum_index;
    let held = f.held;
    let shift = f.shift;
    if at > LONGEST {
        return Err(Refusal::TooLong);
    }
    if shift > LARGEST_SHIFT {
        return Err(Refusal::Shift);
    }
    if held > t.len() {
        return Err(Refusal::TableFull);
    }
    if index < minimum {
        return Err(Refusal::ForeignCursor);
    }
    // the quotient first: of an iterator's records it is the places held only where a block starts
    let d = index - minimum;
    if (d >> shift) as usize != held {
        return Ok(f);
    }
    if rest_of(d, shift) != 0 {
        return Ok(f);
    }
    if held == t.len() {
        return Err(Refusal::TableFull);
    }
    let place = at as u32;
    t[held] = place;
    let more = held + 1;
    Ok(ItemFinder {
        minimum_index: minimum,
        maximum_index: f.maximum_index,
        held: more,
        shift,
    })
}

impl ItemFinder {
    // The highest index that the held places serve, by number.
    fn highest(self) -> u32
        ensures { result ≡ max_index_of self }
    {
        let held = self.held;
        let minimum = self.minimum_index;
        let shift = self.shift;
        if shift > LARGEST_SHIFT {
            return 0;
        }
        if held == 0 {
            return 0;
        }
        if held > 4294967295 {
            return 4294967295;
        }
        let top = (held << shift) + (minimum as usize) - 1;
        if top > 4294967295 {
            return 4294967295;
        }
        top as u32
    }

    // The highest index that the held places serve: of what is below it some may still be past the stream's end.
    pub fn max_type_index(self) -> TypeIndex
        ensures { result.0 ≡ max_index_of self }
    {
        TypeIndex(self.highest())
    }

    pub fn max_id_index(self) -> IdIndex
        ensures { result.0 ≡ max_index_of self }
    {
        IdIndex(self.highest())
    }
}

// The type of an index: s is the TPI stream, f its finder.
pub fn find_type(s: &[u8], f: ItemFinder, t: &[u32], i: TypeIndex) -> Result<(Entry, u32), Refusal>
    ensures { said_find result ≡ find_of s.now (state f t.now) (index.Types i) }
{
    find(s, f, t, ItemIndex::Types(i))
}

// The id of an index: s is the IPI stream, f its finder.
pub fn find_id(s: &[u8], f: ItemFinder, t: &[u32], i: IdIndex) -> Result<(Entry, u32), Refusal>
    ensures { said_find result ≡ find_of s.now (state f t.now) (index.Ids i) }
{
    find(s, f, t, ItemIndex::Ids(i))
}

// The record of an index, or the marker below the minimum, with the links passed on the way.
fn find(s: &[u8], f: ItemFinder, t: &[u32], i: ItemIndex) -> Result<(Entry, u32), Refusal>
    ensures { said_find result ≡ find_of s.now (state f t.now) i }
{
    let minimum = f.minimum_index;
    let maximum = f.maximum_index;
    let held = f.held;
    let n = i.number();
    if s.len() > LONGEST {
        return Err(Refusal::TooLong);
    }
    if f.shift > LARGEST_SHIFT {
        return Err(Refusal::Shift);
    }
    if t.len() < held {
        return Err(Refusal::TableFull);
    }
    if n < minimum {
        return Ok((Entry::Marker(i), 0));
    }
    if n > maximum {
        return Err(Refusal::NotFound(n));
    }
    walked(s, f, t, i, n)
}

// The same of an index that is in the stream's range, where nothing refuses the call. A function of its own, so that the walk is not behind
// all of the tests: what is, the compiler takes for rarely done, and calls where it could inline.
fn walked(s: &[u8], f: ItemFinder, t: &[u32], i: ItemIndex, n: u32) -> Result<(Entry, u32), Refusal>
    requires { (length s.now ≤ 4294967294) × (f.shift ≤ 6) × (f.held ≤ length t.now) × (f.minimum_index ≤ n) × (n ≤ f.maximum_index) }
    ensures { said_find result ≡ look_of s.now (state f t.now) i n }
{
    let held = f.held;
    let shift = f.shift;
    let d = n - f.minimum_index;
    let block = (d >> shift) as usize;
    if block >= held {
        return Err(Refusal::NotIndexed(n, f.highest()));
    }
    let k = rest_of(d, shift);
    let p = t[block] as usize;
    match stream_item::link::link_of(s, p, k) {
        Hit::Landed(place, length) => Ok((
            Entry::Record(Item {
                index: i,
                place,
                length,
            }),
            k,
        )),
        Hit::Missed(passed) => Err(Refusal::EndedAfter(passed)),
    }
}
