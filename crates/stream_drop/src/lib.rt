// Drop what nobody names: document 02, R-13. Of a type stream that is fit to bind, the records that some roots reach through type references go into
// a lent buffer, renumbered without holes; a lent table, an entry for each record, says old to new. Nothing else is stored: the table is all the
// memory there is. One walk that asks whether the stream is fit, one for the lengths, one pass down over what is marked, and one up over what is
// kept: linear in the stream and the roots. specs/Drop.antt has the definition, specs/Sentences.antt what it is good for.
#![tactic(auto, using(crate::proofs::Used::laws), unfolding(field_put::specs::Bytes::Octets, record_list::specs::Lists::start_of, crate::specs::Each::done_all))]

mod each;
mod passes;

ghost use Rattle.std.specs.Prelude.{suc, ◌+◌, ◌≤◌, true, ◌≡◌, length, drop};
ghost use Rattle.answer.specs.Answer.{answered};
ghost use Rattle.field.specs.declared.index.Stream.TheVariants as stream;
ghost use Rattle.stream_header.specs.Header.{header_of};
ghost use Rattle.stream_item.specs.Iterator.{iter_of};
ghost use Rattle.stream_fit.specs.Fit.{fit, fit_of};
ghost use Rattle.stream_prune.specs.Links.{payloads_from};
ghost use Rattle.stream_drop.specs.Each.{held_of};
ghost use Rattle.stream_drop.specs.Passes.{numbered_to, number_from, marked_in, asked_in, written_in};
ghost use Rattle.stream_drop.specs.Drop.{first_above, dropped_of, drop_of, Drops};

use answer::Refusal;
use field::index::Stream;
use passes::Count;
use stream_fit::Fitness;
use stream_header::Header;
use stream_item::iter;
use stream_item::iter::ItemIter;

// The first root at or above the maximum.
fn first_above(roots: &[u32], maximum: u32) -> Option<u32>
    ensures { result ≡ first_above maximum roots.now }
{
    for x in roots {
        if maximum <= *x {
            return Some(*x);
        }
    }
    None
}

// The new numbers of n records into the table.
fn renumber(
    s: &[u8],
    c: ItemIter,
    minimum: u32,
    n: usize,
    roots: &[u32],
    table: &mut [u32],
    out: &mut [u8],
) -> Count
    requires { minimum + n ≤ 4294967295 }
    ensures { (numbered_to table.new result ≡ number_from n 0 (record { table = (marked_in minimum s.now n (payloads_from n s.now c) roots.now table.old out.old).table; next = minimum; bytes = 0 })) × (out.new ≡ (marked_in minimum s.now n (payloads_from n s.now c) roots.now table.old out.old).out) }
{
    passes::lengths(s, c, n, table);
    passes::mark_roots(roots, minimum, table);
    passes::down(s, minimum, n, table, out);
    passes::number(table, minimum, n)
}

// Whether no optional reference would read as none.
fn asked(
    s: &[u8],
    c: ItemIter,
    minimum: u32,
    n: usize,
    next: u32,
    start: usize,
    table: &mut [u32],
    out: &mut [u8],
) -> bool
    requires { (n ≤ 4294967295) × (start ≤ 4294967295) }
    ensures { held_of result table.new out.new ≡ asked_in minimum next start (payloads_from n s.now c) (held_of true table.old out.old) }
{
    if next <= 0xffff {
        true
    } else {
        passes::up(s, c, minimum, n, false, start, table, out)
    }
}

// The header, with its new maximum, and the kept records.
fn write(
    s: &[u8],
    c: ItemIter,
    minimum: u32,
    n: usize,
    next: u32,
    start: usize,
    table: &mut [u32],
    out: &mut [u8],
) -> bool
    requires { (n ≤ 4294967295) × (start ≤ 4294967295) }
    ensures { held_of result table.new out.new ≡ written_in minimum next start s.now (payloads_from n s.now c) table.old out.old }
{
    let head = field::run::bytes_at(s, 0, start);
    field_put::put_all(out, 0, head);
    field_put::put32(out, 12, next);
    passes::up(s, c, minimum, n, true, start, table, out)
}

// What `drop` answers of a stream that is fit, with this header and this first cursor.
fn dropped(
    s: &[u8],
    h: Header,
    c: ItemIter,
    roots: &[u32],
    table: &mut [u32],
    out: &mut [u8],
) -> Result<usize, Refusal>
    requires { (header_of s.now ≡ answered h) × (iter_of stream.Types s.now ≡ answered c) × (fit_of s.now ≡ answered fit) }
    ensures { Drops table.old out.old (dropped_of s.now h (payloads_from (suc (length s.now)) s.now c) roots.now (length table.old) (length out.old)) result table.new out.new }
{
    let minimum = h.minimum_index;
    let start = h.header_size as usize;
    match first_above(roots, h.maximum_index) {
        Some(x) => Err(Refusal::NotFound(x)),
        None => {
            let n = (h.maximum_index - minimum) as usize;
            if table.len() < n {
                return Err(Refusal::TableFull);
            }
            if s.len() == 0 {
                return Ok(0);
            }
            let k = renumber(s, c, minimum, n, roots, table, out);
            if !asked(s, c, minimum, n, k.next, start, table, out) {
                return Err(Refusal::ReadsAsNone);
            }
            let size = start + k.bytes;
            if out.len() < size {
                return Err(Refusal::NoRoom);
            }
            write(s, c, minimum, n, k.next, start, table, out);
            Ok(size)
        }
    }
}

// The stream of the records that the roots reach, from place 0 of the buffer. Refused: 16 and what the header refuses; 29 where R-9 says no; 8 with
// the first root at or above the maximum; 13 where the table has fewer entries than the stream records; 30 where an optional reference would become
// 0xffff; 19. Up to 13 the table is as it was; after 30 and 19, as after an answer, its first entries hold old to new, 0 for a record that is dropped.
pub fn drop(s: &[u8], roots: &[u32], table: &mut [u32], out: &mut [u8]) -> Result<usize, Refusal>
    ensures { Drops table.old out.old (drop_of s.now roots.now (length table.old) (length out.old)) result table.new out.new }
{
    let h = Header::parse(s)?;
    let c = iter::iter(Stream::Types, s)?;
    match stream_fit::fit(s)? {
        Fitness::Unfit(_, _) => Err(Refusal::NotFit),
        Fitness::Fit => dropped(s, h, c, roots, table, out),
    }
}
