// The passes over the records of a stream: their lengths into the table, the marks of the roots, one pass down that marks what is named, the new
// numbers, and one pass up. specs/Passes.antt has what each leaves. The table's entry of a record holds its payload's length, 65,536
// above it once the record is marked, and at last its new number.
ghost use Rattle.std.specs.Prelude.{◌+◌, ◌-◌, ◌%◌, ◌≤◌, true, ◌≡◌, length, set};
ghost use Rattle.stream_prune.specs.Links.{payloads_from};
ghost use Rattle.stream_drop.specs.Each.{held_of};
ghost use Rattle.stream_drop.specs.Passes.{lengths_in, roots_in, rooted, visited, down_from, numbered_to, numbered_at, number_from, link_laid, up_at, place_behind, up_from};

use crate::each;
use crate::each::Job;
use stream_item::iter;
use stream_item::iter::ItemIter;

// a less b, 0 where b is more.
fn less(a: usize, b: usize) -> usize
    ensures { result ≡ a - b }
{
    a.saturating_sub(b)
}

// A number at place i of the table; nothing past its end.
fn store(table: &mut [u32], i: usize, n: u32)
    ensures { table.new ≡ set table.old i n }
{
    if i < table.len() {
        table[i] = n;
    }
}

// The lengths of the payloads of n records into the table.
pub fn lengths(s: &[u8], c: ItemIter, n: usize, table: &mut [u32])
    ensures { table.new ≡ lengths_in 0 (payloads_from n s.now c) table.old }
{
    let mut here = c;
    for i in 0..n {
        let Ok(Some((item, next))) = iter::next(s, here) else {
            return;
        };
        let payload = field::run::bytes_at(s, item.place, item.length);
        store(table, i, (payload.len() % 65536) as u32);
        here = next;
    }
}

// The mark of a root; what is below the minimum names no record.
fn root(table: &mut [u32], minimum: u32, x: u32)
    ensures { table.new ≡ rooted minimum x table.old }
{
    if x < minimum {
        return;
    }
    each::raise(table, (x - minimum) as usize);
}

// The marks of the roots.
pub fn mark_roots(roots: &[u32], minimum: u32, table: &mut [u32])
    ensures { table.new ≡ roots_in minimum roots.now table.old }
{
    for x in roots {
        root(table, minimum, *x);
    }
}

// What a record whose entry is e and whose payload stands here names, if it is marked.
fn visit(
    s: &[u8],
    minimum: u32,
    e: u32,
    place: usize,
    good: bool,
    table: &mut [u32],
    out: &mut [u8],
) -> bool
    ensures { held_of result table.new out.new ≡ visited minimum s.now e place (held_of good table.old out.old) }
{
    if e < 65536 {
        return good;
    }
    let payload = field::run::bytes_at(s, place, (e % 65536) as usize);
    each::at_payload(payload, minimum, Job::Mark, good, table, out)
}

// One pass from the last of n records down; the last ends with the stream.
pub fn down(s: &[u8], minimum: u32, n: usize, table: &mut [u32], out: &mut [u8]) -> bool
    ensures { held_of result table.new out.new ≡ down_from minimum s.now n (length s.now) (held_of true table.old out.old) }
{
    let mut good = true;
    let mut i = n;
    let mut end = s.len();
    while i > 0 {
        i = i - 1;
        let e = each::entry(table, i);
        let place = less(end, (e % 65536) as usize);
        good = visit(s, minimum, e, place, good, table, out);
        end = less(place, 2);
    }
    good
}

// Where numbering stands: the next number, and the bytes of the links that are kept so far.
#[derive(Clone, Copy)]
pub struct Count {
    pub next: u32,
    pub bytes: usize,
}

fn number_one(table: &mut [u32], i: usize, k: Count) -> Count
    requires { (k.next ≤ 4294967294) × (k.bytes ≤ 1125899906842624) }
    ensures { (numbered_to table.new result ≡ numbered_at i (numbered_to table.old k)) × (result.next ≤ k.next + 1) × (result.bytes ≤ k.bytes + 65537) }
{
    let e = each::entry(table, i);
    if e < 65536 {
        store(table, i, 0);
        return k;
    }
    store(table, i, k.next);
    let next = k.next + 1;
    let bytes = k.bytes + 2 + (e % 65536) as usize;
    Count { next, bytes }
}

// The new numbers of n records, in place of their marks.
pub fn number(table: &mut [u32], minimum: u32, n: usize) -> Count
    requires { minimum + n ≤ 4294967295 }
    ensures { numbered_to table.new result ≡ number_from n 0 (numbered_to table.old (record { next = minimum; bytes = 0 })) }
{
    let mut k = Count {
        next: minimum,
        bytes: 0,
    };
    for i in 0..n {
        k = number_one(table, i, k);
    }
    k
}

// A payload behind its length, at place q of the buffer.
fn put_link(payload: &[u8], q: usize, out: &mut [u8])
    requires { q ≤ 1125899906842624 }
    ensures { out.new ≡ link_laid payload.now q out.old }
{
    field_put::put16(out, q, (payload.len() % 65536) as u16);
    field_put::put_all(out, q + 2, payload);
}

// At a record on the way up, if it is kept: written, or asked.
fn at_record(
    payload: &[u8],
    minimum: u32,
    writing: bool,
    q: usize,
    kept: u32,
    good: bool,
    table: &mut [u32],
    out: &mut [u8],
) -> bool
    requires { q ≤ 1125899906842624 }
    ensures { held_of result table.new out.new ≡ up_at minimum writing q kept payload.now (held_of good table.old out.old) }
{
    if kept == 0 {
        return good;
    }
    if writing {
        put_link(payload, q, out);
        each::at_payload(payload, minimum, Job::Write(q + 2), good, table, out)
    } else {
        each::at_payload(payload, minimum, Job::Ask, good, table, out)
    }
}

// Where the next record that is kept goes.
fn after(payload: &[u8], q: usize, kept: u32) -> usize
    requires { q ≤ 1125899906842624 }
    ensures { (result ≡ place_behind q kept payload.now) × (result ≤ q + 65537) }
{
    if kept == 0 {
        q
    } else {
        q + 2 + payload.len() % 65536
    }
}

// One pass up over n records: each that is kept is written from place q of the buffer on; or it is asked whether a reference would read as none.
pub fn up(
    s: &[u8],
    c: ItemIter,
    minimum: u32,
    n: usize,
    writing: bool,
    start: usize,
    table: &mut [u32],
    out: &mut [u8],
) -> bool
    requires { (n ≤ 4294967295) × (start ≤ 4294967295) }
    ensures { held_of result table.new out.new ≡ up_from minimum writing 0 start (payloads_from n s.now c) (held_of true table.old out.old) }
{
    let mut here = c;
    let mut q = start;
    let mut good = true;
    for i in 0..n {
        let Ok(Some((item, next))) = iter::next(s, here) else {
            return good;
        };
        let payload = field::run::bytes_at(s, item.place, item.length);
        let kept = each::entry(table, i);
        good = at_record(payload, minimum, writing, q, kept, good, table, out);
        q = after(payload, q, kept);
        here = next;
    }
    good
}
