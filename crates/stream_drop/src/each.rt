// What is done at each type reference of a payload: one way through the references, for three jobs. specs/Each.antt has what each job does.
ghost use Rattle.std.specs.Prelude.{◌+◌, ◌-◌, ◌≡◌, length, get_or};
ghost use Rattle.field_put.specs.Bytes.{bytes};
ghost use Rattle.record_reference.specs.References.{ref};
ghost use Rattle.record_reference.specs.Values.{joined, behind_leaf, fields_at};
ghost use Rattle.record_reference.specs.Said.{said_reference, said_references, said_of_element};
ghost use Rattle.record_rewrite.specs.Rewrite.{Within};
ghost use Rattle.stream_drop.specs.Each.{held_of, raised, laid, done, done_all, done_from, done_of};

use field::index::Stream;
use record_list::ListCursor;
use record_reference::{ElementReferences, Reference, References};

// At a reference at or above the minimum: the record that it names is marked; or it is asked whether its new number would read as none; or its
// new number is written, the payload standing at this place of the buffer.
#[derive(Clone, Copy)]
pub enum Job {
    Mark,
    Ask,
    Write(usize),
}

// What stands at place d of the table, 0 past its end.
pub fn entry(table: &[u32], d: usize) -> u32
    ensures { result ≡ get_or table.now d 0 }
{
    if d < table.len() { table[d] } else { 0 }
}

// The mark of record d: 65,536 above its payload's length.
pub fn raise(table: &mut [u32], d: usize)
    ensures { table.new ≡ raised table.old d }
{
    if d >= table.len() {
        return;
    }
    let e = table[d];
    if e >= 65536 {
        return;
    }
    table[d] = e + 65536;
}

// A number at a place of the payload that stands at place `at` of the buffer.
fn put_at(out: &mut [u8], at: usize, place: usize, n: u32)
    ensures { out.new ≡ laid out.old (at + place) (bytes 4 n) }
{
    if at > out.len() {
        return;
    }
    if place > out.len() - at {
        return;
    }
    field_put::put32(out, at + place, n);
}

// At one reference. `good` says whether none so far would read as none.
fn at_one(
    minimum: u32,
    job: Job,
    good: bool,
    place: usize,
    optional: bool,
    index: u32,
    table: &mut [u32],
    out: &mut [u8],
) -> bool
    ensures { held_of result table.new out.new ≡ done minimum job (ref place optional index) (held_of good table.old out.old) }
{
    if index < minimum {
        return good;
    }
    let d = (index - minimum) as usize;
    match job {
        Job::Mark => {
            raise(table, d);
            good
        }
        Job::Ask => {
            if optional {
                if entry(table, d) == 0xffff {
                    return false;
                }
            }
            good
        }
        Job::Write(at) => {
            let n = entry(table, d);
            put_at(out, at, place, n);
            good
        }
    }
}

fn at_reference(
    minimum: u32,
    job: Job,
    good: bool,
    reference: Reference,
    table: &mut [u32],
    out: &mut [u8],
) -> bool
    ensures { held_of result table.new out.new ≡ done_all minimum job (said_reference reference) (held_of good table.old out.old) }
{
    match reference {
        Reference::None => good,
        Reference::Type(place, n) => at_one(minimum, job, good, place, false, n, table, out),
        Reference::Optional(place, n) => at_one(minimum, job, good, place, true, n, table, out),
    }
}

fn at_references(
    minimum: u32,
    job: Job,
    good: bool,
    references: References,
    table: &mut [u32],
    out: &mut [u8],
) -> bool
    ensures { held_of result table.new out.new ≡ done_all minimum job (joined (said_references references)) (held_of good table.old out.old) }
{
    let a = at_reference(minimum, job, good, references.first, table, out);
    let b = at_reference(minimum, job, a, references.second, table, out);
    let c = at_reference(minimum, job, b, references.third, table, out);
    at_reference(minimum, job, c, references.fourth, table, out)
}

// Where the fields of the element at the cursor stand; a member's behind its leaf.
fn fields_at(s: &[u8], c: ListCursor) -> usize
    ensures { result ≡ fields_at s.now c }
{
    let at = c.at;
    if c.leaf != 0x1203 {
        return at;
    }
    if c.padded {
        match field_text::after_padding(s, at) {
            Ok(q) => behind_leaf(s, q),
            Err(_) => 0,
        }
    } else {
        behind_leaf(s, at)
    }
}

fn behind_leaf(s: &[u8], q: usize) -> usize
    ensures { result ≡ behind_leaf (length s.now) q }
{
    if s.len() < q {
        return 0;
    }
    if s.len() - q < 2 {
        return 0;
    }
    q + 2
}

// At the references of an element whose fields stand at place p of its payload, of so many bytes.
fn at_element(
    minimum: u32,
    job: Job,
    good: bool,
    size: usize,
    p: usize,
    references: ElementReferences,
    table: &mut [u32],
    out: &mut [u8],
) -> bool
    requires { Within 0 (said_of_element references p) size }
    ensures { held_of result table.new out.new ≡ done_all minimum job (said_of_element references p) (held_of good table.old out.old) }
{
    match references {
        ElementReferences::None => good,
        ElementReferences::One(k, n) => at_one(minimum, job, good, p + k, false, n, table, out),
        ElementReferences::Two(k, n, m) => {
            let one = at_one(minimum, job, good, p + k, false, n, table, out);
            at_one(minimum, job, one, p + k + 4, false, m, table, out)
        }
    }
}

// At those of the elements from the cursor on.
fn at_elements(
    s: &[u8],
    c: ListCursor,
    minimum: u32,
    job: Job,
    good: bool,
    table: &mut [u32],
    out: &mut [u8],
) -> bool
    ensures { held_of result table.new out.new ≡ done_from minimum job (length s.now) s.now c (held_of good table.old out.old) }
{
    let mut here = c;
    let mut fine = good;
    for _ in 0..s.len() {
        let Ok((element, next)) = record_list::step(s, here) else {
            return fine;
        };
        let p = fields_at(s, here);
        let references = record_reference::element_references(element);
        fine = at_element(minimum, job, fine, s.len(), p, references, table, out);
        here = next;
    }
    fine
}

// At every reference of a payload.
pub fn at_payload(
    s: &[u8],
    minimum: u32,
    job: Job,
    good: bool,
    table: &mut [u32],
    out: &mut [u8],
) -> bool
    ensures { held_of result table.new out.new ≡ done_of minimum job s.now (held_of good table.old out.old) }
{
    let Ok(data) = record_data::type_data(s) else {
        return good;
    };
    let references = record_reference::record_references(data);
    let own = at_references(minimum, job, good, references, table, out);
    match record_list::start(Stream::Types, s) {
        Ok(c) => at_elements(s, c, minimum, job, own, table, out),
        Err(_) => own,
    }
}
