// The elements of the lists of document 01, one after the other: 0x1201, 0x1203 and 0x1206 of type records, 0x1603 and 0x1604 of id records.
// A cursor by value, one step, and element k. Any cursor is answered, one that a caller makes up too.
#![tactic(auto, using(crate::proofs::Used::laws), unfolding(answer::specs::Tables::find, record_layout::specs::Fields::read_field_by, record_layout::specs::Fields::read_fields_by, record_layout::specs::Layouts::id_leaves, record_layout::specs::Layouts::type_leaves, crate::specs::Lists::counted_by, crate::specs::Lists::counted_list, crate::specs::Lists::counted_step, crate::specs::Lists::member_step, crate::specs::Lists::method_step, crate::specs::Lists::next_member, crate::specs::Lists::start_ids, crate::specs::Lists::start_of, crate::specs::Lists::start_types, crate::specs::Lists::step_of))]

ghost use Rattle.std.specs.Prelude.{◌∷◌, [], ◌≡◌};
ghost use Rattle.record_layout.specs.Fields.{id, run, types, ids};
ghost use Rattle.record_layout.specs.Layouts.{type_index, count16, count32};
ghost use Rattle.record_member.specs.Said.{member_values};
ghost use Rattle.record_list.specs.Lists.{type_element, id_element, counted_by, start_types, start_ids, start_of, counted_step, method_step, left_after, member_step, next_member, step_of, element_by};
ghost use Rattle.record_list.specs.Said.{said_step, element_values};
ghost use Rattle.answer.specs.Refusals.{itself, said};

use answer::Refusal;
use field::index;
use field::index::{IdIndex, Stream, TypeIndex};
use field::reader::Reader;
use record_layout::{LF_ARGLIST, LF_BUILDINFO, LF_FIELDLIST, LF_METHODLIST, LF_SUBSTR_LIST};
use record_member::{Member, MethodListEntry};

// Where a list is read: plain numbers, so that a struct may hold it beside the record's bytes.
#[derive(Clone, Copy)]
pub struct ListCursor {
    pub leaf: u16,
    pub at: usize,
    // How many elements are left of a counted list; of the others 1, and 0 once a continuation has ended the list.
    pub left: u32,
    // A member stands before `at`, and its padding is not skipped yet.
    pub padded: bool,
}

// An element of a list.
#[derive(Clone, Copy)]
pub enum Element {
    // Of 0x1201 and of 0x1604.
    Type(TypeIndex),
    // Of 0x1603.
    Id(IdIndex),
    // Of 0x1206.
    Method(MethodListEntry),
    // Of 0x1203.
    Member(Member),
}

// Where a list starts.

// A list of this leaf at place p: its count, a u16, then so many id indices.
fn read_counted16(r: &mut Reader<'_>, leaf: u16) -> Result<ListCursor, Refusal>
    ensures { said itself result ≡ counted_by (count16 ∷ run ids ∷ []) leaf r.old.bytes.now r.old.at }
{
    let count = r.u16()?;
    let at = r.at;
    r.skip(4 * (count as usize))?;
    Ok(ListCursor {
        leaf,
        at,
        left: count as u32,
        padded: false,
    })
}

// A list of this leaf at place p: its count, a u32, then so many type indices.
fn read_counted32(r: &mut Reader<'_>, leaf: u16) -> Result<ListCursor, Refusal>
    ensures { said itself result ≡ counted_by (count32 ∷ run types ∷ []) leaf r.old.bytes.now r.old.at }
{
    let count = r.u32()?;
    let at = r.at;
    let total = 4 * (count as usize);
    r.skip(total)?;
    Ok(ListCursor {
        leaf,
        at,
        left: count,
        padded: false,
    })
}

fn start_types(s: &[u8]) -> Result<ListCursor, Refusal>
    ensures { said itself result ≡ start_types s.now }
{
    let r = &mut Reader { bytes: s, at: 0 };
    let leaf = r.u16()?;
    match leaf {
        LF_ARGLIST => read_counted32(r, LF_ARGLIST),
        LF_METHODLIST => Ok(ListCursor {
            leaf: LF_METHODLIST,
            at: r.at,
            left: 1,
            padded: false,
        }),
        LF_FIELDLIST => Ok(ListCursor {
            leaf: LF_FIELDLIST,
            at: r.at,
            left: 1,
            padded: false,
        }),
        _ => Err(Refusal::LeafUnknown(leaf)),
    }
}

fn start_ids(s: &[u8]) -> Result<ListCursor, Refusal>
    ensures { said itself result ≡ start_ids s.now }
{
    let r = &mut Reader { bytes: s, at: 0 };
    let leaf = r.u16()?;
    match leaf {
        LF_BUILDINFO => read_counted16(r, LF_BUILDINFO),
        LF_SUBSTR_LIST => read_counted32(r, LF_SUBSTR_LIST),
        _ => Err(Refusal::LeafUnknown(leaf)),
    }
}

// The list of a record, at its first element: a record of the type stream, or of the id stream.
pub fn start(stream: Stream, s: &[u8]) -> Result<ListCursor, Refusal>
    ensures { said itself result ≡ start_of stream s.now }
{
    match stream {
        Stream::Types => start_types(s),
        Stream::Ids => start_ids(s),
    }
}

// One element, for each kind of list.

// A type index of a list of this leaf.
fn type_step(s: &[u8], leaf: u16, p: usize, left: u32) -> Result<(Element, ListCursor), Refusal>
    ensures { said_step result ≡ counted_step type_index type_element leaf s.now p left }
{
    if left == 0 {
        return Err(Refusal::NoSuchElement);
    }
    let (t, e) = index::type_at(s, p)?;
    Ok((
        Element::Type(t),
        ListCursor {
            leaf,
            at: e,
            left: left - 1,
            padded: false,
        },
    ))
}

fn id_step(s: &[u8], p: usize, left: u32) -> Result<(Element, ListCursor), Refusal>
    ensures { said_step result ≡ counted_step id id_element 0x1603 s.now p left }
{
    if left == 0 {
        return Err(Refusal::NoSuchElement);
    }
    let (i, e) = index::id_at(s, p)?;
    Ok((
        Element::Id(i),
        ListCursor {
            leaf: LF_BUILDINFO,
            at: e,
            left: left - 1,
            padded: false,
        },
    ))
}

fn method_step(s: &[u8], p: usize) -> Result<(Element, ListCursor), Refusal>
    ensures { said_step result ≡ method_step s.now p }
{
    if s.len() <= p {
        return Err(Refusal::NoSuchElement);
    }
    let (m, e) = record_member::method_entry_at(s, p)?;
    Ok((
        Element::Method(m),
        ListCursor {
            leaf: LF_METHODLIST,
            at: e,
            left: 1,
            padded: false,
        },
    ))
}

// A continuation ends the list.
fn left_after(m: Member) -> u32
    ensures { result ≡ left_after (member_values m) }
{
    match m {
        Member::Continuation(_) => 0,
        _ => 1,
    }
}

fn member_step(s: &[u8], p: usize) -> Result<(Element, ListCursor), Refusal>
    ensures { said_step result ≡ member_step s.now p }
{
    if s.len() <= p {
        return Err(Refusal::NoSuchElement);
    }
    let (m, e) = record_member::member_at(s, p)?;
    Ok((
        Element::Member(m),
        ListCursor {
            leaf: LF_FIELDLIST,
            at: e,
            left: left_after(m),
            padded: true,
        },
    ))
}

// The next member of a list, after the padding of the one before.
fn next_member(
    s: &[u8],
    p: usize,
    left: u32,
    padded: bool,
) -> Result<(Element, ListCursor), Refusal>
    ensures { said_step result ≡ next_member s.now p left padded }
{
    if left == 0 {
        return Err(Refusal::NoSuchElement);
    }
    let mut at = p;
    if padded {
        at = field_text::after_padding(s, p)?;
    }
    member_step(s, at)
}

// The element at the cursor, and the cursor for the next one.
pub fn step(s: &[u8], c: ListCursor) -> Result<(Element, ListCursor), Refusal>
    ensures { said_step result ≡ step_of s.now c }
{
    match c.leaf {
        LF_ARGLIST => type_step(s, LF_ARGLIST, c.at, c.left),
        LF_METHODLIST => method_step(s, c.at),
        LF_FIELDLIST => next_member(s, c.at, c.left, c.padded),
        LF_BUILDINFO => id_step(s, c.at, c.left),
        LF_SUBSTR_LIST => type_step(s, LF_SUBSTR_LIST, c.at, c.left),
        leaf => Err(Refusal::LeafUnknown(leaf)),
    }
}

// Element k from a cursor on.
pub fn element_from(s: &[u8], c: ListCursor, k: u32) -> Result<Element, Refusal>
    ensures { said element_values result ≡ element_by (step_of s.now) k c }
{
    let mut here = c;
    for _ in 0..k {
        (_, here) = step(s, here)?;
    }
    let (e, _) = step(s, here)?;
    Ok(e)
}
