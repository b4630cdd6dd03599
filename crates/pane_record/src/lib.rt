// Parsed records and list elements for a caller that is written in C, through plain numbers and byte slices: `type`, `id`, `list` and `step`.
//
// The result is the number of 01, 0 for an answer. Behind `out`, which is written whole by every call: the two detail values, then the answer's fields in
// a row in which each role has one place for all leaves, 0 where there is none (pane_row). Each contract is one equation with the definition that the plain
// function's contract cites (specs/Out.antt). No reader is used by two exports: each is compiled into the one that uses it.
#![tactic(auto, using(crate::proofs::Used::laws))]

ghost use Rattle.std.specs.Prelude.{◌≡◌, ◌∷◌};
ghost use Rattle.record_layout.specs.Layouts.{record_of, type_leaves, id_leaves};
ghost use Rattle.record_list.specs.Lists.{start_of, step_of};
ghost use Rattle.record_list.specs.Said.{step_said};
ghost use Rattle.pane_record.specs.Out.{stream_at, list_cursor_at, out_type, out_id, out_list, step_fields, out_step};

use field::index::Stream;
use pane_out::{flag, is_set, refused};
use pane_row::{cursor_row, entry_row, id_row, index_row, member_row, type_row};
use record_list::{Element, ListCursor};

// The type record that these bytes are, its leaf first. Behind `out`: the details, leaf, count, word, type, list, other, last, size, form, name and its
// length, unique name and its length.
#[unsafe(no_mangle)]
pub extern "C" fn pdb_type(s: &[u8], out: &mut [u64; 15]) -> u32
    ensures { (result, out.new) ≡ out_type (record_of type_leaves s.now) }
{
    match record_data::type_data(s) {
        Ok(d) => {
            *out = type_row(d);
            0
        }
        Err(e) => refused(e, out),
    }
}

// The id record that these bytes are, its leaf first. Behind `out`: the details, leaf, count, type, parent, id, file, line, module, name and its length.
#[unsafe(no_mangle)]
pub extern "C" fn pdb_id(s: &[u8], out: &mut [u64; 12]) -> u32
    ensures { (result, out.new) ≡ out_id (record_of id_leaves s.now) }
{
    match record_id::id_data(s) {
        Ok(d) => {
            *out = id_row(d);
            0
        }
        Err(e) => refused(e, out),
    }
}

// The reader that takes a record.
fn stream(ids: u32) -> Stream
    ensures { result ≡ stream_at ids }
{
    if is_set(ids) {
        Stream::Ids
    } else {
        Stream::Types
    }
}

// The list of the record that these bytes are, at its first element. Behind `out`: the details, leaf, place, elements left, padded.
#[unsafe(no_mangle)]
pub extern "C" fn pdb_list(s: &[u8], ids: u32, out: &mut [u64; 6]) -> u32
    ensures { (result, out.new) ≡ out_list (start_of (stream_at ids) s.now) }
{
    match record_list::start(stream(ids), s) {
        Ok(c) => {
            *out = cursor_row(c);
            0
        }
        Err(e) => refused(e, out),
    }
}

// What goes behind `out` for an element and the cursor behind it.
fn step_out(x: Element, n: ListCursor) -> [u64; 15]
    ensures { result ≡ 0 ∷ 0 ∷ step_fields (step_said (x, n)) }
{
    let (at, left, padded) = (n.at as u64, n.left as u64, flag(n.padded));
    match x {
        Element::Type(i) => index_row(at, left, padded, i.0),
        Element::Id(i) => index_row(at, left, padded, i.0),
        Element::Method(m) => entry_row(at, left, padded, m),
        Element::Member(m) => member_row(at, left, padded, m),
    }
}

// The element at a cursor of a list in these bytes, and the cursor behind it. Behind `out`: the details, the cursor's place, elements left and padded,
// then the element: leaf, word, type, other, value, more, form, more_form, name and its length.
#[unsafe(no_mangle)]
pub extern "C" fn pdb_step(
    s: &[u8],
    leaf: u16,
    at: usize,
    left: u32,
    padded: u32,
    out: &mut [u64; 15],
) -> u32
    ensures { (result, out.new) ≡ out_step (step_of s.now (list_cursor_at leaf at left padded)) }
{
    let c = ListCursor {
        leaf,
        at,
        left,
        padded: is_set(padded),
    };
    match record_list::step(s, c) {
        Ok((x, n)) => {
            *out = step_out(x, n);
            0
        }
        Err(e) => refused(e, out),
    }
}
