// The debugger's pane: header, next, update, find and primitive for a caller that is written in C (or in anything that calls C), through plain
// numbers and byte slices, R-14 of document 02. c/pdb.h declares them for C, rust/ wraps them for Rust; every other function that C can call is an
// export of a crate of the same family.
//
// The result is the number of 01 or 02, 0 for an answer. Behind `out`, which is written whole by every call: the two detail values, then the
// answer's fields, 0 where there is none. So what C gets is one value, and each contract is one equation between it and the definition that the
// plain function's contract cites (specs/Out.antt).
#![tactic(auto, using(crate::proofs::Used::laws))]

ghost use Rattle.std.specs.Prelude.{◌≡◌, ◌∷◌};
ghost use Rattle.stream_header.specs.Header.{header_of};
ghost use Rattle.stream_item.specs.Iterator.{next_of};
ghost use Rattle.stream_finder.specs.Finder.{update_of, find_of};
ghost use Rattle.word_primitive.specs.Primitive.{primitive_of};
ghost use Rattle.pane_state.specs.Given.{cursor_at, finder_at};
ghost use Rattle.pane.specs.Out.{bits32, header_numbers, type_at, out_header, out_next, out_update, out_find, out_primitive};

use field::index::TypeIndex;
use pane_out::refused;
use pane_state::{cursor_given, finder_given};
use stream_header::Header;
use stream_item::Entry;

// The 32 bits of a signed number. Compiles to nothing.
fn bits(x: i32) -> u64
    ensures { result ≡ bits32 x }
{
    x.cast_unsigned() as u64
}

// What goes behind `out` for a header.
fn header_out(h: Header) -> [u64; 18]
    ensures { result ≡ 0 ∷ 0 ∷ header_numbers h }
{
    [
        0,
        0,
        h.version as u64,
        h.header_size as u64,
        h.minimum_index as u64,
        h.maximum_index as u64,
        h.gprec_size as u64,
        h.tpi_hash_stream as u64,
        h.tpi_hash_pad_stream as u64,
        h.hash_key_size as u64,
        h.hash_bucket_size as u64,
        bits(h.hash_values.offset),
        h.hash_values.size as u64,
        bits(h.ti_off.offset),
        h.ti_off.size as u64,
        bits(h.hash_adj.offset),
        h.hash_adj.size as u64,
        h.count() as u64,
    ]
}

// The header of a stream. Behind `out`: the details, version, header_size, minimum, maximum, gprec_size, the two stream numbers, hash_key_size,
// hash_bucket_size, three pairs of offset (its 32 bits) and size, and the count of records.
#[unsafe(no_mangle)]
pub extern "C" fn pdb_header(s: &[u8], out: &mut [u64; 18]) -> u32
    ensures { (result, out.new) ≡ out_header (header_of s.now) }
{
    match Header::parse(s) {
        Ok(h) => {
            *out = header_out(h);
            0
        }
        Err(e) => refused(e, out),
    }
}

// The record at a cursor. Behind `out`: the details, 1 for an item and 0 for done, the item's index, place and length, and the cursor behind it:
// its place and index.
#[unsafe(no_mangle)]
pub extern "C" fn pdb_next(s: &[u8], at: usize, index: u32, out: &mut [u64; 8]) -> u32
    ensures { (result, out.new) ≡ out_next (next_of s.now (cursor_at at index)) }
{
    match stream_item::iter::next(s, cursor_given(at, index)) {
        Ok(Some((i, behind))) => {
            *out = [
                0,
                0,
                1,
                i.index.number() as u64,
                i.place as u64,
                i.length as u64,
                behind.at as u64,
                behind.index as u64,
            ];
            0
        }
        Ok(None) => {
            *out = [0; 8];
            0
        }
        Err(e) => refused(e, out),
    }
}

// The finder after an iterator came to a record. Behind `out`: the details, and how many places it holds then. The table has the new place, or
// is as it was.
#[unsafe(no_mangle)]
pub extern "C" fn pdb_update(
    table: &mut [u32],
    minimum: u32,
    maximum: u32,
    held: usize,
    shift: u32,
    at: usize,
    index: u32,
    out: &mut [u64; 3],
) -> u32
    ensures { (result, out.new, table.new) ≡ out_update table.old (update_of (finder_at minimum maximum held shift table.old) (cursor_at at index)) }
{
    let f = finder_given(minimum, maximum, held, shift);
    match stream_finder::update(f, table, cursor_given(at, index)) {
        Ok(g) => {
            *out = [0, 0, g.held as u64];
            0
        }
        Err(e) => refused(e, out),
    }
}

// The record of an index. Behind `out`: the details, 1 for a record and 0 for the marker, its place, its length (the marker's is 2), and the
// links passed.
#[unsafe(no_mangle)]
pub extern "C" fn pdb_find(
    s: &[u8],
    table: &[u32],
    minimum: u32,
    maximum: u32,
    held: usize,
    shift: u32,
    index: u32,
    out: &mut [u64; 6],
) -> u32
    ensures { (result, out.new) ≡ out_find (find_of s.now (finder_at minimum maximum held shift table.now) (type_at index)) }
{
    let f = finder_given(minimum, maximum, held, shift);
    match stream_finder::find_type(s, f, table, TypeIndex(index)) {
        Ok((Entry::Record(i), passed)) => {
            *out = [0, 0, 1, i.place as u64, i.length as u64, passed as u64];
            0
        }
        Ok((Entry::Marker(_), passed)) => {
            *out = [0, 0, 0, 0, 2, passed as u64];
            0
        }
        Err(e) => refused(e, out),
    }
}

// The primitive type of an index. Behind `out`: the details, the low byte that names the kind, and the indirection, 0 for none to 7.
#[unsafe(no_mangle)]
pub extern "C" fn pdb_primitive(index: u32, out: &mut [u64; 4]) -> u32
    ensures { (result, out.new) ≡ out_primitive index (primitive_of index) }
{
    match word_primitive::primitive(TypeIndex(index)) {
        Ok(_) => {
            *out = [0, 0, (index % 256) as u64, (index / 256 % 16) as u64];
            0
        }
        Err(e) => refused(e, out),
    }
}
