// Records written for a caller that is written in C, R-1 of document 02: a record from its leaf and its cells, a list from its rows, a header from its
// fields, each at a place of a lent buffer; and a record read into such cells. Strings and runs are parts, place and length, of a lent text.
//
// The result is the number of 01 or 02, 0 for an answer. Behind `out`, which is written whole by every call, stand the two details and the place behind
// what was written. Everything else of the buffer stays as it was, and at a refusal all of it. Each contract is one equation with the definition that the
// plain function's contract cites (specs/Written.antt).
#![tactic(auto, unfolding(record_layout::specs::Layouts::record_of))]

ghost use Rattle.std.specs.Prelude.{◌≡◌};
ghost use Rattle.answer.specs.Tables.{find};
ghost use Rattle.record_layout.specs.Layouts.{record_of, id_leaves};
ghost use Rattle.record_cells.specs.Codes.{layout_in};
ghost use Rattle.record_cells.specs.Cells.{cells_of};
ghost use Rattle.record_cells.specs.Filled.{FillsCells, fields_by};
ghost use Rattle.pane_out.specs.Handed.{is_set};
ghost use Rattle.write_layout.specs.Fields.{given_all};
ghost use Rattle.write_layout.specs.Records.{write_record};
ghost use Rattle.write_layout.specs.Types.{written_leaves};
ghost use Rattle.write_layout.specs.Lists.{field_list_bytes, method_list_bytes};
ghost use Rattle.write_layout.specs.Buffer.{lay};
ghost use Rattle.write_cells.specs.Cells.{cell_values};
ghost use Rattle.write_header.specs.Headers.{header_bytes};
ghost use Rattle.write_list.specs.Rows.{member_rows, method_rows};
ghost use Rattle.pane_write.specs.Written.{signed32, slice_in, header_in, out_write};
ghost use Rattle.pane_write.specs.Read.{table_of, leaves_of, codes_of, out_cells};

use answer::Refusal;
use field::fixed;
use pane_out::{is_set, refused};
use record_cells::layout;
use stream_header::{Header, Slice};

// A type record from its leaf and its cells. Lists of members and of methods are written by their own functions.
#[unsafe(no_mangle)]
pub extern "C" fn pdb_write_type(
    text: &[u8],
    leaf: u16,
    cells: &[u64; 27],
    buffer: &mut [u8],
    at: usize,
    out: &mut [u64; 3],
) -> u32
    ensures { (result, out.new, buffer.new) ≡ out_write buffer.old (lay (write_record written_leaves (given_all text.now (cell_values leaf cells.now))) buffer.old at) }
{
    match write_cells::write_type(text, leaf, *cells, buffer, at) {
        Ok(p) => {
            *out = [0, 0, p as u64];
            0
        }
        Err(e) => refused(e, out),
    }
}

// An id record from its leaf and its cells.
#[unsafe(no_mangle)]
pub extern "C" fn pdb_write_id(
    text: &[u8],
    leaf: u16,
    cells: &[u64; 27],
    buffer: &mut [u8],
    at: usize,
    out: &mut [u64; 3],
) -> u32
    ensures { (result, out.new, buffer.new) ≡ out_write buffer.old (lay (write_record id_leaves (given_all text.now (cell_values leaf cells.now))) buffer.old at) }
{
    match write_cells::write_id(text, leaf, *cells, buffer, at) {
        Ok(p) => {
            *out = [0, 0, p as u64];
            0
        }
        Err(e) => refused(e, out),
    }
}

// A field list, 0x1203, a row for each member: its leaf, then the numbers of its fields.
#[unsafe(no_mangle)]
pub extern "C" fn pdb_write_fields(
    text: &[u8],
    rows: &[[u64; 8]],
    buffer: &mut [u8],
    at: usize,
    out: &mut [u64; 3],
) -> u32
    ensures { (result, out.new, buffer.new) ≡ out_write buffer.old (lay (field_list_bytes (member_rows text.now rows.now)) buffer.old at) }
{
    match write_list::write_field_list(text, rows, buffer, at) {
        Ok(p) => {
            *out = [0, 0, p as u64];
            0
        }
        Err(e) => refused(e, out),
    }
}

// A method list, 0x1206, a row for each method.
#[unsafe(no_mangle)]
pub extern "C" fn pdb_write_methods(
    text: &[u8],
    rows: &[[u64; 8]],
    buffer: &mut [u8],
    at: usize,
    out: &mut [u64; 3],
) -> u32
    ensures { (result, out.new, buffer.new) ≡ out_write buffer.old (lay (method_list_bytes (method_rows text.now rows.now)) buffer.old at) }
{
    match write_list::write_method_list(text, rows, buffer, at) {
        Ok(p) => {
            *out = [0, 0, p as u64];
            0
        }
        Err(e) => refused(e, out),
    }
}

// A signed number from its 32 bits.
fn signed(n: u32) -> i32
    ensures { result ≡ signed32 n }
{
    n.cast_signed()
}

fn slice(offset: u32, size: u32) -> Slice
    ensures { result ≡ slice_in offset size }
{
    Slice {
        offset: signed(offset),
        size,
    }
}

fn header_of(fields: &[u32; 13], stream: u16, pad: u16) -> Header
    ensures { result ≡ header_in fields.now stream pad }
{
    Header {
        version: fields[0],
        header_size: fields[1],
        minimum_index: fields[2],
        maximum_index: fields[3],
        gprec_size: fields[4],
        tpi_hash_stream: stream,
        tpi_hash_pad_stream: pad,
        hash_key_size: fields[5],
        hash_bucket_size: fields[6],
        hash_values: slice(fields[7], fields[8]),
        ti_off: slice(fields[9], fields[10]),
        hash_adj: slice(fields[11], fields[12]),
    }
}

// A header from its thirteen numbers of 32 bits, in the order of its bytes, and its two stream numbers.
#[unsafe(no_mangle)]
pub extern "C" fn pdb_write_header(
    fields: &[u32; 13],
    stream: u16,
    pad: u16,
    buffer: &mut [u8],
    at: usize,
    out: &mut [u64; 3],
) -> u32
    ensures { (result, out.new, buffer.new) ≡ out_write buffer.old (lay (header_bytes (header_in fields.now stream pad)) buffer.old at) }
{
    let h = header_of(fields, stream, pad);
    match write_header::write_header(h, buffer, at) {
        Ok(p) => {
            *out = [0, 0, p as u64];
            0
        }
        Err(e) => refused(e, out),
    }
}

// The fields of a record at a place as cells, by the table of types or of ids.
fn cells_by(
    s: &[u8],
    ids: bool,
    leaf: u16,
    p: usize,
    cells: &mut [u64; 27],
) -> Result<usize, Refusal>
    ensures { FillsCells (cells_of 9) (fields_by (find leaf (table_of ids)) leaf s.now p) result cells.old cells.new }
{
    if ids {
        record_cells::id_cells(s, leaf, p, cells)
    } else {
        record_cells::type_cells(s, leaf, p, cells)
    }
}

// The record that these bytes are, its leaf first, as nine cells; `ids` is set for an id record. Behind `out`: the details, and the leaf.
#[unsafe(no_mangle)]
pub extern "C" fn pdb_cells(s: &[u8], ids: u32, cells: &mut [u64; 27], out: &mut [u64; 3]) -> u32
    ensures { (result, out.new, cells.new) ≡ out_cells cells.old (record_of (table_of (is_set ids)) s.now) }
{
    let (leaf, p) = match fixed::u16_at(s, 0) {
        Ok((leaf, p)) => (leaf, p),
        Err(e) => return refused(e, out),
    };
    match cells_by(s, is_set(ids), leaf, p, cells) {
        Ok(_) => {
            *out = [0, 0, leaf as u64];
            0
        }
        Err(e) => refused(e, out),
    }
}

// The layout of a leaf as a number, five bits a field, 0 for a leaf that is none: of types for 0, of ids for 1, of members for 2; of a method in a method
// list for any other number, whatever the leaf.
#[unsafe(no_mangle)]
pub extern "C" fn pdb_layout(which: u32, leaf: u16) -> u64
    ensures { (layout_in result ≡ leaves_of which leaf) × (result ≡ codes_of which leaf) }
{
    match which {
        0 => layout::type_layout(leaf),
        1 => layout::id_layout(leaf),
        2 => layout::member_layout(leaf),
        _ => layout::method_layout(),
    }
}
