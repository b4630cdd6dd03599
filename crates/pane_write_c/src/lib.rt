// The functions of crates/pane_write that C and Rust link: each calls the library's of the same name, and has its clauses. Written by tools/exports.
#![tactic(auto)]

ghost use Rattle.std.specs.Prelude.{◌≡◌};
ghost use Rattle.record_layout.specs.Layouts.{record_of, id_leaves};
ghost use Rattle.record_cells.specs.Codes.{layout_in};
ghost use Rattle.pane_out.specs.Handed.{is_set};
ghost use Rattle.write_layout.specs.Fields.{given_all};
ghost use Rattle.write_layout.specs.Records.{write_record};
ghost use Rattle.write_layout.specs.Types.{written_leaves};
ghost use Rattle.write_layout.specs.Lists.{field_list_bytes, method_list_bytes};
ghost use Rattle.write_layout.specs.Buffer.{lay};
ghost use Rattle.write_cells.specs.Cells.{cell_values};
ghost use Rattle.write_header.specs.Headers.{header_bytes};
ghost use Rattle.write_list.specs.Rows.{member_rows, method_rows};
ghost use Rattle.pane_write.specs.Written.{header_in, out_write};
ghost use Rattle.pane_write.specs.Read.{table_of, leaves_of, codes_of, out_cells};

// A type record from its leaf and its cells.
#[unsafe(no_mangle)]
pub extern "C" fn pdb_write_type(
    text: &[u8],
    leaf: u16,
    cells: &[u64; 27],
    buffer: &mut [u8],
    at: usize,
    out: &mut [u64; 3],
) -> u32
    ensures { (result, out.new, buffer.new) ≡ out_write buffer.old (lay (write_record written_leaves (given_all text.now (cell_values leaf cells.now))) buffer.old at) }
{
    pane_write::pdb_write_type(text, leaf, cells, buffer, at, out)
}

// An id record from its leaf and its cells.
#[unsafe(no_mangle)]
pub extern "C" fn pdb_write_id(
    text: &[u8],
    leaf: u16,
    cells: &[u64; 27],
    buffer: &mut [u8],
    at: usize,
    out: &mut [u64; 3],
) -> u32
    ensures { (result, out.new, buffer.new) ≡ out_write buffer.old (lay (write_record id_leaves (given_all text.now (cell_values leaf cells.now))) buffer.old at) }
{
    pane_write::pdb_write_id(text, leaf, cells, buffer, at, out)
}

// A field list, 0x1203, a row for each member: its leaf, then the numbers of its fields.
#[unsafe(no_mangle)]
pub extern "C" fn pdb_write_fields(
    text: &[u8],
    rows: &[[u64; 8]],
    buffer: &mut [u8],
    at: usize,
    out: &mut [u64; 3],
) -> u32
    ensures { (result, out.new, buffer.new) ≡ out_write buffer.old (lay (field_list_bytes (member_rows text.now rows.now)) buffer.old at) }
{
    pane_write::pdb_write_fields(text, rows, buffer, at, out)
}

// A method list, 0x1206, a row for each method.
#[unsafe(no_mangle)]
pub extern "C" fn pdb_write_methods(
    text: &[u8],
    rows: &[[u64; 8]],
    buffer: &mut [u8],
    at: usize,
    out: &mut [u64; 3],
) -> u32
    ensures { (result, out.new, buffer.new) ≡ out_write buffer.old (lay (method_list_bytes (method_rows text.now rows.now)) buffer.old at) }
{
    pane_write::pdb_write_methods(text, rows, buffer, at, out)
}

// A header from its thirteen numbers of 32 bits, in the order of its bytes, and its two stream numbers.
#[unsafe(no_mangle)]
pub extern "C" fn pdb_write_header(
    fields: &[u32; 13],
    stream: u16,
    pad: u16,
    buffer: &mut [u8],
    at: usize,
    out: &mut [u64; 3],
) -> u32
    ensures { (result, out.new, buffer.new) ≡ out_write buffer.old (lay (header_bytes (header_in fields.now stream pad)) buffer.old at) }
{
    pane_write::pdb_write_header(fields, stream, pad, buffer, at, out)
}

// The record that these bytes are, its leaf first, as nine cells; `ids` is set for an id record.
#[unsafe(no_mangle)]
pub extern "C" fn pdb_cells(s: &[u8], ids: u32, cells: &mut [u64; 27], out: &mut [u64; 3]) -> u32
    ensures { (result, out.new, cells.new) ≡ out_cells cells.old (record_of (table_of (is_set ids)) s.now) }
{
    pane_write::pdb_cells(s, ids, cells, out)
}

// The layout of a leaf as a number, five bits a field, 0 for a leaf that is none: of types for 0, of ids for 1, of members for 2; of a method in a method list for any other number, whatever the leaf.
#[unsafe(no_mangle)]
pub extern "C" fn pdb_layout(which: u32, leaf: u16) -> u64
    ensures { (layout_in result ≡ leaves_of which leaf) × (result ≡ codes_of which leaf) }
{
    pane_write::pdb_layout(which, leaf)
}
