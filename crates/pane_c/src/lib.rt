// The functions of crates/pane that C and Rust link: each calls the library's of the same name, and has its clauses. Written by tools/exports.
#![tactic(auto)]

ghost use Rattle.std.specs.Prelude.{◌≡◌};
ghost use Rattle.stream_header.specs.Header.{header_of};
ghost use Rattle.stream_item.specs.Iterator.{next_of};
ghost use Rattle.stream_finder.specs.Finder.{update_of, find_of};
ghost use Rattle.word_primitive.specs.Primitive.{primitive_of};
ghost use Rattle.pane_state.specs.Given.{cursor_at, finder_at};
ghost use Rattle.pane.specs.Out.{type_at, out_header, out_next, out_update, out_find, out_primitive};

// The header of a stream.
#[unsafe(no_mangle)]
pub extern "C" fn pdb_header(s: &[u8], out: &mut [u64; 18]) -> u32
    ensures { (result, out.new) ≡ out_header (header_of s.now) }
{
    pane::pdb_header(s, out)
}

// The record at a cursor.
#[unsafe(no_mangle)]
pub extern "C" fn pdb_next(s: &[u8], at: usize, index: u32, out: &mut [u64; 8]) -> u32
    ensures { (result, out.new) ≡ out_next (next_of s.now (cursor_at at index)) }
{
    pane::pdb_next(s, at, index, out)
}

// The finder after an iterator came to a record.
#[unsafe(no_mangle)]
pub extern "C" fn pdb_update(
    table: &mut [u32],
    minimum: u32,
    maximum: u32,
    held: usize,
    shift: u32,
    at: usize,
    index: u32,
    out: &mut [u64; 3],
) -> u32
    ensures { (result, out.new, table.new) ≡ out_update table.old (update_of (finder_at minimum maximum held shift table.old) (cursor_at at index)) }
{
    pane::pdb_update(table, minimum, maximum, held, shift, at, index, out)
}

// The record of an index.
#[unsafe(no_mangle)]
pub extern "C" fn pdb_find(
    s: &[u8],
    table: &[u32],
    minimum: u32,
    maximum: u32,
    held: usize,
    shift: u32,
    index: u32,
    out: &mut [u64; 6],
) -> u32
    ensures { (result, out.new) ≡ out_find (find_of s.now (finder_at minimum maximum held shift table.now) (type_at index)) }
{
    pane::pdb_find(s, table, minimum, maximum, held, shift, index, out)
}

// The primitive type of an index.
#[unsafe(no_mangle)]
pub extern "C" fn pdb_primitive(index: u32, out: &mut [u64; 4]) -> u32
    ensures { (result, out.new) ≡ out_primitive index (primitive_of index) }
{
    pane::pdb_primitive(index, out)
}
