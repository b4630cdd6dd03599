// Sections of object files, R-6 of document 02, for a caller that is written in C, through plain numbers and byte slices: where a walk of a section starts,
// how many records it has, a finder over it, a whole section indexed, the type stream made of it, and its records' lists. A record of the walk
// is pdb_next, a lookup pdb_find, a record's data pdb_section_read of crates/pane_parse, and an element pdb_step, on the section's bytes as they are.
//
// The result is a refusal's number, 0 for an answer. Behind `out`, which is written whole by every call: the two detail values, then the answer's fields, 0
// where there is none. Each contract is one equation with the definition that the plain function's contract cites (specs/Out.antt).
#![tactic(auto, using(crate::proofs::Used::laws))]

ghost use Rattle.std.specs.Prelude.{◌≡◌};
ghost use Rattle.record_list.specs.Lists.{start_of};
ghost use Rattle.section_item.specs.Sections as section;
ghost use Rattle.section_finder.specs.Finders.{section_create_by};
ghost use Rattle.section_stream.specs.Streams.{section_stream};
ghost use Rattle.section_read.specs.Readers.{reader_at};
ghost use Rattle.write_layout.specs.Buffer.{lay};
ghost use Rattle.pane_state.specs.Finders.{out_finder};
ghost use Rattle.pane_state.specs.Walk.{out_walk};
ghost use Rattle.pane_section.specs.Out.{out_start, out_count, section_index_by, out_stream, out_section_list};

use pane_out::refused;
use pane_row::cursor_row;
use pane_state::{finder_out, walk_out};

// The fresh cursor of a section. Behind `out`: the details, its place and its index.
#[unsafe(no_mangle)]
pub extern "C" fn pdb_section_start(s: &[u8], out: &mut [u64; 4]) -> u32
    ensures { (result, out.new) ≡ out_start (section.section_start s.now) }
{
    match section_item::iter(s) {
        Ok(c) => {
            *out = [0, 0, c.at as u64, c.index as u64];
            0
        }
        Err(e) => refused(e, out),
    }
}

// The records of a section, counted by a whole walk. Behind `out`: the details, and how many there are.
#[unsafe(no_mangle)]
pub extern "C" fn pdb_section_count(s: &[u8], out: &mut [u64; 3]) -> u32
    ensures { (result, out.new) ≡ out_count (section.count_of s.now) }
{
    match section_item::len(s) {
        Ok(n) => {
            *out = [0, 0, n as u64];
            0
        }
        Err(e) => refused(e, out),
    }
}

// A fresh finder of a section. Behind `out`: the details, the finder's minimum and maximum, how many places it holds, and its shift. The table has the place
// of the first record, if there is one, or is as it was.
#[unsafe(no_mangle)]
pub extern "C" fn pdb_section_create(
    s: &[u8],
    table: &mut [u32],
    shift: u32,
    out: &mut [u64; 6],
) -> u32
    ensures { (result, out.new, table.new) ≡ out_finder table.old (section_create_by shift s.now table.old) }
{
    match section_finder::create_by(s, table, shift) {
        Ok(g) => {
            *out = finder_out(g);
            0
        }
        Err(e) => refused(e, out),
    }
}

// A whole section indexed. Behind `out`: the details, the finder, the cursor behind the last record, and how the walk ended, as pdb_index has them. The table
// has the places of the finder. Where the creation is refused, so is the call, and the table is as it was.
#[unsafe(no_mangle)]
pub extern "C" fn pdb_section_index(
    s: &[u8],
    table: &mut [u32],
    shift: u32,
    out: &mut [u64; 11],
) -> u32
    ensures { (result, out.new, table.new) ≡ out_walk table.old (section_index_by shift s.now table.old) }
{
    match section_finder::index_all_by(s, table, shift) {
        Ok(t) => {
            *out = walk_out(t);
            0
        }
        Err(e) => refused(e, out),
    }
}

// The type stream of a section, in the first bytes of the buffer. Behind `out`: the details, and how many bytes the stream has. At a refusal the buffer is as
// it was.
#[unsafe(no_mangle)]
pub extern "C" fn pdb_section_stream(s: &[u8], buffer: &mut [u8], out: &mut [u64; 3]) -> u32
    ensures { (result, out.new, buffer.new) ≡ out_stream buffer.old (lay (section_stream s.now) buffer.old 0) }
{
    match section_stream::to_stream(s, buffer) {
        Ok(n) => {
            *out = [0, 0, n as u64];
            0
        }
        Err(e) => refused(e, out),
    }
}

// The list of the record that these bytes are, at its first element, by the reader that takes its leaf. Behind `out`: the details, leaf, place, elements
// left, padded.
#[unsafe(no_mangle)]
pub extern "C" fn pdb_section_list(s: &[u8], out: &mut [u64; 6]) -> u32
    ensures { (result, out.new) ≡ out_section_list (start_of (reader_at s.now 0) s.now) }
{
    match section_read::start(s) {
        Ok(c) => {
            *out = cursor_row(c);
            0
        }
        Err(e) => refused(e, out),
    }
}
