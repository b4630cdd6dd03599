// The functions of crates/pane_section that C and Rust link: each calls the library's of the same name, and has its clauses. Written by tools/exports.
#![tactic(auto)]

ghost use Rattle.std.specs.Prelude.{◌≡◌};
ghost use Rattle.record_list.specs.Lists.{start_of};
ghost use Rattle.section_item.specs.Sections as section;
ghost use Rattle.section_finder.specs.Finders.{section_create_by};
ghost use Rattle.section_stream.specs.Streams.{section_stream};
ghost use Rattle.section_read.specs.Readers.{reader_at};
ghost use Rattle.write_layout.specs.Buffer.{lay};
ghost use Rattle.pane_state.specs.Finders.{out_finder};
ghost use Rattle.pane_state.specs.Walk.{out_walk};
ghost use Rattle.pane_section.specs.Out.{out_start, out_count, section_index_by, out_stream, out_section_list};

// The fresh cursor of a section.
#[unsafe(no_mangle)]
pub extern "C" fn pdb_section_start(s: &[u8], out: &mut [u64; 4]) -> u32
    ensures { (result, out.new) ≡ out_start (section.section_start s.now) }
{
    pane_section::pdb_section_start(s, out)
}

// The records of a section, counted by a whole walk.
#[unsafe(no_mangle)]
pub extern "C" fn pdb_section_count(s: &[u8], out: &mut [u64; 3]) -> u32
    ensures { (result, out.new) ≡ out_count (section.count_of s.now) }
{
    pane_section::pdb_section_count(s, out)
}

// A fresh finder of a section.
#[unsafe(no_mangle)]
pub extern "C" fn pdb_section_create(
    s: &[u8],
    table: &mut [u32],
    shift: u32,
    out: &mut [u64; 6],
) -> u32
    ensures { (result, out.new, table.new) ≡ out_finder table.old (section_create_by shift s.now table.old) }
{
    pane_section::pdb_section_create(s, table, shift, out)
}

// A whole section indexed.
#[unsafe(no_mangle)]
pub extern "C" fn pdb_section_index(
    s: &[u8],
    table: &mut [u32],
    shift: u32,
    out: &mut [u64; 11],
) -> u32
    ensures { (result, out.new, table.new) ≡ out_walk table.old (section_index_by shift s.now table.old) }
{
    pane_section::pdb_section_index(s, table, shift, out)
}

// The type stream of a section, in the first bytes of the buffer.
#[unsafe(no_mangle)]
pub extern "C" fn pdb_section_stream(s: &[u8], buffer: &mut [u8], out: &mut [u64; 3]) -> u32
    ensures { (result, out.new, buffer.new) ≡ out_stream buffer.old (lay (section_stream s.now) buffer.old 0) }
{
    pane_section::pdb_section_stream(s, buffer, out)
}

// The list of the record that these bytes are, at its first element, by the reader that takes its leaf.
#[unsafe(no_mangle)]
pub extern "C" fn pdb_section_list(s: &[u8], out: &mut [u64; 6]) -> u32
    ensures { (result, out.new) ≡ out_section_list (start_of (reader_at s.now 0) s.now) }
{
    pane_section::pdb_section_list(s, out)
}
