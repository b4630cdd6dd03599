// The functions of crates/pane_parse that C and Rust link: each calls the library's of the same name, and has its clauses. Written by tools/exports.
#![tactic(auto)]

ghost use Rattle.std.specs.Prelude.{◌≡◌};
ghost use Rattle.record_parse.specs.Record.{parse_of};
ghost use Rattle.section_read.specs.Readers.{read_of};
ghost use Rattle.pane_state.specs.Entries.{entry_at};
ghost use Rattle.pane_parse.specs.Out.{record_at, out_read};

// An entry of the two streams, by the reader of the one that its index names.
#[unsafe(no_mangle)]
pub extern "C" fn pdb_parse(
    tpi: &[u8],
    ipi: &[u8],
    ids: u32,
    item: u32,
    index: u32,
    place: usize,
    length: usize,
    out: &mut [u64; 16],
) -> u32
    ensures { (result, out.new) ≡ out_read index (parse_of tpi.now ipi.now (entry_at ids item index place length)) }
{
    pane_parse::pdb_parse(tpi, ipi, ids, item, index, place, length, out)
}

// A record of a section by its index, place and length, as pdb_next and pdb_find give them.
#[unsafe(no_mangle)]
pub extern "C" fn pdb_section_read(
    s: &[u8],
    index: u32,
    place: usize,
    length: usize,
    out: &mut [u64; 16],
) -> u32
    ensures { (result, out.new) ≡ out_read index (read_of s.now (record_at index place length)) }
{
    pane_parse::pdb_section_read(s, index, place, length, out)
}
