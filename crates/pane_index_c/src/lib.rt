// The functions of crates/pane_index that C and Rust link: each calls the library's of the same name, and has its clauses. Written by tools/exports.
#![tactic(auto)]

ghost use Rattle.std.specs.Prelude.{◌≡◌, length};
ghost use Rattle.field.specs.declared.index.Stream.TheVariants.{Types};
ghost use Rattle.stream_finder.specs.Finder.{create_by, max_index_of};
ghost use Rattle.stream_view.specs.Views.{view_of, raw_kind_of};
ghost use Rattle.stream_places.specs.Places.{load_of, load_wide_of, save_of, save_wide_of};
ghost use Rattle.pane_state.specs.Given.{finder_with, finder_at};
ghost use Rattle.pane_state.specs.Entries.{entry_at};
ghost use Rattle.pane_state.specs.Finders.{out_finder};
ghost use Rattle.pane_state.specs.Walk.{index_all_by, out_walk};
ghost use Rattle.pane_index.specs.Out.{out_view, out_kind, out_save};

// A fresh finder of a stream, with blocks of 2^shift.
#[unsafe(no_mangle)]
pub extern "C" fn pdb_create(s: &[u8], table: &mut [u32], shift: u32, out: &mut [u64; 6]) -> u32
    ensures { (result, out.new, table.new) ≡ out_finder table.old (create_by shift s.now table.old) }
{
    pane_index::pdb_create(s, table, shift, out)
}

// A whole stream walked, from a fresh finder and a fresh cursor.
#[unsafe(no_mangle)]
pub extern "C" fn pdb_index(s: &[u8], table: &mut [u32], shift: u32, out: &mut [u64; 11]) -> u32
    ensures { (result, out.new, table.new) ≡ out_walk table.old (index_all_by shift Types s.now table.old) }
{
    pane_index::pdb_index(s, table, shift, out)
}

// The highest index that the held places of a finder serve; 0 where it holds none, or its shift is none.
#[unsafe(no_mangle)]
pub extern "C" fn pdb_max_index(minimum: u32, maximum: u32, held: usize, shift: u32) -> u32
    ensures { result ≡ max_index_of (finder_with minimum maximum held shift) }
{
    pane_index::pdb_max_index(minimum, maximum, held, shift)
}

// Where an entry's bytes lie, of the two streams in the one that its index names.
#[unsafe(no_mangle)]
pub extern "C" fn pdb_view<'a>(
    tpi: &'a [u8],
    ipi: &'a [u8],
    ids: u32,
    item: u32,
    index: u32,
    place: usize,
    length: usize,
    out: &mut [u64; 4],
) -> u32
    ensures { (result, out.new) ≡ out_view (view_of tpi.now ipi.now (entry_at ids item index place length)) }
{
    pane_index::pdb_view(tpi, ipi, ids, item, index, place, length, out)
}

// The leaf that an entry starts with: 0xffff, a reserved value, for the marker.
#[unsafe(no_mangle)]
pub extern "C" fn pdb_kind(
    tpi: &[u8],
    ipi: &[u8],
    ids: u32,
    item: u32,
    index: u32,
    place: usize,
    length: usize,
    out: &mut [u64; 3],
) -> u32
    ensures { (result, out.new) ≡ out_kind (raw_kind_of tpi.now ipi.now (entry_at ids item index place length)) }
{
    pane_index::pdb_kind(tpi, ipi, ids, item, index, place, length, out)
}

// The finder whose places a file keeps, of either form.
#[unsafe(no_mangle)]
pub extern "C" fn pdb_load(s: &[u8], file: &[u8], table: &mut [u32], out: &mut [u64; 6]) -> u32
    ensures { (result, out.new, table.new) ≡ out_finder table.old (load_wide_of s.now file.now table.old) }
{
    pane_index::pdb_load(s, file, table, out)
}

// The same of a file of R-3's form alone: one of the other form is refused as a file that is cut.
#[unsafe(no_mangle)]
pub extern "C" fn pdb_load_short(
    s: &[u8],
    file: &[u8],
    table: &mut [u32],
    out: &mut [u64; 6],
) -> u32
    ensures { (result, out.new, table.new) ≡ out_finder table.old (load_of s.now file.now table.old) }
{
    pane_index::pdb_load_short(s, file, table, out)
}

// The file that keeps the places of a finder, in the first bytes of the buffer.
#[unsafe(no_mangle)]
pub extern "C" fn pdb_save(
    s: &[u8],
    table: &[u32],
    minimum: u32,
    maximum: u32,
    held: usize,
    shift: u32,
    buffer: &mut [u8],
    out: &mut [u64; 3],
) -> u32
    ensures { (result, out.new, buffer.new) ≡ out_save buffer.old (save_wide_of s.now (finder_at minimum maximum held shift table.now) (length buffer.old)) }
{
    pane_index::pdb_save(s, table, minimum, maximum, held, shift, buffer, out)
}

// The same in R-3's form alone, which counts 65,535 places at most.
#[unsafe(no_mangle)]
pub extern "C" fn pdb_save_short(
    s: &[u8],
    table: &[u32],
    minimum: u32,
    maximum: u32,
    held: usize,
    shift: u32,
    buffer: &mut [u8],
    out: &mut [u64; 3],
) -> u32
    ensures { (result, out.new, buffer.new) ≡ out_save buffer.old (save_of s.now (finder_at minimum maximum held shift table.now) (length buffer.old)) }
{
    pane_index::pdb_save_short(s, table, minimum, maximum, held, shift, buffer, out)
}
