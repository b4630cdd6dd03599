// A stream's finder, for C: made and filled in one call, the highest index that it serves, an entry's bytes and leaf, and its places kept in a file (R-3 and
// R-10 of document 02). What all exports have in common stands in pane_out, and what is said of a finder, a cursor and a walk in pane_state.
#![tactic(auto)]

ghost use Rattle.std.specs.Prelude.{◌≡◌, length};
ghost use Rattle.field.specs.declared.index.Stream.TheVariants.{Types};
ghost use Rattle.stream_finder.specs.Finder.{create_by, max_index_of};
ghost use Rattle.stream_view.specs.Views.{view_of, raw_kind_of};
ghost use Rattle.stream_places.specs.Places.{load_of, load_wide_of, save_of, save_wide_of};
ghost use Rattle.pane_state.specs.Given.{finder_with, finder_at};
ghost use Rattle.pane_state.specs.Entries.{entry_at};
ghost use Rattle.pane_state.specs.Finders.{out_finder};
ghost use Rattle.pane_state.specs.Walk.{index_all_by, out_walk};
ghost use Rattle.pane_index.specs.Out.{out_view, out_kind, out_save};

use field::index::Stream;
use pane_out::refused;
use pane_state::{entry_of, finder_given, finder_out, walk_out};

// A fresh finder of a stream, with blocks of 2^shift. Behind `out`: the details, the finder's minimum and maximum, how many places it holds, and its
// shift. The table has the first record's place first, or is as it was.
#[unsafe(no_mangle)]
pub extern "C" fn pdb_create(s: &[u8], table: &mut [u32], shift: u32, out: &mut [u64; 6]) -> u32
    ensures { (result, out.new, table.new) ≡ out_finder table.old (create_by shift s.now table.old) }
{
    match stream_finder::create_by(s, table, shift) {
        Ok(g) => {
            *out = finder_out(g);
            0
        }
        Err(e) => refused(e, out),
    }
}

// A whole stream walked, from a fresh finder and a fresh cursor. Behind `out`: the details; the finder's minimum and maximum, how many places it holds, and
// its shift; the cursor behind the last record, its place and index; and how the walk ended, 0 where no record was left, else the refusal's number,
// and its two details. The table has the places of the finder. Where the creation is refused, so is the call, and the table is as it was.
#[unsafe(no_mangle)]
pub extern "C" fn pdb_index(s: &[u8], table: &mut [u32], shift: u32, out: &mut [u64; 11]) -> u32
    ensures { (result, out.new, table.new) ≡ out_walk table.old (index_all_by shift Types s.now table.old) }
{
    match stream_index::index_all_by(Stream::Types, s, table, shift) {
        Ok(t) => {
            *out = walk_out(t);
            0
        }
        Err(e) => refused(e, out),
    }
}

// The highest index that the held places of a finder serve; 0 where it holds none, or its shift is none.
#[unsafe(no_mangle)]
pub extern "C" fn pdb_max_index(minimum: u32, maximum: u32, held: usize, shift: u32) -> u32
    ensures { result ≡ max_index_of (finder_with minimum maximum held shift) }
{
    finder_given(minimum, maximum, held, shift)
        .max_type_index()
        .0
}

// Where an entry's bytes lie, of the two streams in the one that its index names. Behind `out`: the details, their place and their length.
#[unsafe(no_mangle)]
pub extern "C" fn pdb_view<'a>(
    tpi: &'a [u8],
    ipi: &'a [u8],
    ids: u32,
    item: u32,
    index: u32,
    place: usize,
    length: usize,
    out: &mut [u64; 4],
) -> u32
    ensures { (result, out.new) ≡ out_view (view_of tpi.now ipi.now (entry_at ids item index place length)) }
{
    let entry = entry_of(ids, item, index, place, length);
    match stream_view::view_answer(tpi, ipi, entry) {
        Ok((p, n)) => {
            *out = [0, 0, p as u64, n as u64];
            0
        }
        Err(e) => refused(e, out),
    }
}

// The leaf that an entry starts with: 0xffff, a reserved value, for the marker. Behind `out`: the details, and the leaf.
#[unsafe(no_mangle)]
pub extern "C" fn pdb_kind(
    tpi: &[u8],
    ipi: &[u8],
    ids: u32,
    item: u32,
    index: u32,
    place: usize,
    length: usize,
    out: &mut [u64; 3],
) -> u32
    ensures { (result, out.new) ≡ out_kind (raw_kind_of tpi.now ipi.now (entry_at ids item index place length)) }
{
    let entry = entry_of(ids, item, index, place, length);
    match stream_view::raw_kind(tpi, ipi, entry) {
        Ok(k) => {
            *out = [0, 0, k as u64];
            0
        }
        Err(e) => refused(e, out),
    }
}

// The finder whose places a file keeps, of either form. Behind `out`: the details, the finder's minimum and maximum, how many places it holds, and its
// shift. The table has the places first, or is as it was.
#[unsafe(no_mangle)]
pub extern "C" fn pdb_load(s: &[u8], file: &[u8], table: &mut [u32], out: &mut [u64; 6]) -> u32
    ensures { (result, out.new, table.new) ≡ out_finder table.old (load_wide_of s.now file.now table.old) }
{
    match stream_places::load_wide(s, file, table) {
        Ok(g) => {
            *out = finder_out(g);
            0
        }
        Err(e) => refused(e, out),
    }
}

// The same of a file of R-3's form alone: one of the other form is refused as a file that is cut.
#[unsafe(no_mangle)]
pub extern "C" fn pdb_load_short(
    s: &[u8],
    file: &[u8],
    table: &mut [u32],
    out: &mut [u64; 6],
) -> u32
    ensures { (result, out.new, table.new) ≡ out_finder table.old (load_of s.now file.now table.old) }
{
    match stream_places::load(s, file, table) {
        Ok(g) => {
            *out = finder_out(g);
            0
        }
        Err(e) => refused(e, out),
    }
}

// The file that keeps the places of a finder, in the first bytes of the buffer. Behind `out`: the details, and how many bytes the file has. At a refusal the
// buffer is as it was.
#[unsafe(no_mangle)]
pub extern "C" fn pdb_save(
    s: &[u8],
    table: &[u32],
    minimum: u32,
    maximum: u32,
    held: usize,
    shift: u32,
    buffer: &mut [u8],
    out: &mut [u64; 3],
) -> u32
    ensures { (result, out.new, buffer.new) ≡ out_save buffer.old (save_wide_of s.now (finder_at minimum maximum held shift table.now) (length buffer.old)) }
{
    let f = finder_given(minimum, maximum, held, shift);
    match stream_places::save_wide(s, f, table, buffer) {
        Ok(n) => {
            *out = [0, 0, n as u64];
            0
        }
        Err(e) => refused(e, out),
    }
}

// The same in R-3's form alone, which counts 65,535 places at most.
#[unsafe(no_mangle)]
pub extern "C" fn pdb_save_short(
    s: &[u8],
    table: &[u32],
    minimum: u32,
    maximum: u32,
    held: usize,
    shift: u32,
    buffer: &mut [u8],
    out: &mut [u64; 3],
) -> u32
    ensures { (result, out.new, buffer.new) ≡ out_save buffer.old (save_of s.now (finder_at minimum maximum held shift table.now) (length buffer.old)) }
{
    let f = finder_given(minimum, maximum, held, shift);
    match stream_places::save(s, f, table, buffer) {
        Ok(n) => {
            *out = [0, 0, n as u64];
            0
        }
        Err(e) => refused(e, out),
    }
}
