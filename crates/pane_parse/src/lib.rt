// Entries for a caller that is written in C, each by the reader that takes it: of the two streams, and of a section. Where the leaf is known to be of one side,
// pdb_type and pdb_id of crates/pane_record are faster.
//
// The result is a refusal's number, 0 for an answer. Behind `out`, which is written whole by every call: the two detail values, then the answer's fields, 0
// where there is none. Each contract is one equation with the definition that the plain function's contract cites (specs/Out.antt).
#![tactic(auto)]

ghost use Rattle.std.specs.Prelude.{◌≡◌, ◌∷◌, ◌++◌, replicate};
ghost use Rattle.record_data.specs.Said.{type_values};
ghost use Rattle.record_id.specs.Said.{id_values};
ghost use Rattle.record_parse.specs.Record.{parse_of, said_parse};
ghost use Rattle.section_read.specs.Readers.{read_of};
ghost use Rattle.pane_state.specs.Entries.{entry_at};
ghost use Rattle.pane_row.specs.TypePlaces.{type_row};
ghost use Rattle.pane_row.specs.IdPlaces.{id_row};
ghost use Rattle.pane_parse.specs.Out.{record_at, out_read};

use answer::Refusal;
use field::index::{ItemIndex, TypeIndex};
use pane_out::refused;
use pane_row::{id_row, type_row};
use record_data::TypeData;
use record_id::IdData;
use record_parse::EntryData;
use stream_item::{Entry, Item};

// What goes behind `out` for a type record, and for an id record.

fn type_out(d: TypeData) -> [u64; 16]
    ensures { result ≡ 0 ∷ 0 ∷ 0 ∷ type_row (type_values d) }
{
    let mut out = [0; 16];
    let row = type_row(d);
    out[3..].copy_from_slice(&row[2..]);
    out
}

fn id_out(d: IdData) -> [u64; 16]
    ensures { result ≡ 0 ∷ 0 ∷ 1 ∷ (id_row (id_values d) ++ replicate 3 0) }
{
    let mut out = [0; 16];
    let row = id_row(d);
    out[2] = 1;
    out[3..13].copy_from_slice(&row[2..]);
    out
}

// What C gets of an entry with this index: the result, and all of `out`.
fn hand_over(index: u32, answer: Result<EntryData, Refusal>, out: &mut [u64; 16]) -> u32
    ensures { (result, out.new) ≡ out_read index (said_parse answer) }
{
    match answer {
        Ok(EntryData::Type(d)) => {
            *out = type_out(d);
            0
        }
        Ok(EntryData::Id(d)) => {
            *out = id_out(d);
            0
        }
        Ok(EntryData::Primitive(_)) => {
            *out = [0; 16];
            out[2] = 2;
            out[3] = (index % 256) as u64;
            out[4] = (index / 256 % 16) as u64;
            0
        }
        Err(e) => refused(e, out),
    }
}

// An entry of the two streams, by the reader of the one that its index names. Behind `out`: the details; 0 for a type, 1 for an id and 2 for a primitive, which
// any type index below 0x1000 is; then what pdb_type, pdb_id or pdb_primitive has behind the details.
#[unsafe(no_mangle)]
pub extern "C" fn pdb_parse(
    tpi: &[u8],
    ipi: &[u8],
    ids: u32,
    item: u32,
    index: u32,
    place: usize,
    length: usize,
    out: &mut [u64; 16],
) -> u32
    ensures { (result, out.new) ≡ out_read index (parse_of tpi.now ipi.now (entry_at ids item index place length)) }
{
    let entry = pane_state::entry_of(ids, item, index, place, length);
    hand_over(index, record_parse::parse(tpi, ipi, entry), out)
}

// A record of a section by its index, place and length, as pdb_next and pdb_find give them. Behind `out`: the details; 0 for a type, 1 for an id and 2 for a
// primitive, which any index below 0x1000 is; then what pdb_type, pdb_id or pdb_primitive has behind the details.
#[unsafe(no_mangle)]
pub extern "C" fn pdb_section_read(
    s: &[u8],
    index: u32,
    place: usize,
    length: usize,
    out: &mut [u64; 16],
) -> u32
    ensures { (result, out.new) ≡ out_read index (read_of s.now (record_at index place length)) }
{
    let item = Item {
        index: ItemIndex::Types(TypeIndex(index)),
        place,
        length,
    };
    hand_over(index, section_read::parse(s, Entry::Record(item)), out)
}
