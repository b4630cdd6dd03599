// What an entry of a stream says: a primitive, a type record or an id record. Document 01, "Indices and primitives": a type item below 0x1000
// is read as a primitive; any other type item, and every id item, by its bytes, the marker's giving 10 with 0xffff.
#![tactic(auto, using(crate::proofs::Used::laws), unfolding(crate::specs::Record::id_bytes, crate::specs::Record::parse_of, crate::specs::Record::type_bytes, crate::specs::Record::type_item, crate::specs::Record::type_marker))]

ghost use Rattle.std.specs.Prelude.{◌≡◌};
ghost use Rattle.record_parse.specs.Record.{numbered_of, type_bytes, id_bytes, type_item, type_marker, parse_of, said_parse};

use answer::Refusal;
use field::index::{ItemIndex, TypeIndex};
use record_data::TypeData;
use record_id::IdData;
use stream_header::LONGEST;
use stream_item::Entry;
use word_primitive::PrimitiveType;

// The data of an entry.
#[derive(Clone, Copy)]
pub enum EntryData {
    Primitive(PrimitiveType),
    Type(TypeData),
    Id(IdData),
}

fn numbered(i: TypeIndex) -> Result<EntryData, Refusal>
    ensures { said_parse result ≡ numbered_of i.0 }
{
    let p = word_primitive::primitive(i)?;
    Ok(EntryData::Primitive(p))
}

fn type_marker(i: TypeIndex) -> Result<EntryData, Refusal>
    ensures { said_parse result ≡ type_marker i.0 }
{
    if i.0 < 0x1000 {
        return numbered(i);
    }
    Err(Refusal::LeafUnknown(0xffff))
}

// The entry's data, from the stream that it names. Each answer is returned where it is found, and `parse` is inlined where it is called: an answer is
// large, and branches that meet would copy it.
#[inline(always)]
pub fn parse(tpi: &[u8], ipi: &[u8], entry: Entry) -> Result<EntryData, Refusal>
    ensures { said_parse result ≡ parse_of tpi.now ipi.now entry }
{
    if tpi.len() > LONGEST {
        return Err(Refusal::TooLong);
    }
    if ipi.len() > LONGEST {
        return Err(Refusal::TooLong);
    }
    match entry {
        Entry::Record(item) => {
            let place = item.place;
            let length = item.length;
            let index = item.index;
            match index {
                ItemIndex::Types(i) => {
                    if i.0 < 0x1000 {
                        let answer = numbered(i);
                        return answer;
                    }
                    if place > tpi.len() {
                        return Err(Refusal::Ended);
                    }
                    if length > tpi.len() - place {
                        return Err(Refusal::Ended);
                    }
                    let end = place + length;
                    let d = record_data::type_data(&tpi[place..end])?;
                    return Ok(EntryData::Type(d));
                }
                ItemIndex::Ids(_) => {
                    if place > ipi.len() {
                        return Err(Refusal::Ended);
                    }
                    if length > ipi.len() - place {
                        return Err(Refusal::Ended);
                    }
                    let end = place + length;
                    let d = record_id::id_data(&ipi[place..end])?;
                    return Ok(EntryData::Id(d));
                }
            }
        }
        Entry::Marker(index) => match index {
            ItemIndex::Types(i) => {
                let answer = type_marker(i);
                return answer;
            }
            ItemIndex::Ids(_) => {
                return Err(Refusal::LeafUnknown(0xffff));
            }
        },
    }
}
