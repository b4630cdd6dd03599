// An outline of a type stream, as a generator of bindings would read one: each class, structure and interface that the stream defines, with
// its size, and under it its data members, with their offsets and types. A type stands by its name, or by its index where it has none.
// It reads at most 65,536 bytes from standard input, as `list` does. What is refused is said on the standard error by its number and name, a record
// behind its index.
#![tactic(auto)]

use answer::Refusal;
use field::index::{Stream, TypeIndex};
use record_data::{ClassType, TypeData};
use record_list::{Element, ListCursor};
use record_member::{Member, MemberType};
use record_parse::EntryData;
use std::io;
use std::io::Read;
use stream_finder::ItemFinder;
use stream_item::Entry;
use stream_item::iter::ItemIter;

// A type stream and its finder, by which any of its types is found.
#[derive(Clone, Copy)]
struct Types<'a> {
    tpi: &'a [u8],
    places: &'a [u32],
    finder: ItemFinder,
}

impl<'a> Types<'a> {
    fn find(self, t: TypeIndex) -> Result<Entry, Refusal> {
        let (entry, _) = stream_finder::find_type(self.tpi, self.finder, self.places, t)?;
        Ok(entry)
    }

    // A record's bytes; the id stream is not at hand.
    fn bytes_of(self, entry: Entry) -> &'a [u8] {
        stream_view::bytes_of(self.tpi, &self.tpi[0..0], entry)
    }

    // The bytes of a list, and the cursor before its first element.
    fn list(self, t: TypeIndex) -> Result<(&'a [u8], ListCursor), Refusal> {
        let entry = self.find(t)?;
        let fields = self.bytes_of(entry);
        let c = record_list::start(Stream::Types, fields)?;
        Ok((fields, c))
    }
}

// A refusal by its number and name.
fn say_refused(rt: &impl Eprint, e: Refusal) -> io::Result<()> {
    eprintln!(rt; "refused {} {}", e.number(), answer_name::name_of(e))
}

// A refusal of the record of an index.
fn say_refused_at(rt: &impl Eprint, index: u32, e: Refusal) -> io::Result<()> {
    eprint!(rt; "#{index} ")?;
    say_refused(rt, e)
}

// A list ends by 15, "no such element"; any other refusal is one of its record.
fn say_list_end(rt: &impl Eprint, t: TypeIndex, e: Refusal) -> io::Result<()> {
    match e {
        Refusal::NoSuchElement => Ok(()),
        _ => say_refused_at(rt, t.0, e),
    }
}

// A type by its declaration; by its index where it has none: a bit field, a class without a name, a text that is too long.
fn put_type(rt: &impl Print, types: Types, t: TypeIndex) -> io::Result<()> {
    let mut room = [0u8; 4096];
    match declare_type::declare(types.tpi, types.finder, types.places, t, &mut room) {
        Ok(n) if 0 < n && n <= room.len() => rt.write_all(&room[..n]),
        _ => print!(rt; "#{}", t.0),
    }
}

// A data member's line.
fn put_member(rt: &impl Print, types: Types, fields: &[u8], m: MemberType) -> io::Result<()> {
    print!(rt; "    ")?;
    rt.write_all(m.name.bytes(fields))?;
    print!(rt; " at {}: ", m.offset.value)?;
    put_type(rt, types, m.field_type)?;
    println!(rt; "")
}

// The members of one record, and the record in which the list goes on. Each member takes two bytes at least, so that 65,536 bytes end before the
// turns do.
fn put_members(
    rt: &(impl Print + Eprint),
    types: Types,
    t: TypeIndex,
    fields: &[u8],
    from: ListCursor,
) -> io::Result<Option<TypeIndex>> {
    let mut c = from;
    for _ in 0..65536 {
        match record_list::step(fields, c) {
            Ok((Element::Member(Member::Continuation(rest)), _)) => return Ok(Some(rest)),
            Ok((Element::Member(Member::Member(m)), behind)) => {
                put_member(rt, types, fields, m)?;
                c = behind;
            }
            Ok((_, behind)) => c = behind,
            Err(e) => {
                say_list_end(rt, t, e)?;
                return Ok(None);
            }
        }
    }
    Ok(None)
}

// The part of a list that the record of an index has, and where the list goes on.
fn put_part(
    rt: &(impl Print + Eprint),
    types: Types,
    t: TypeIndex,
) -> io::Result<Option<TypeIndex>> {
    match types.list(t) {
        Ok((fields, c)) => put_members(rt, types, t, fields, c),
        Err(e) => {
            say_list_end(rt, t, e)?;
            Ok(None)
        }
    }
}

// A field list and the records in which it goes on, 64 in all: compilers go on where a record is full at 64 KiB, and a list that goes on in
// itself has no end. What is not followed is said.
fn put_fields(rt: &(impl Print + Eprint), types: Types, first: TypeIndex) -> io::Result<()> {
    let mut t = first;
    for _ in 0..64 {
        let Some(rest) = put_part(rt, types, t)? else {
            return Ok(());
        };
        t = rest;
    }
    println!(rt; "    goes on in #{}", t.0)
}

// A structure's line, and under it its members; one that is only announced here is passed over.
fn put_class(
    rt: &(impl Print + Eprint),
    types: Types,
    record: &[u8],
    c: ClassType,
) -> io::Result<()> {
    if c.properties.forward_reference() {
        return Ok(());
    }
    rt.write_all(c.name.bytes(record))?;
    println!(rt; ", {} bytes", c.size.value)?;
    if let Some(t) = c.fields {
        put_fields(rt, types, t)?;
    }
    Ok(())
}

// A record that is refused is said by its index; a leaf that document 01 does not have is passed over.
fn put_record(rt: &(impl Print + Eprint), types: Types, entry: Entry) -> io::Result<()> {
    match record_parse::parse(types.tpi, &types.tpi[0..0], entry) {
        Ok(EntryData::Type(TypeData::Class(c))) => {
            put_class(rt, types, types.bytes_of(entry), c)
        }
        Ok(_) | Err(Refusal::LeafUnknown(_)) => Ok(()),
        Err(e) => say_refused_at(rt, entry.index().number(), e),
    }
}

// The last index is the header's or, where fewer records are there than it says, the last one that the walk came to.
fn outline(rt: &(impl Print + Eprint), types: Types, c: ItemIter) -> io::Result<()> {
    let end = types.finder.maximum_index.min(c.index);
    for i in types.finder.minimum_index..end {
        if let Ok(entry) = types.find(TypeIndex(i)) {
            put_record(rt, types, entry)?;
        }
    }
    Ok(())
}

// The whole stream is indexed once; after that any type is found in at most eight steps. Why the walk ended is said, where that is not the stream's end.
fn run(rt: &(impl Print + Eprint), tpi: &[u8], places: &mut [u32; 2048]) -> io::Result<()> {
    match stream_index::index_all(Stream::Types, tpi, places) {
        Ok(tour) => {
            let types = Types {
                tpi,
                places,
                finder: tour.finder,
            };
            outline(rt, types, tour.cursor)?;
            match tour.end {
                Ok(()) => Ok(()),
                Err(e) => say_refused(rt, e),
            }
        }
        Err(e) => say_refused(rt, e),
    }
}

// Whether standard input was read to its end. Where it was not, since a read failed, that is said.
fn at_end(rt: &impl Eprint, read: io::Result<usize>) -> io::Result<bool> {
    if read.is_ok() {
        return Ok(true);
    }
    eprintln!(rt; "outline: standard input cannot be read")?;
    Ok(false)
}

// One byte more than a stream may have is read, so that a longer one is told.
fn main(rt: HostRuntime) -> io::Result<()> {
    let mut stream = Vec::new(rt.alloc());
    let mut places = [0u32; 2048];
    let read = rt.stdin().take(65537).read_to_end(&mut stream);
    if 65536 < stream.len() {
        return say_refused(&rt, Refusal::TooLong);
    }
    if at_end(&rt, read)? {
        run(&rt, &stream, &mut places)?;
    }
    Ok(())
}
