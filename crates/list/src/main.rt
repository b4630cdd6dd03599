// Document 01's program: reads a TPI stream of at most 65,536 bytes from standard input and lists its records.
#![tactic(auto)]

use answer::Refusal;
use field::index::Stream;
use std::io;
use std::io::Read;
use stream_header::Header;
use stream_item::iter::ItemIter;
use stream_item::{Entry, Item};

fn put_refused(rt: &impl Print, e: Refusal) -> io::Result<()> {
    println!(rt; "refused {}", e.number())
}

// A record's line: its index, its leaf in four hex digits, its payload's length.
fn put_record(rt: &impl Print, s: &[u8], item: Item) -> io::Result<()> {
    let index = item.index.number();
    let length = item.length;
    match stream_view::raw_kind(s, &[], Entry::Record(item)) {
        Ok(leaf) => println!(rt; "{index} {leaf:04x} {length}"),
        Err(_) => println!(rt; "{index} ---- {length}"),
    }
}

// A record, and the cursor behind it; none where the walk is over, which its last line says.
fn list_next(rt: &impl Print, s: &[u8], c: ItemIter, listed: u64) -> io::Result<Option<ItemIter>> {
    match stream_item::iter::next(s, c) {
        Ok(Some((item, behind))) => {
            put_record(rt, s, item)?;
            Ok(Some(behind))
        }
        Ok(None) => {
            println!(rt; "end {listed}")?;
            Ok(None)
        }
        Err(e) => {
            put_refused(rt, e)?;
            Ok(None)
        }
    }
}

// Each record takes four bytes at least, so that 65,536 bytes end before the count does.
fn walk(rt: &impl Print, s: &[u8], first: ItemIter) -> io::Result<()> {
    let mut c = first;
    for listed in 0..65536 {
        let Some(behind) = list_next(rt, s, c, listed)? else {
            return Ok(());
        };
        c = behind;
    }
    Ok(())
}

// The header, and the cursor before the first record.
fn begin(s: &[u8]) -> Result<(Header, ItemIter), Refusal> {
    let h = Header::parse(s)?;
    let c = stream_item::iter::iter(Stream::Types, s)?;
    Ok((h, c))
}

fn list(rt: &impl Print, s: &[u8]) -> io::Result<()> {
    match begin(s) {
        Ok((h, c)) => {
            println!(rt; "tpi {} {} {}", h.minimum_index, h.maximum_index, s.len())?;
            walk(rt, s, c)
        }
        Err(e) => put_refused(rt, e),
    }
}

// Whether standard input was read to its end. Where it was not, since a read failed, that is said.
fn at_end(rt: &impl Eprint, read: io::Result<usize>) -> io::Result<bool> {
    if read.is_ok() {
        return Ok(true);
    }
    eprintln!(rt; "list: standard input cannot be read")?;
    Ok(false)
}

// One byte more than a stream may have is read, so that a longer one is told.
fn main(rt: HostRuntime) -> io::Result<()> {
    let mut stream = Vec::new(rt.alloc());
    let read = rt.stdin().take(65537).read_to_end(&mut stream);
    if 65536 < stream.len() {
        return put_refused(&rt, Refusal::TooLong);
    }
    if at_end(&rt, read)? {
        list(&rt, &stream)?;
    }
    Ok(())
}
