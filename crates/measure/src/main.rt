// Does one operation of the reader many times on the stream that stands on standard input, and prints a checksum that depends on every
// answer: what compare/speed.sh counts the instructions of. The arguments are the operation's name and how many times; for `load`, the fourth is the places
// file. An operation that is none of these, and a stream of more than 262,144 bytes, is refused on the standard error.
#![tactic(auto)]

mod sums;

ghost use Rattle.std.specs.Prelude.{◌≡◌, ◌≤◌, length};

use field::index::{Stream, TypeIndex};
use record_data::TypeData;
use record_id::IdData;
use record_list::ListCursor;
use record_parse::EntryData;
use std::env::Env;
use std::io::Read;
use std::rt::Files;
use std::{fs, io, str};
use stream_finder::ItemFinder;
use stream_header::Header;
use stream_item::iter::ItemIter;
use stream_item::{Entry, Item};
use sums::add;

// The operations, by the letters that their names start with; parseids and primitives have one of their own.
const HEADER: u8 = b'h';

const WALK: u8 = b'w';

const INDEX: u8 = b'i';

const FIND: u8 = b'f';

const PARSE: u8 = b'p';

const IDS: u8 = b'd';

const LOAD: u8 = b'l';

const PRIMITIVES: u8 = b't';

const ELEMENTS: u8 = b'e';

const REPORT: u8 = b'r';

// A word that is no operation.
const NONE: u8 = 0;

// The longest stream, and the places that its finder holds at most: a record takes four bytes or more.
const LONGEST: usize = 262144;

const PLACES: usize = 8192;

// The bytes of a file with so many places.
const FILE: usize = 32796;

// One byte more than the longest stream, to tell that there is one.
fn buffer() -> [u8; 262145]
    ensures { 262145 ≡ length result }
{
    [0u8; 262145]
}

// Each operation, once ---------------------------------------------------------------------------------------------------------

// Reads the header.
fn header_once(s: &[u8]) -> u64 {
    match Header::parse(s) {
        Ok(h) => sums::header(h),
        Err(_) => 0,
    }
}

// Goes through the stream's records. Indices and ends are summed apart, in speed.rs too: one sum of all three numbers cost four instructions more a
// record, two in the sum, one at the index's test and a copy of the place.
fn walk_from(s: &[u8], from: ItemIter) -> u64 {
    let mut c = from;
    let mut indices: u64 = 0;
    let mut ends: u64 = 0;
    while let Ok(Some((i, behind))) = stream_item::iter::next(s, c) {
        indices = add(indices, sums::index(i));
        ends = add(ends, sums::end(i));
        c = behind;
    }
    add(indices, ends)
}

fn walk_once(s: &[u8]) -> u64 {
    match stream_item::iter::iter(Stream::Types, s) {
        Ok(c) => walk_from(s, c),
        Err(_) => 0,
    }
}

// Reads the stream's records: for `parse` those that are no lists, else all, with the elements of the lists.
fn read_from(op: u8, s: &[u8], from: ItemIter) -> u64 {
    let mut c = from;
    let mut sum: u64 = 0;
    while let Ok(Some((i, behind))) = stream_item::iter::next(s, c) {
        sum = add(sum, read(op, s, i));
        c = behind;
    }
    sum
}

fn read_once(op: u8, stream: Stream, s: &[u8]) -> u64 {
    match stream_item::iter::iter(stream, s) {
        Ok(c) => read_from(op, s, c),
        Err(_) => 0,
    }
}

fn read(op: u8, s: &[u8], i: Item) -> u64 {
    if op == PARSE {
        if is_list(s, i) {
            return 0;
        }
    }
    record_read(s, i)
}

fn is_list(s: &[u8], i: Item) -> bool {
    matches!(
        stream_view::raw_kind(s, s, Entry::Record(i)),
        Ok(0x1201 | 0x1203 | 0x1206)
    )
}

// A record with the elements of its list. The one stream is lent as both: an item says by its index in which it lies.
fn record_read(s: &[u8], i: Item) -> u64 {
    match record_parse::parse(s, s, Entry::Record(i)) {
        Ok(EntryData::Type(d)) => match d {
            TypeData::Class(c) => sums::class(c),
            TypeData::MemberFunction(f) => sums::member_function(f),
            TypeData::Procedure(f) => sums::procedure(f),
            TypeData::Pointer(p) => sums::pointer(p),
            TypeData::Modifier(m) => sums::modifier(m),
            TypeData::Enumeration(e) => sums::enumeration(e),
            TypeData::Array(a) => sums::array(a),
            TypeData::Union(u) => sums::union_type(u),
            TypeData::Bitfield(b) => sums::bitfield(b),
            TypeData::FieldList => list_read(
                Stream::Types,
                stream_view::bytes_of(s, s, Entry::Record(i)),
            ),
            TypeData::ArgumentList(_) => list_read(
                Stream::Types,
                stream_view::bytes_of(s, s, Entry::Record(i)),
            ),
            TypeData::MethodList => list_read(
                Stream::Types,
                stream_view::bytes_of(s, s, Entry::Record(i)),
            ),
            _ => 0,
        },
        Ok(EntryData::Id(d)) => match d {
            IdData::Function(f) => sums::function(f),
            IdData::MemberFunction(f) => sums::member_function_id(f),
            IdData::BuildInfo(_) => list_read(
                Stream::Ids,
                stream_view::bytes_of(s, s, Entry::Record(i)),
            ),
            IdData::StringList(_) => list_read(
                Stream::Ids,
                stream_view::bytes_of(s, s, Entry::Record(i)),
            ),
            IdData::String(t) => sums::string(t),
            IdData::UserDefinedTypeSource(u) => sums::source(u),
        },
        _ => 0,
    }
}

fn list_read(stream: Stream, s: &[u8]) -> u64 {
    match record_list::start(stream, s) {
        Ok(c) => list_from(s, c),
        Err(_) => 0,
    }
}

// An element takes a byte or more of a record of at most 65,535.
fn list_from(s: &[u8], from: ListCursor) -> u64 {
    let mut c = from;
    let mut sum: u64 = 0;
    for _ in 0..65536 {
        let Ok((e, behind)) = record_list::step(s, c) else {
            return sum;
        };
        sum = add(sum, sums::element(e));
        c = behind;
    }
    sum
}

// The finder of the whole stream.
fn indexed(s: &[u8], t: &mut [u32; PLACES]) -> ItemFinder {
    match stream_index::index_all(Stream::Types, s, t) {
        Ok(tour) => tour.finder,
        Err(_) => ItemFinder {
            minimum_index: 0,
            maximum_index: 0,
            held: 0,
            shift: 3,
        },
    }
}

// Fills a fresh finder; the sum is over the places that it holds.
fn index_once(s: &[u8], t: &mut [u32; PLACES]) -> u64 {
    let f = indexed(s, t);
    places(t, f.held)
}

fn places(t: &[u32; PLACES], held: usize) -> u64 {
    let mut sum: u64 = 0;
    for place in t.iter().take(held) {
        sum = add(sum, sums::wide(*place));
    }
    sum
}

// Loads the places of the stream from a file; the sum is over them.
fn load_once(s: &[u8], file: &[u8], t: &mut [u32; PLACES]) -> u64 {
    match stream_places::load(s, file, t) {
        Ok(f) => places(t, f.held),
        Err(_) => 0,
    }
}

// Adds the stream to a fresh report; the sum is over its totals and all rows of its table.
fn report_once(s: &[u8]) -> u64 {
    let mut table = [0u64; 192];
    match stream_report::add(stream_report::new(), &mut table, s) {
        Ok(t) => add(sums::totals(t), rows(&table)),
        Err(_) => 0,
    }
}

fn rows(table: &[u64; 192]) -> u64 {
    let mut sum: u64 = 0;
    for number in table {
        sum = add(sum, *number);
    }
    sum
}

// Looks up each index of the stream.
fn find_once(s: &[u8], t: &[u32; PLACES], f: ItemFinder) -> u64 {
    let mut sum: u64 = 0;
    for n in f.minimum_index..f.maximum_index {
        if let Ok((Entry::Record(i), _)) = stream_finder::find_type(s, f, t, TypeIndex(n)) {
            sum = add(sum, sums::item(i));
        }
    }
    sum
}

// Asks for every primitive, in an order of its own each time.
fn primitives_once(turned: u32) -> u64 {
    let mut sum: u64 = 0;
    for i in 0..4096 {
        sum = add(sum, primitive_read(TypeIndex(i ^ turned)));
    }
    sum
}

fn primitive_read(i: TypeIndex) -> u64 {
    match word_primitive::primitive(i) {
        Ok(p) => sums::primitive(p),
        Err(_) => sums::wide(i.0),
    }
}

// Many times -------------------------------------------------------------------------------------------------------------------

fn once(op: u8, s: &[u8], t: &mut [u32; PLACES], f: ItemFinder) -> u64 {
    if op == HEADER {
        return header_once(s);
    }
    if op == INDEX {
        return index_once(s, t);
    }
    if op == FIND {
        return find_once(s, t, f);
    }
    if op == IDS {
        return read_once(op, Stream::Ids, s);
    }
    if op == WALK {
        return walk_once(s);
    }
    read_once(op, Stream::Types, s)
}

// A byte of the stream is another one each time, so that no turn can stand for the next: at 0, where no third argument names another
// place, a byte of the header's version, which no operation but `header` reads.
fn repeat(op: u8, times: u64, at: usize, stream: &mut [u8], t: &mut [u32; PLACES]) -> u64 {
    if stream.len() <= at {
        return 0;
    }
    let f = indexed(stream, t);
    let mut sum: u64 = 0;
    for i in 0..times {
        stream[at] = (i % 256) as u8;
        sum = add(sum, once(op, stream, t, f));
    }
    sum
}

// The same for `load`, whose file is made once.
fn repeat_load(times: u64, stream: &mut [u8], file: &[u8], t: &mut [u32; PLACES]) -> u64 {
    if stream.is_empty() {
        return 0;
    }
    let mut sum: u64 = 0;
    for i in 0..times {
        stream[0] = (i % 256) as u8;
        sum = add(sum, load_once(stream, file, t));
    }
    sum
}

// The same for `report`, apart from the others: beside them in `once` it cost a walk two instructions a record, and a header 16.
fn repeat_report(times: u64, stream: &mut [u8]) -> u64 {
    if stream.is_empty() {
        return 0;
    }
    let mut sum: u64 = 0;
    for i in 0..times {
        stream[0] = (i % 256) as u8;
        sum = add(sum, report_once(stream));
    }
    sum
}

// The same for `primitives`, which needs no stream.
fn repeat_primitives(times: u64) -> u64 {
    let mut sum: u64 = 0;
    for i in 0..times {
        sum = add(sum, primitives_once((i % 256) as u32));
    }
    sum
}

// The first n bytes of an array.
fn first(file: &[u8; FILE], n: usize) -> &[u8] {
    let s: &[u8] = file;
    if n <= s.len() {
        return &s[0..n];
    }
    &s[0..0]
}

// Reads until the buffer is full, the input ends or a read fails, and gives how many bytes there are at the buffer's start.
fn read_full<R: Read>(from: &mut R, buf: &mut [u8]) -> usize
    ensures { result ≤ length buf.new }
{
    let mut done = 0;
    for _ in 0..u64::MAX {
        if done == buf.len() {
            break;
        }
        match from.read(&mut buf[done..]) {
            Ok(0) => break,
            Ok(n) => done += n,
            Err(_) => break,
        }
    }
    done
}

// Puts argument i at the buffer's start, and gives its length: 0 where there is none, or where it is longer than the buffer.
fn arg(rt: &impl Env, i: usize, buf: &mut [u8]) -> usize
    ensures { result ≤ length buf.new }
{
    match rt.arg(i, buf) {
        Ok(n) => n,
        Err(_) => 0,
    }
}

// The places file that the fourth argument names, which has to be UTF-8.
fn load_many(rt: &(impl Env + Files), times: u64, stream: &mut [u8], t: &mut [u32; PLACES]) -> u64 {
    let mut name = [0u8; 4096];
    let n = arg(rt, 4, &mut name);
    let Ok(path) = str::from_utf8(&name[0..n]) else {
        return 0;
    };
    let Ok(mut opened) = fs::open(rt, path) else {
        return 0;
    };
    let mut file = [0u8; FILE];
    let m = read_full(&mut opened, &mut file);
    repeat_load(times, stream, first(&file, m), t)
}

fn run(
    rt: &(impl Env + Files),
    op: u8,
    times: u64,
    at: usize,
    stream: &mut [u8],
    t: &mut [u32; PLACES],
) -> u64 {
    if op == LOAD {
        return load_many(rt, times, stream, t);
    }
    if op == PRIMITIVES {
        return repeat_primitives(times);
    }
    if op == REPORT {
        return repeat_report(times, stream);
    }
    repeat(op, times, at, stream, t)
}

// Whether the n letters of a word are those of a name.
fn spells(word: &[u8; 16], n: usize, name: &[u8]) -> bool {
    word.get(..n) == Some(name)
}

fn operation(word: &[u8; 16], n: usize) -> u8 {
    if spells(word, n, b"header") {
        return HEADER;
    }
    if spells(word, n, b"walk") {
        return WALK;
    }
    if spells(word, n, b"index") {
        return INDEX;
    }
    if spells(word, n, b"find") {
        return FIND;
    }
    if spells(word, n, b"parse") {
        return PARSE;
    }
    if spells(word, n, b"elements") {
        return ELEMENTS;
    }
    if spells(word, n, b"parseids") {
        return IDS;
    }
    if spells(word, n, b"load") {
        return LOAD;
    }
    if spells(word, n, b"primitives") {
        return PRIMITIVES;
    }
    if spells(word, n, b"report") {
        return REPORT;
    }
    NONE
}

// Argument i as a number, 0 where there is none.
fn number(rt: &impl Env, i: usize) -> u64 {
    let mut digits = [0u8; 16];
    let n = arg(rt, i, &mut digits);
    numeral(&digits, n)
}

fn numeral(digits: &[u8; 16], n: usize) -> u64 {
    let mut value: u64 = 0;
    for digit in digits.iter().take(n) {
        value = ten_times(value, *digit);
    }
    value
}

fn ten_times(value: u64, digit: u8) -> u64 {
    if 1000000000 < value {
        return value;
    }
    if digit < b'0' {
        return value;
    }
    add(10 * value, sums::wide8(digit - b'0'))
}

// Whether standard input is at its end. Where it is not, since a read failed, that is said.
fn at_end(rt: &impl Eprint, from: &mut impl Read) -> io::Result<bool> {
    let mut spare = [0u8; 1];
    if let Ok(0) = from.read(&mut spare) {
        return Ok(true);
    }
    eprintln!(rt; "measure: standard input cannot be read")?;
    Ok(false)
}

fn measure(rt: &(impl Env + Files + Input + Print + Eprint), op: u8) -> io::Result<()> {
    let times = number(rt, 2);
    let at = number(rt, 3) as usize;
    let mut stream = buffer();
    let mut input = rt.reader();
    let n = read_full(&mut input, &mut stream);
    if LONGEST < n {
        return eprintln!(rt; "refused 16 too long");
    }
    if !at_end(rt, &mut input)? {
        return Ok(());
    }
    let mut t = [0u32; PLACES];
    let sum = run(rt, op, times, at, &mut stream[0..n], &mut t);
    println!(rt; "{sum}")
}

fn main(rt: HostRuntime) -> io::Result<()> {
    let mut word = [0u8; 16];
    let a = arg(&rt, 1, &mut word);
    let op = operation(&word, a);
    if op == NONE {
        return eprintln!(rt;
            "measure: the operation is header, walk, index, load, find, parse, elements, parseids, primitives or report"
        );
    }
    measure(&rt, op)
}
