// The week's numbers: R-12 of document 02. A report is its totals, by value, and a lent table of 64 rows of three numbers: leaf, records, payload
// bytes. Streams are added to it one by one; a fresh report is all zero, whatever its table holds.
#![tactic(auto, using(crate::proofs::Used::laws), unfolding(crate::specs::Held::settled_of))]

ghost use Rattle.std.specs.Prelude.{◌≡◌, ◌+◌, ◌-◌, ◌*◌, ◌≤◌, ◌<◌, ltb, length};
ghost use Rattle.field.specs.Fields.{little_at};
ghost use Rattle.stream_report.specs.Report.{fresh, totals_of, larger, most, at_most_64, count_run, begun, concluded, report_in, add_of, Reports};
ghost use Rattle.stream_report.specs.Held.{First, Foremost, Known, new_table, Grows, Sound, Counts, WalkCounts, Fits64, refused_of, settled_of};
ghost use Rattle.answer.specs.Refusals.{itself, said};

use answer::Refusal;
use field::index::Stream;
use stream_item::iter;
use stream_item::iter::ItemIter;

// The largest number of 64 bits.
const MOST: u64 = 18446744073709551615;

// The largest payload, and the first stream and index that have it; all zero while no record was counted.
#[derive(Clone, Copy)]
pub struct Largest {
    pub length: u64,
    pub stream: u64,
    pub index: u32,
}

// Streams taken, and refused of them; header bytes, records and payload bytes of the others; and how many rows of the table are in use.
#[derive(Clone, Copy)]
pub struct Totals {
    pub taken: u64,
    pub refused: u64,
    pub headers: u64,
    pub records: u64,
    pub bytes: u64,
    pub largest: Largest,
    pub rows: u64,
}

// The count of a stream's records in the table: the row of the last record, the rows in use, whether a leaf had no room, and whether a sum passed
// 64 bits.
#[derive(Clone, Copy)]
struct Count {
    last: usize,
    rows: usize,
    full: bool,
    over: bool,
}

// A stream that was counted.
#[derive(Clone, Copy)]
struct Walked {
    count: Count,
    largest: Largest,
    cursor: ItemIter,
}

// A report of no stream.
pub fn new() -> Totals
    ensures { result ≡ totals_of fresh }
{
    Totals {
        taken: 0,
        refused: 0,
        headers: 0,
        records: 0,
        bytes: 0,
        largest: Largest {
            length: 0,
            stream: 0,
            index: 0,
        },
        rows: 0,
    }
}

// A record's leaf: the first two bytes of its payload.
#[tactic(auto, unfolding(field::specs::Fields::little_at))]
fn leaf_at(s: &[u8], p: usize) -> u64
    requires { p + 2 ≤ length s.now }
    ensures { (result ≡ little_at 2 s.now p) × (result < 65536) }
{
    (s[p] as u64) + 256 * (s[p + 1] as u64)
}

// The first of n rows that has the leaf; n without one.
fn first_row(t: &[u64; 192], n: usize, leaf: u64) -> usize
    requires { n ≤ 64 }
    ensures { First t.now n leaf result }
{
    let mut i = 0;
    while i < n {
        if t[3 * i] == leaf {
            return i;
        }
        i = i + 1;
    }
    i
}

// The same, with the last record's row looked at first.
fn row_of(t: &[u64; 192], n: usize, leaf: u64, last: usize) -> usize
    requires { (n ≤ 64) × Foremost t.now last }
    ensures { First t.now n leaf result }
{
    if last >= n {
        return first_row(t, n, leaf);
    }
    if t[3 * last] == leaf {
        return last;
    }
    first_row(t, n, leaf)
}

// A record of n bytes counted in its row, unless a sum passes 64 bits.
fn grow(t: &mut [u64; 192], row: usize, n: u64) -> bool
    requires { row < 64 }
    ensures { Grows t.old row n result t.new }
{
    let records = t[3 * row + 1];
    let bytes = t[3 * row + 2];
    if records >= MOST {
        return false;
    }
    if bytes > MOST - n {
        return false;
    }
    t[3 * row + 1] = records + 1;
    t[3 * row + 2] = bytes + n;
    true
}

// A new row, with one record.
fn enter(t: &mut [u64; 192], row: usize, leaf: u64, n: u64)
    requires { row < 64 }
    ensures { t.new ≡ new_table t.old row leaf n }
{
    t[3 * row] = leaf;
    t[3 * row + 1] = 1;
    t[3 * row + 2] = n;
}

// A record in the table.
fn count_in(t: &mut [u64; 192], k: Count, leaf: u64, n: u64) -> Count
    requires { Sound t.old k }
    ensures { Counts t.old k leaf n result t.new }
{
    let rows = k.rows;
    let row = row_of(t, rows, leaf, k.last);
    if row < rows {
        if grow(t, row, n) {
            return Count {
                last: row,
                rows,
                full: k.full,
                over: k.over,
            };
        }
        return Count {
            last: k.last,
            rows,
            full: k.full,
            over: true,
        };
    }
    if rows < 64 {
        enter(t, rows, leaf, n);
        return Count {
            last: rows,
            rows: rows + 1,
            full: k.full,
            over: k.over,
        };
    }
    Count {
        last: k.last,
        rows,
        full: true,
        over: k.over,
    }
}

// The longer of the largest payload and a record's.
fn larger_of(l: Largest, n: u64, number: u64, index: u32) -> Largest
    ensures { result ≡ larger l n number index }
{
    if l.length < n {
        return Largest {
            length: n,
            stream: number,
            index,
        };
    }
    l
}

// What is so of every table: it has 192 numbers, and each is one of 64 bits.
fn known(t: &[u64])
    requires { length t.now ≡ 192 }
    ensures { Known t.now }
{
    let _first = t[0];
}

// And of all totals: each is a number of 64 bits.
fn sized(totals: Totals)
    ensures { Fits64 totals }
{
    let _taken = totals.taken;
}

// All records of a stream, from the cursor behind its header: the loop.
fn walk(
    s: &[u8],
    first: ItemIter,
    number: u64,
    t: &mut [u64; 192],
    begun: Count,
    largest: Largest,
) -> Option<Walked>
    requires { Sound t.old begun }
    ensures { WalkCounts s.now number first begun largest t.old result t.new }
{
    let mut c = first;
    let mut count = begun;
    let mut best = largest;
    loop {
        match iter::next(s, c) {
            Ok(Some((item, behind))) => {
                let n = item.length as u64;
                let leaf = leaf_at(s, item.place);
                count = count_in(t, count, leaf, n);
                best = larger_of(best, n, number, c.index);
                c = behind;
            }
            Ok(None) => {
                known(t);
                return Some(Walked {
                    count,
                    largest: best,
                    cursor: c,
                });
            }
            Err(_) => {
                return None;
            }
        }
    }
}

// How many rows are in use: a made-up count above 64 reads as 64.
fn rows_of(n: u64) -> usize
    ensures { (result ≡ at_most_64 n) × (result ≤ 64) }
{
    if n > 64 {
        return 64;
    }
    n as usize
}

// A stream that is refused at its header or midway adds to the numbers taken and refused alone.
fn refuse(totals: Totals) -> Result<Totals, Refusal>
    ensures { said itself result ≡ refused_of totals }
{
    let largest = totals.largest;
    if totals.taken >= MOST {
        return Err(Refusal::TotalTooLarge);
    }
    if totals.refused >= MOST {
        return Err(Refusal::TotalTooLarge);
    }
    Ok(Totals {
        taken: totals.taken + 1,
        refused: totals.refused + 1,
        headers: totals.headers,
        records: totals.records,
        bytes: totals.bytes,
        largest,
        rows: rows_of(totals.rows) as u64,
    })
}

// Whether a sum passes 64 bits.
fn over(a: u64, b: u64) -> bool
    ensures { result ≡ ltb most (a + b) }
{
    a > MOST - b
}

// How many records a walk made, and their payload bytes, by the cursors at its ends.
fn records_of(first: ItemIter, last: ItemIter) -> u64
    requires { first.index ≤ last.index }
    ensures { result ≡ last.index - first.index }
{
    (last.index - first.index) as u64
}

fn bytes_of(first: ItemIter, last: ItemIter, records: u64) -> u64
    requires { 2 * records + first.at ≤ last.at }
    ensures { result ≡ last.at - first.at - 2 * records }
{
    (last.at - first.at - 2 * (records as usize)) as u64
}

// The totals after a stream that was counted: 27, then 28.
fn settle(
    totals: Totals,
    headers: u64,
    records: u64,
    bytes: u64,
    count: Count,
    largest: Largest,
) -> Result<Totals, Refusal>
    ensures { said itself result ≡ settled_of totals headers records bytes count largest }
{
    if count.over {
        return Err(Refusal::TotalTooLarge);
    }
    if over(totals.taken, 1) {
        return Err(Refusal::TotalTooLarge);
    }
    if over(totals.headers, headers) {
        return Err(Refusal::TotalTooLarge);
    }
    if over(totals.records, records) {
        return Err(Refusal::TotalTooLarge);
    }
    if over(totals.bytes, bytes) {
        return Err(Refusal::TotalTooLarge);
    }
    if count.full {
        return Err(Refusal::LeavesFull);
    }
    Ok(Totals {
        taken: totals.taken + 1,
        refused: totals.refused,
        headers: totals.headers + headers,
        records: totals.records + records,
        bytes: totals.bytes + bytes,
        largest,
        rows: count.rows as u64,
    })
}

// A stream whose header is no refusal: it is counted in a copy of the table, which is stored if all is well.
fn add_from(
    totals: Totals,
    table: &mut [u64; 192],
    s: &[u8],
    first: ItemIter,
) -> Result<Totals, Refusal>
    ensures { Reports table.old (concluded (report_in totals table.old) (count_run s.now totals.taken first (begun (report_in totals table.old) first.at))) result table.new }
{
    known(table);
    sized(totals);
    let mut copy = *table;
    let largest = totals.largest;
    let count = Count {
        last: 0,
        rows: rows_of(totals.rows),
        full: false,
        over: false,
    };
    match walk(s, first, totals.taken, &mut copy, count, largest) {
        Some(w) => {
            let last = w.cursor;
            let counted = w.count;
            let best = w.largest;
            let records = records_of(first, last);
            let bytes = bytes_of(first, last, records);
            let after = settle(totals, first.at as u64, records, bytes, counted, best)?;
            *table = copy;
            Ok(after)
        }
        None => refuse(totals),
    }
}

// A stream is added to a report: its totals after it, with the table; or 27, then 28, with the table as it was.
pub fn add(totals: Totals, table: &mut [u64; 192], s: &[u8]) -> Result<Totals, Refusal>
    ensures { Reports table.old (add_of (report_in totals table.old) s.now) result table.new }
{
    match iter::iter(Stream::Types, s) {
        Ok(c) => add_from(totals, table, s, c),
        Err(_) => {
            known(table);
            sized(totals);
            refuse(totals)
        }
    }
}
