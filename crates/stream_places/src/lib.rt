// The places of a finder, kept in a file beside its stream, so that opening a large library need not walk it: document 02, R-3. `save` writes
// the file into a lent buffer, `load` reads it into a lent table. A file of 65,535 places, which is as many as they count, is 262,168 bytes; at
// shift 3 it serves 524,280 records. `save_wide` and `load_wide` are R-10's: they write and read the same files up to there, and above them files of
// a second form, up to 1,073,741,816 places. trailer.rt has the end of a file.
//
// Loading goes over every link up to the last place once, to see that the places are on the chain: it reads the u16 length of each link, and
// nothing else of the stream but its header.
#![tactic(auto, using(crate::proofs::Used::laws), unfolding(crate::specs::File::trailer_at, crate::specs::File::trailer_bytes))]

pub mod trailer;

ghost use Rattle.std.specs.Prelude.{◌≡◌, ◌+◌, ◌*◌, ◌^◌, ◌≤◌, ◌<◌, eqb, ltb, length, take};
ghost use Rattle.answer.specs.Answer.{both};
ghost use Rattle.field.specs.Fields.{little_at};
ghost use Rattle.field_put.specs.Bytes.{bytes, put, Room, Puts};
ghost use Rattle.stream_item.specs.Links.{chain};
ghost use Rattle.stream_finder.specs.Finder.{state, Fills};
ghost use Rattle.stream_places.specs.File.{file_form_in, words_at, word_bytes, trailer_bytes};
ghost use Rattle.stream_places.specs.Places.{ends, on_chain, Takes, load_for, load_of, load_wide_of, form_for, save_for, save_of, save_wide_of, Saves};

use answer::Refusal;
use field::fixed;
use stream_finder::ItemFinder;
use stream_header::Header;
use trailer::Trailer;

const LARGEST_SHIFT: u32 = 6;

// The two forms of a file: its count in two bytes, R-3's, and in four, R-10's.
#[derive(Clone, Copy)]
enum Width {
    Narrow,
    Wide,
}

// How many bytes the count has.
fn width_of(w: Width) -> usize
    ensures { (result ≡ (file_form_in w).width) × (result ≤ 4) }
{
    match w {
        Width::Narrow => 2,
        Width::Wide => 4,
    }
}

// The letters at the end.
fn letters_of(w: Width) -> [u8; 4]
    ensures { result ≡ (file_form_in w).letters }
{
    match w {
        Width::Narrow => *b"PTIX",
        Width::Wide => *b"PTIY",
    }
}

// The fewest places: below them the other form is written.
fn least_of(w: Width) -> u32
    ensures { result ≡ (file_form_in w).least }
{
    match w {
        Width::Narrow => 0,
        Width::Wide => 65536,
    }
}

// The most places.
fn most_of(w: Width) -> usize
    ensures { (result ≡ (file_form_in w).most) × (result ≤ 1073741816) }
{
    match w {
        Width::Narrow => 65535,
        Width::Wide => 1073741816,
    }
}

// The form that n places are written in.
fn width_for(n: usize) -> Width
    ensures { file_form_in result ≡ form_for n }
{
    if n > 65535 {
        return Width::Wide;
    }
    Width::Narrow
}

// The number of 1, 2 or 4 bytes at place p, where it is known to be there: each is two halves, and compiles to one load.

fn byte_at(f: &[u8], p: usize) -> u8
    requires { p + 1 ≤ length f.now }
    ensures { result ≡ little_at 1 f.now p }
{
    f[p]
}

#[tactic(auto, unfolding(field::specs::Fields::little_at))]
fn half_at(f: &[u8], p: usize) -> u16
    requires { p + 2 ≤ length f.now }
    ensures { result ≡ little_at 2 f.now p }
{
    (byte_at(f, p) as u16) + 256 * (byte_at(f, p + 1) as u16)
}

#[tactic(auto, unfolding(field::specs::Fields::little_at))]
fn word_at(f: &[u8], p: usize) -> u32
    requires { p + 4 ≤ length f.now }
    ensures { result ≡ little_at 4 f.now p }
{
    (half_at(f, p) as u32) + 65536 * (half_at(f, p + 2) as u32)
}

// ---- loading

// The finder whose places are kept in the file f, for the stream s: they are the first of the lent table.
pub fn load(s: &[u8], f: &[u8], t: &mut [u32]) -> Result<ItemFinder, Refusal>
    ensures { Fills t.old (load_of s.now f.now t.old) result t.new }
{
    let h = Header::parse(s)?;
    let k = Trailer::parse(f)?;
    loaded(s, f, t, h, k)
}

// The same of a file of either form.
pub fn load_wide(s: &[u8], f: &[u8], t: &mut [u32]) -> Result<ItemFinder, Refusal>
    ensures { Fills t.old (load_wide_of s.now f.now t.old) result t.new }
{
    let h = Header::parse(s)?;
    let k = Trailer::parse_wide(f)?;
    loaded(s, f, t, h, k)
}

// The same, of a stream that has this header and a file that has this trailer.
fn loaded(s: &[u8], f: &[u8], t: &mut [u32], h: Header, k: Trailer) -> Result<ItemFinder, Refusal>
    requires { (length s.now ≤ 4294967294) × (k.shift ≤ 6) × (4 * k.count ≤ length f.now) × (h.header_size ≤ length s.now) }
    ensures { Fills t.old (load_for s.now f.now t.old h k) result t.new }
{
    let minimum = h.minimum_index;
    let maximum = h.maximum_index;
    let start = h.header_size;
    let count = k.count as usize;
    let shift = k.shift as u32;
    if lacks(count, minimum, maximum) {
        return Err(Refusal::FileWrong);
    }
    if k.minimum_index != minimum {
        return Err(Refusal::AnotherStream);
    }
    if k.maximum_index != maximum {
        return Err(Refusal::AnotherStream);
    }
    if k.stream_length as usize != s.len() {
        return Err(Refusal::AnotherStream);
    }
    if k.header_size != start {
        return Err(Refusal::AnotherStream);
    }
    if t.len() < count {
        return Err(Refusal::TableFull);
    }
    if !taken(s, f, t, start as usize, count, links_of(shift)) {
        return Err(Refusal::OffTheChain);
    }
    Ok(ItemFinder {
        minimum_index: minimum,
        maximum_index: maximum,
        held: count,
        shift,
    })
}

// No places, though there are records.
fn lacks(count: usize, minimum: u32, maximum: u32) -> bool
    ensures { result ≡ both (eqb count 0) (ltb minimum maximum) }
{
    if count == 0 {
        return minimum < maximum;
    }
    false
}

// How many links a block has.
fn links_of(shift: u32) -> u32
    requires { shift ≤ 6 }
    ensures { result ≡ 2 ^ shift }
{
    1 << shift
}

// Whether so many links from place p lead to place q.
fn leads(s: &[u8], p: usize, links: u32, q: usize) -> bool
    requires { (length s.now ≤ 4294967294) × (p ≤ length s.now) }
    ensures { result ≡ ends (chain s.now p links) q }
{
    let mut at = p;
    let mut i: u32 = 0;
    while i < links {
        let place = at + 2;
        if place > s.len() {
            return false;
        }
        at = place + (half_at(s, at) as usize);
        if at > s.len() {
            return false;
        }
        i += 1;
    }
    at == q
}

// Whether the file's n places are on the chain: the first is its start, and each later one a block of links after the one before it.
fn on_chain(s: &[u8], f: &[u8], start: usize, n: usize, links: u32) -> bool
    requires { (length s.now ≤ 4294967294) × (4 * n ≤ length f.now) × (start ≤ length s.now) }
    ensures { result ≡ on_chain s.now links start (words_at n f.now 0) }
{
    if n == 0 {
        return true;
    }
    let mut p = word_at(f, 0) as usize;
    if p != start {
        return false;
    }
    let mut i: usize = 1;
    while i < n {
        let q = word_at(f, 4 * i) as usize;
        if !leads(s, p, links, q) {
            return false;
        }
        p = q;
        i += 1;
    }
    true
}

// The file's n places into the table, if they are on the chain: nothing is stored before that is known of all.
fn taken(s: &[u8], f: &[u8], t: &mut [u32], start: usize, n: usize, links: u32) -> bool
    requires { (length s.now ≤ 4294967294) × (4 * n ≤ length f.now) × (start ≤ length s.now) × (n ≤ length t.old) }
    ensures { Takes t.old (on_chain s.now links start (words_at n f.now 0)) (words_at n f.now 0) result t.new }
{
    let good = on_chain(s, f, start, n, links);
    if good {
        fill(f, t, n);
    }
    good
}

// The file's n places into the table.
fn fill(f: &[u8], t: &mut [u32], n: usize)
    requires { (4 * n ≤ length f.now) × (n ≤ length t.old) }
    ensures { t.new ≡ put t.old 0 (words_at n f.now 0) }
{
    let mut i: usize = 0;
    while i < n {
        t[i] = word_at(f, 4 * i);
        i += 1;
    }
}

// ---- saving

// The file that keeps the places of the finder f of the stream s, in the first bytes of the lent buffer. The places themselves are not looked
// at: `load` does that.
pub fn save(s: &[u8], f: ItemFinder, t: &[u32], out: &mut [u8]) -> Result<usize, Refusal>
    ensures { Saves out.old (save_of s.now (state f t.now) (length out.old)) result out.new }
{
    let h = Header::parse(s)?;
    saved(s.len(), f, t, out, h, Width::Narrow)
}

// The same in the form that holds the places: R-3's up to 65,535 of them, R-10's above.
pub fn save_wide(s: &[u8], f: ItemFinder, t: &[u32], out: &mut [u8]) -> Result<usize, Refusal>
    ensures { Saves out.old (save_wide_of s.now (state f t.now) (length out.old)) result out.new }
{
    let h = Header::parse(s)?;
    let w = width_for(f.held);
    saved(s.len(), f, t, out, h, w)
}

// The file of this form, of a stream of n bytes that has this header.
fn saved(
    n: usize,
    f: ItemFinder,
    t: &[u32],
    out: &mut [u8],
    h: Header,
    w: Width,
) -> Result<usize, Refusal>
    requires { n ≤ 4294967294 }
    ensures { Saves out.old (save_for (file_form_in w) n (state f t.now) (length out.old) h) result out.new }
{
    let minimum = h.minimum_index;
    let maximum = h.maximum_index;
    let start = h.header_size;
    let held = f.held;
    let shift = f.shift;
    if f.minimum_index != minimum {
        return Err(Refusal::AnotherStream);
    }
    if f.maximum_index != maximum {
        return Err(Refusal::AnotherStream);
    }
    if shift > LARGEST_SHIFT {
        return Err(Refusal::Shift);
    }
    if t.len() < held {
        return Err(Refusal::TableFull);
    }
    if held > most_of(w) {
        return Err(Refusal::TableFull);
    }
    let size = 4 * held + width_of(w) + 26;
    if out.len() < size {
        return Err(Refusal::NoRoom);
    }
    let k = Trailer {
        count: held as u32,
        shift: shift as u8,
        minimum_index: minimum,
        maximum_index: maximum,
        stream_length: n as u32,
        header_size: start,
        distance: size as u32,
    };
    let p = put_words(out, 0, t, held);
    Ok(put_trailer(out, p, k, w))
}

// The first n numbers of t at place p of a buffer that has room for them; and the place after them.
fn put_words(out: &mut [u8], p: usize, t: &[u32], n: usize) -> usize
    requires { (n ≤ length t.now) × Room out.old p (word_bytes (take n t.now)) }
    ensures { Puts out.old p (word_bytes (take n t.now)) result out.new }
{
    let mut to = p;
    let mut i: usize = 0;
    while i < n {
        to = field_put::put32(out, to, t[i]);
        i += 1;
    }
    to
}

// The count at place p of a buffer that has room for it; and the place after it.
fn put_count(out: &mut [u8], p: usize, n: u32, w: Width) -> usize
    requires { Room out.old p (bytes (file_form_in w).width n) × (n ≤ (file_form_in w).most) }
    ensures { Puts out.old p (bytes (file_form_in w).width n) result out.new }
{
    match w {
        Width::Narrow => field_put::put16(out, p, n as u16),
        Width::Wide => field_put::put32(out, p, n),
    }
}

// The trailer at place p of a buffer that has room for it; and the place after it.
fn put_trailer(out: &mut [u8], p: usize, k: Trailer, w: Width) -> usize
    requires { Room out.old p (trailer_bytes (file_form_in w) k) × (k.count ≤ (file_form_in w).most) }
    ensures { Puts out.old p (trailer_bytes (file_form_in w) k) result out.new }
{
    let numbers = [
        k.minimum_index,
        k.maximum_index,
        k.stream_length,
        k.header_size,
        k.distance,
    ];
    let letters = letters_of(w);
    let p1 = put_count(out, p, k.count, w);
    let p2 = field_put::put8(out, p1, k.shift);
    let p3 = field_put::put8(out, p2, 0);
    let p4 = put_words(out, p3, &numbers, 5);
    field_put::put_all(out, p4, &letters)
}
