// Strings and padding at a place of a slice of bytes.
#![tactic(auto, using(crate::proofs::Used::laws), unfolding(crate::specs::Texts::counted_string_at, crate::specs::Texts::padding_after, crate::specs::Texts::string_of, crate::specs::Zeros::zero_marks))]

ghost use Rattle.std.specs.Prelude.{◌≡◌, OnErr, ◌+◌, length};
ghost use Rattle.field.specs.Runs.{bytes_at};
ghost use Rattle.field_text.specs.Texts.{string_at, counted_string_at, string_of, more, padding_after, part};
ghost use Rattle.field_text.specs.Zeros.{zero_marks, ZeroAt};
ghost use Rattle.answer.specs.Refusals.{itself, said, said_read, said_from};

use answer::Refusal;
use field::reader::Reader;
use field::{fixed, run};

// A string: a part of the bytes that it was read from, where it starts and how many bytes it has.
#[derive(Clone, Copy)]
pub struct RawString {
    pub place: usize,
    pub length: usize,
}

// The marks of a word's eight bytes, the lowest first: the lowest set bit lies in the first byte that is zero; 0 where none is.
fn marks(x: u64) -> u64
    ensures { result ≡ zero_marks x }
{
    std::num::wrapping_sub_u64(x, 0x0101010101010101) & !x & 0x8080808080808080
}

// The first zero byte from place p on; past the end if there is none. Eight bytes at a time, and byte by byte where fewer are left.
fn zero_from(s: &[u8], p: usize) -> usize
    ensures { ZeroAt s.now p result }
{
    if s.len() < 8 {
        return zero_by_byte(s, p);
    }
    // the last place that has eight bytes: one test says both that the search goes on and that a word is there
    let last = s.len() - 8;
    let mut i = p;
    while i <= last {
        let Ok((x, _)) = fixed::u64_at(s, i) else {
            return zero_by_byte(s, i);
        };
        let m = marks(x);
        if m != 0 {
            return i + (u64::trailing_zeros(m) / 8) as usize;
        }
        i += 8;
    }
    zero_by_byte(s, i)
}

// The same, byte by byte.
fn zero_by_byte(s: &[u8], p: usize) -> usize
    ensures { ZeroAt s.now p result }
{
    let mut i = p;
    while i < s.len() {
        if s[i] == 0 {
            return i;
        }
        i += 1;
    }
    i
}

// The string at place p, up to a zero byte, and the place after that byte.
pub fn string_at(s: &[u8], p: usize) -> Result<(RawString, usize), Refusal>
    ensures { said_read part result ≡ string_at s.now p }
{
    let e = zero_from(s, p);
    if e < s.len() {
        return Ok((
            RawString {
                place: p,
                length: e - p,
            },
            e + 1,
        ));
    }
    Err(Refusal::Ended)
}

// The string at a reader's place.
pub fn read_string(r: &mut Reader<'_>) -> Result<RawString, Refusal>
    ensures value { said_from part result r.new.at ≡ string_at r.old.bytes.now r.old.at }
    ensures stays { OnErr result (r.new.at ≡ r.old.at) }
    ensures bytes { r.new.bytes ≡ r.old.bytes }
{
    let (t, at) = string_at(r.bytes, r.at)?;
    r.at = at;
    Ok(t)
}

impl RawString {
    // The string's bytes, s being what it was read from.
    pub fn bytes<'a>(self, s: &'a [u8]) -> &'a [u8]
        ensures { result.now ≡ bytes_at self.length s.now self.place }
    {
        run::bytes_at(s, self.place, self.length)
    }
}

// The string at place p that a length byte begins.
fn counted_string_at(s: &[u8], p: usize) -> Result<(RawString, usize), Refusal>
    ensures { said_read part result ≡ counted_string_at s.now p }
{
    let (n, q) = fixed::u8_at(s, p)?;
    let k = n as usize;
    let e = run::after_bytes(s, q, k)?;
    Ok((
        RawString {
            place: q,
            length: k,
        },
        e,
    ))
}

// The string of a record of this leaf: up to 0x1500 by a length byte, above it up to a zero byte.
pub fn string_of(leaf: u16, s: &[u8], p: usize) -> Result<(RawString, usize), Refusal>
    ensures { said_read part result ≡ string_of leaf s.now p }
{
    if leaf <= 0x1500 {
        return counted_string_at(s, p);
    }
    string_at(s, p)
}

// How many bytes a pad byte takes, itself counted.
fn pad_width(b: u8) -> usize
    ensures { result ≡ more b + 1 }
{
    let k = b % 16;
    if k == 0 { 1 } else { k as usize }
}

// The place after the padding at place p.
pub fn after_padding(s: &[u8], p: usize) -> Result<usize, Refusal>
    ensures { said itself result ≡ padding_after s.now p }
{
    if s.len() < p {
        return Err(Refusal::Ended);
    }
    let mut i = p;
    while i < s.len() {
        let b = s[i];
        if b < 0xf0 {
            return Ok(i);
        }
        let n = pad_width(b);
        if s.len() - i < n {
            return Err(Refusal::Ended);
        }
        i += n;
    }
    Ok(i)
}
