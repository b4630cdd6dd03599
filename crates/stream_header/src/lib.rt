// The header of a TPI or IPI stream: 56 bytes, little-endian, and their checks in document 01's order.
#![tactic(auto, using(crate::proofs::Used::laws))]

ghost use Rattle.std.specs.Prelude.{◌≡◌, ◌+◌, ◌-◌, ◌≤◌, length};
ghost use Rattle.std.specs.Int.{w32};
ghost use Rattle.std.proofs.Common.{to_z};
ghost use Rattle.field.specs.Fields.{little_at, twos};
ghost use Rattle.stream_header.specs.Header.{slice_of, fields_of, zero_header, header_of};
ghost use Rattle.answer.specs.Refusals.{itself, said};

use answer::Refusal;
use field::fixed;

// The longest stream: each of its places, and the place after it, is a u32 below the largest.
pub const LONGEST: usize = 4294967294;

// Where a part of the hash stream lies.
#[derive(Clone, Copy)]
pub struct Slice {
    pub offset: i32,
    pub size: u32,
}

// All fields of a header, by the crate's names.
#[derive(Clone, Copy)]
pub struct Header {
    pub version: u32,
    pub header_size: u32,
    pub minimum_index: u32,
    pub maximum_index: u32,
    pub gprec_size: u32,
    pub tpi_hash_stream: u16,
    pub tpi_hash_pad_stream: u16,
    pub hash_key_size: u32,
    pub hash_bucket_size: u32,
    pub hash_values: Slice,
    pub ti_off: Slice,
    pub hash_adj: Slice,
}

impl Header {
    // The header of a stream.
    pub fn parse(s: &[u8]) -> Result<Header, Refusal>
        ensures { said itself result ≡ header_of s.now }
    {
        if s.len() > LONGEST {
            return Err(Refusal::TooLong);
        }
        if s.len() == 0 {
            return Ok(none());
        }
        if s.len() < 56 {
            return Err(Refusal::Ended);
        }
        let header_size = word_at(s, 4);
        if header_size < 56 {
            return Err(Refusal::HeaderSmall);
        }
        if header_size > 1024 {
            return Err(Refusal::HeaderLarge);
        }
        if s.len() < header_size as usize {
            return Err(Refusal::Ended);
        }
        let minimum_index = word_at(s, 8);
        if minimum_index < 4096 {
            return Err(Refusal::MinimumLow);
        }
        let maximum_index = word_at(s, 12);
        if maximum_index < minimum_index {
            return Err(Refusal::MaximumLow);
        }
        Ok(fields(s))
    }

    // The record count: maximum minus minimum, and none where a made-up header has its maximum below its minimum.
    pub fn count(self) -> u32
        ensures { result ≡ self.maximum_index - self.minimum_index }
    {
        let minimum = self.minimum_index;
        let maximum = self.maximum_index;
        if maximum < minimum {
            return 0;
        }
        maximum - minimum
    }
}

// The number at place p of a header that is all there. The caller has tested the length, so that the test for the end goes away.

fn half_at(s: &[u8], p: usize) -> u16
    requires { p + 2 ≤ length s.now }
    ensures { result ≡ little_at 2 s.now p }
{
    match fixed::u16_at(s, p) {
        Ok((x, _)) => x,
        Err(_) => 0,
    }
}

fn word_at(s: &[u8], p: usize) -> u32
    requires { p + 4 ≤ length s.now }
    ensures { result ≡ little_at 4 s.now p }
{
    match fixed::u32_at(s, p) {
        Ok((x, _)) => x,
        Err(_) => 0,
    }
}

// The bits x as two's complement. Compiles to nothing.
fn signed(x: u32) -> i32
    ensures { result ≡ to_z w32 x }
{
    if x < 0x8000_0000 {
        return x as i32;
    }
    -1 - ((0xffff_ffff - x) as i32)
}

fn signed_at(s: &[u8], p: usize) -> i32
    requires { p + 4 ≤ length s.now }
    ensures { result ≡ twos 4 (little_at 4 s.now p) }
{
    signed(word_at(s, p))
}

// The offset and the size at place p of a header that is all there.
fn slice_at(s: &[u8], p: usize) -> Slice
    requires { p + 8 ≤ length s.now }
    ensures { result ≡ slice_of s.now p }
{
    let offset = signed_at(s, p);
    let size = word_at(s, p + 4);
    Slice { offset, size }
}

// The fields of a header that is all there.
fn fields(s: &[u8]) -> Header
    requires { 56 ≤ length s.now }
    ensures { result ≡ fields_of s.now }
{
    let version = word_at(s, 0);
    let header_size = word_at(s, 4);
    let minimum_index = word_at(s, 8);
    let maximum_index = word_at(s, 12);
    let gprec_size = word_at(s, 16);
    let tpi_hash_stream = half_at(s, 20);
    let tpi_hash_pad_stream = half_at(s, 22);
    let hash_key_size = word_at(s, 24);
    let hash_bucket_size = word_at(s, 28);
    let hash_values = slice_at(s, 32);
    let ti_off = slice_at(s, 40);
    let hash_adj = slice_at(s, 48);
    Header {
        version,
        header_size,
        minimum_index,
        maximum_index,
        gprec_size,
        tpi_hash_stream,
        tpi_hash_pad_stream,
        hash_key_size,
        hash_bucket_size,
        hash_values,
        ti_off,
        hash_adj,
    }
}

// The header of an empty stream, which stands for a stream that the database does not have.
fn none() -> Header
    ensures { result ≡ zero_header }
{
    let hash_values = Slice { offset: 0, size: 0 };
    let ti_off = Slice { offset: 0, size: 0 };
    let hash_adj = Slice { offset: 0, size: 0 };
    Header {
        version: 0,
        header_size: 0,
        minimum_index: 0,
        maximum_index: 0,
        gprec_size: 0,
        tpi_hash_stream: 0,
        tpi_hash_pad_stream: 0,
        hash_key_size: 0,
        hash_bucket_size: 0,
        hash_values,
        ti_off,
        hash_adj,
    }
}
