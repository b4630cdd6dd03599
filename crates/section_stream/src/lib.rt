// A type stream made of a section of an object file: R-6 of document 02. Document 01's header E, its maximum and gprec_size fitted to the
// records, and then the records as they are: so they stand 52 bytes higher than in the section.
#![tactic(auto)]

ghost use Rattle.std.specs.Prelude.{◌≡◌, ◌+◌, ◌≤◌, length};
ghost use Rattle.answer.specs.Answer.{answered};
ghost use Rattle.write_layout.specs.Buffer.{lay, Writes};
ghost use Rattle.section_stream.specs.Streams.{header_for, stream_bytes, section_stream};
ghost use Rattle.answer.specs.Refusals.{itself, said};

use answer::Refusal;
use section_item::FIRST;
use stream_header::{Header, LONGEST, Slice};

// How much higher a record stands in the stream: the header is there, and the signature is not.
pub const HIGHER: usize = 52;

// The header of n records that take so many bytes.
fn header(n: u32, size: u32) -> Header
    requires { 4096 + n ≤ 4294967295 }
    ensures { result ≡ header_for n size }
{
    let nothing = Slice { offset: 0, size: 0 };
    Header {
        version: 20040203,
        header_size: 56,
        minimum_index: FIRST,
        maximum_index: FIRST + n,
        gprec_size: size,
        tpi_hash_stream: 0,
        tpi_hash_pad_stream: 0,
        hash_key_size: 0,
        hash_bucket_size: 0,
        hash_values: nothing,
        ti_off: nothing,
        hash_adj: nothing,
    }
}

// The stream of a section of n records, from place 0 of the buffer: 19 before anything is stored.
fn put_stream(s: &[u8], n: u32, out: &mut [u8]) -> Result<usize, Refusal>
    requires { (4 ≤ length s.now) × (length s.now ≤ 4294967242) × (4096 + n ≤ 4294967295) }
    ensures { Writes out.old (lay (answered (stream_bytes n s.now)) out.old 0) (said itself result) out.new }
{
    if out.len() < s.len() + HIGHER {
        return Err(Refusal::NoRoom);
    }
    let size = (s.len() - 4) as u32;
    let h = header(n, size);
    let p = write_header::write_header(h, out, 0)?;
    Ok(field_put::put_all(out, p, &s[4..]))
}

// The type stream of a section, from place 0 of the buffer. Everything else of the buffer stays as it was.
pub fn to_stream(s: &[u8], out: &mut [u8]) -> Result<usize, Refusal>
    ensures { Writes out.old (lay (section_stream s.now) out.old 0) (said itself result) out.new }
{
    if s.len() > LONGEST - HIGHER {
        return Err(Refusal::TooLong);
    }
    let n = section_item::len(s)?;
    put_stream(s, n, out)
}
