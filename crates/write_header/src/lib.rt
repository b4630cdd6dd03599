// The header of a stream, into a lent buffer: 56 bytes, and zeros up to header_size.
#![tactic(auto, using(crate::proofs::Used::laws), unfolding(crate::specs::Headers::header_fields, write_pieces::specs::Pieces::fine, write_pieces::specs::Pieces::piece_of, write_pieces::specs::Pieces::pieces_of, write_pieces::specs::Pieces::raw))]

ghost use Rattle.std.specs.Prelude.{◌≡◌, List, ℕ, ◌≤◌};
ghost use Rattle.answer.specs.Answer.{answered};
ghost use Rattle.write_layout.specs.Buffer.{lay, Writes};
ghost use Rattle.write_pieces.specs.Pieces.{pieces_of};
ghost use Rattle.write_header.specs.Headers.{offset_bits, header_fields, header_bytes};
ghost use Rattle.answer.specs.Refusals.{itself, said};

use answer::Refusal;
use stream_header::{Header, Slice};
use write_pieces::Piece;

// An i32 as two's complement.
fn offset_bits(s: Slice) -> u32
    ensures { result ≡ offset_bits s.offset }
{
    let x = s.offset;
    if x < 0 {
        0xffff_ffff - ((-1 - x) as u32)
    } else {
        x as u32
    }
}

fn header_pieces(h: Header) -> [Piece; 16]
    requires { (56 ≤ h.header_size) × (h.header_size ≤ 1024) }
    ensures { (t : List ℕ) → pieces_of t result ≡ answered (header_fields h) }
{
    [
        Piece::Word(h.version),
        Piece::Word(h.header_size),
        Piece::Word(h.minimum_index),
        Piece::Word(h.maximum_index),
        Piece::Word(h.gprec_size),
        Piece::Half(h.tpi_hash_stream),
        Piece::Half(h.tpi_hash_pad_stream),
        Piece::Word(h.hash_key_size),
        Piece::Word(h.hash_bucket_size),
        Piece::Word(offset_bits(h.hash_values)),
        Piece::Word(h.hash_values.size),
        Piece::Word(offset_bits(h.ti_off)),
        Piece::Word(h.ti_off.size),
        Piece::Word(offset_bits(h.hash_adj)),
        Piece::Word(h.hash_adj.size),
        Piece::Zeros((h.header_size - 56) as u16),
    ]
}

// A header at a place of the buffer: 2, 3, 4, 5, then 19. Everything else of the buffer stays as it was.
pub fn write_header(h: Header, out: &mut [u8], at: usize) -> Result<usize, Refusal>
    ensures { Writes out.old (lay (header_bytes h) out.old at) (said itself result) out.new }
{
    if h.header_size < 56 {
        return Err(Refusal::HeaderSmall);
    }
    if 1024 < h.header_size {
        return Err(Refusal::HeaderLarge);
    }
    if h.minimum_index < 4096 {
        return Err(Refusal::MinimumLow);
    }
    if h.maximum_index < h.minimum_index {
        return Err(Refusal::MaximumLow);
    }
    write_pieces::write_plain(b"", header_pieces(h), out, at)
}
