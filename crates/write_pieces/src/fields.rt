// The pieces of fields: a u16, a natural number as a numeric leaf, two bytes without a name. Each contract says which piece it is, and that its
// bytes are those of the field.
ghost use Rattle.std.specs.Prelude.{◌≡◌, List, ℕ, pos};
ghost use Rattle.answer.specs.Answer.{answered};
ghost use Rattle.field.specs.Bytes.{bytes};
ghost use Rattle.write_layout.specs.Fields.{fixed_bytes, numeric_bytes};
ghost use Rattle.write_pieces.specs.Pieces.{piece_of};
ghost use Rattle.write_pieces.specs.Fit.{natural_piece, half_piece};

use crate::Piece;

pub fn two_bytes(x: u16) -> Piece
    ensures { (result ≡ half_piece x) × ((t : List ℕ) → piece_of t result ≡ fixed_bytes 2 x) }
{
    Piece::Half(x)
}

// n, in as few bytes as carry it.
pub fn natural(n: u64) -> Piece
    ensures { (result ≡ natural_piece n) × ((t : List ℕ) → piece_of t result ≡ numeric_bytes (pos n)) }
{
    if n < 0x8000 {
        return Piece::Half(n as u16);
    }
    if n < 0x1_0000 {
        return Piece::Wide16(0x8002, n as u16);
    }
    if n < 0x1_0000_0000 {
        return Piece::Wide32(0x8004, n as u32);
    }
    Piece::Wide64(0x800a, n)
}

// Two bytes that 01 gives no name.
pub fn unnamed() -> Piece
    ensures { (result ≡ half_piece 0) × ((t : List ℕ) → piece_of t result ≡ answered (bytes 2 0)) }
{
    Piece::Half(0)
}
