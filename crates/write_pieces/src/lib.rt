// The pieces that a record is made of, measured before the first byte is written, and then written one after the other. This is the only code
// of the writers that touches the lent buffer, but for the length and the leaf of a list. What a piece stands for is in specs/Pieces.antt, what
// the writers mean in crates/write_layout.
#![tactic(auto, using(crate::proofs::Used::laws), unfolding(field::specs::Bytes::bytes, field_put::specs::Bytes::put, write_layout::specs::Records::missing, write_layout::specs::Runs::no_zero, write_layout::specs::Runs::pads, write_layout::specs::Runs::zeros, crate::specs::Pieces::fine, crate::specs::Pieces::piece_of, crate::specs::Pieces::raw))]

pub mod fields;

ghost use Rattle.std.specs.Prelude.{◌≡◌, true, [], ◌∷◌, ◌++◌, ◌+◌, ◌≤◌, min, length};
ghost use Rattle.answer.specs.Answer.{answered, then};
ghost use Rattle.field.specs.Bytes.{bytes};
ghost use Rattle.field_put.specs.Bytes.{Puts, Room};
ghost use Rattle.write_layout.specs.Runs.{part_at, no_zero, pads, zeros};
ghost use Rattle.write_layout.specs.Records.{missing, limited};
ghost use Rattle.write_layout.specs.Lists.{filled_each};
ghost use Rattle.write_layout.specs.Buffer.{lay, Writes};
ghost use Rattle.write_pieces.specs.Pieces.{raw, fine, raw_all, fine_all, piece_of, pieces_of};
ghost use Rattle.answer.specs.Refusals.{itself, said};

use answer::Refusal;

// A part of a record, by what stands in its bytes.
#[derive(Clone, Copy)]
pub enum Piece {
    Nothing,
    // Fields that would not read back: 17.
    Bad,
    Byte(u8),
    Half(u16),
    Word(u32),
    // A numeric leaf's prefix and its number.
    Wide8(u16, u8),
    Wide16(u16, u16),
    Wide32(u16, u32),
    Wide64(u16, u64),
    // A string: so many bytes of the text from this place on, and a zero byte.
    Text(usize, usize),
    // So many bytes of the text from this place on.
    Run(usize, usize),
    Zeros(u16),
}

// Numbers of 1, 2 and 4 bytes, where there is room for them.

fn put8(out: &mut [u8], p: usize, x: u8) -> usize
    requires { Room out.old p (bytes 1 x) }
    ensures { Puts out.old p (bytes 1 x) result out.new }
{
    field_put::put8(out, p, x)
}

fn put16(out: &mut [u8], p: usize, x: u16) -> usize
    requires { Room out.old p (bytes 2 x) }
    ensures { Puts out.old p (bytes 2 x) result out.new }
{
    field_put::put16(out, p, x)
}

fn put32(out: &mut [u8], p: usize, x: u32) -> usize
    requires { Room out.old p (bytes 4 x) }
    ensures { Puts out.old p (bytes 4 x) result out.new }
{
    field_put::put32(out, p, x)
}

fn put64(out: &mut [u8], p: usize, x: u64) -> usize
    requires { Room out.old p (bytes 8 x) }
    ensures { Puts out.old p (bytes 8 x) result out.new }
{
    let q = put32(out, p, (x % 4294967296) as u32);
    put32(out, q, (x / 4294967296) as u32)
}

// A prefix and a number.

fn put_wide8(out: &mut [u8], p: usize, prefix: u16, x: u8) -> usize
    requires { Room out.old p (bytes 2 prefix ++ bytes 1 x) }
    ensures { Puts out.old p (bytes 2 prefix ++ bytes 1 x) result out.new }
{
    let q = put16(out, p, prefix);
    put8(out, q, x)
}

fn put_wide16(out: &mut [u8], p: usize, prefix: u16, x: u16) -> usize
    requires { Room out.old p (bytes 2 prefix ++ bytes 2 x) }
    ensures { Puts out.old p (bytes 2 prefix ++ bytes 2 x) result out.new }
{
    let q = put16(out, p, prefix);
    put16(out, q, x)
}

fn put_wide32(out: &mut [u8], p: usize, prefix: u16, x: u32) -> usize
    requires { Room out.old p (bytes 2 prefix ++ bytes 4 x) }
    ensures { Puts out.old p (bytes 2 prefix ++ bytes 4 x) result out.new }
{
    let q = put16(out, p, prefix);
    put32(out, q, x)
}

fn put_wide64(out: &mut [u8], p: usize, prefix: u16, x: u64) -> usize
    requires { Room out.old p (bytes 2 prefix ++ bytes 8 x) }
    ensures { Puts out.old p (bytes 2 prefix ++ bytes 8 x) result out.new }
{
    let q = put16(out, p, prefix);
    put64(out, q, x)
}

// n bytes of text, from place q on.
fn put_part(text: &[u8], q: usize, n: usize, out: &mut [u8], p: usize) -> usize
    requires { (q + n ≤ length text.now) × (Room out.old p (part_at text.now q n)) }
    ensures { Puts out.old p (part_at text.now q n) result out.new }
{
    for i in 0..n {
        out[p + i] = text[q + i];
    }
    p + n
}

// The same, and a zero byte.
fn put_text(text: &[u8], q: usize, n: usize, out: &mut [u8], p: usize) -> usize
    requires { (q + n ≤ length text.now) × (Room out.old p (part_at text.now q n ++ (0 ∷ []))) }
    ensures { Puts out.old p (part_at text.now q n ++ (0 ∷ [])) result out.new }
{
    let e = put_part(text, q, n, out, p);
    put8(out, e, 0)
}

fn put_zeros(out: &mut [u8], p: usize, n: u16) -> usize
    requires { Room out.old p (zeros n) }
    ensures { Puts out.old p (zeros n) result out.new }
{
    let end = p + n as usize;
    out[p..end].fill(0);
    end
}

fn put_pads(out: &mut [u8], p: usize, n: u8) -> usize
    requires { (n ≤ 3) × (Room out.old p (pads n)) }
    ensures { Puts out.old p (pads n) result out.new }
{
    for i in 0..n {
        out[p + i as usize] = 240 + (n - i);
    }
    p + n as usize
}

// Whether none of these n bytes is zero.
fn no_zero(text: &[u8], q: usize, n: usize) -> bool
    requires { q + n ≤ length text.now }
    ensures { result ≡ no_zero (part_at text.now q n) }
{
    !text[q..q + n].contains(&0)
}

// How many bytes a piece takes.
fn size_of(text: &[u8], x: Piece) -> Result<usize, Refusal>
    ensures { said itself result ≡ then (piece_of text.now x) (λ bs. answered (length bs)) }
{
    match x {
        Piece::Nothing => Ok(0),
        Piece::Bad => Err(Refusal::WouldNotReadBack),
        Piece::Byte(_) => Ok(1),
        Piece::Half(_) => Ok(2),
        Piece::Word(_) => Ok(4),
        Piece::Wide8(_, _) => Ok(3),
        Piece::Wide16(_, _) => Ok(4),
        Piece::Wide32(_, _) => Ok(6),
        Piece::Wide64(_, _) => Ok(10),
        Piece::Text(p, n) => {
            if text.len() < p || text.len() - p < n || !no_zero(text, p, n) {
                return Err(Refusal::WouldNotReadBack);
            }
            Ok(n + 1)
        }
        Piece::Run(p, n) => {
            if text.len() < p || text.len() - p < n {
                return Err(Refusal::WouldNotReadBack);
            }
            Ok(n)
        }
        Piece::Zeros(n) => Ok(n as usize),
    }
}

// A piece that is fine, where there is room for it; the place after it.
fn put_piece(text: &[u8], x: Piece, out: &mut [u8], p: usize) -> usize
    requires { (fine text.now x ≡ true) × (Room out.old p (raw text.now x)) }
    ensures { Puts out.old p (raw text.now x) result out.new }
{
    match x {
        Piece::Nothing => p,
        Piece::Bad => p,
        Piece::Byte(b) => put8(out, p, b),
        Piece::Half(b) => put16(out, p, b),
        Piece::Word(b) => put32(out, p, b),
        Piece::Wide8(prefix, b) => put_wide8(out, p, prefix, b),
        Piece::Wide16(prefix, b) => put_wide16(out, p, prefix, b),
        Piece::Wide32(prefix, b) => put_wide32(out, p, prefix, b),
        Piece::Wide64(prefix, b) => put_wide64(out, p, prefix, b),
        Piece::Text(q, n) => put_text(text, q, n, out, p),
        Piece::Run(q, n) => put_part(text, q, n, out, p),
        Piece::Zeros(n) => put_zeros(out, p, n),
    }
}

// n + k, held at 65,536: a payload is refused from there on.
pub fn capped_sum(n: usize, k: usize) -> usize
    ensures { result ≡ min (n + k) 65536 }
{
    if 65536 < n {
        return 65536;
    }
    if 65536 - n < k {
        return 65536;
    }
    n + k
}

// How many bytes the pieces take, held at 65,536.
pub fn measured(text: &[u8], xs: [Piece; 16]) -> Result<usize, Refusal>
    ensures { said itself result ≡ then (pieces_of text.now xs) (λ bs. answered (min (length bs) 65536)) }
{
    let mut n = 0;
    for x in xs {
        let k = size_of(text, x)?;
        n = capped_sum(n, k);
    }
    Ok(n)
}

// The pieces, where they are fine and there is room for them; the place after them.
fn put_pieces(text: &[u8], xs: [Piece; 16], out: &mut [u8], p: usize) -> usize
    requires { (fine_all text.now xs ≡ true) × (Room out.old p (raw_all text.now xs)) }
    ensures { Puts out.old p (raw_all text.now xs) result out.new }
{
    let mut to = p;
    for x in xs {
        to = put_piece(text, x, out, to);
    }
    to
}

// How many pad bytes fill n bytes to a multiple of four.
fn pad_count(n: usize) -> u8
    requires { n ≤ 65538 }
    ensures { (result ≡ missing n) × (result ≤ 3) }
{
    ((4 - n % 4) % 4) as u8
}

// The pieces and pad bytes, where there is room for them.
fn put_filled(text: &[u8], xs: [Piece; 16], out: &mut [u8], p: usize, pad: u8) -> usize
    requires { (fine_all text.now xs ≡ true) × (pad ≤ 3) × (Room out.old p (raw_all text.now xs ++ pads pad)) }
    ensures { Puts out.old p (raw_all text.now xs ++ pads pad) result out.new }
{
    let q = put_pieces(text, xs, out, p);
    put_pads(out, q, pad)
}

// The pieces as they are, without a length and pad bytes. 17, 18 and 19 before the first byte is written.
pub fn write_plain(
    text: &[u8],
    xs: [Piece; 16],
    out: &mut [u8],
    at: usize,
) -> Result<usize, Refusal>
    ensures { Writes out.old (lay (limited (pieces_of text.now xs)) out.old at) (said itself result) out.new }
{
    let n = measured(text, xs)?;
    if 65535 < n {
        return Err(Refusal::RecordTooLong);
    }
    if out.len() < at {
        return Err(Refusal::NoRoom);
    }
    if out.len() - at < n {
        return Err(Refusal::NoRoom);
    }
    Ok(put_pieces(text, xs, out, at))
}

// The pieces and pad bytes that fill them to a multiple of four, without a length: a member of a field list.
pub fn write_filled(
    text: &[u8],
    xs: [Piece; 16],
    out: &mut [u8],
    at: usize,
) -> Result<usize, Refusal>
    ensures { Writes out.old (lay (limited (filled_each (pieces_of text.now xs))) out.old at) (said itself result) out.new }
{
    let n = measured(text, xs)?;
    let pad = pad_count(n);
    let length = n + (pad as usize);
    if 65535 < length {
        return Err(Refusal::RecordTooLong);
    }
    if out.len() < at {
        return Err(Refusal::NoRoom);
    }
    if out.len() - at < length {
        return Err(Refusal::NoRoom);
    }
    Ok(put_filled(text, xs, out, at, pad))
}
