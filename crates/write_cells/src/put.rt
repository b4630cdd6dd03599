// The bytes of a piece, straight into a lent buffer where there is room for them, and how many they are. What a piece stands for is in
// crates/write_pieces/specs.
ghost use Rattle.std.specs.Prelude.{◌≡◌, true, [], ◌∷◌, ◌++◌, ◌+◌, ◌≤◌, length};
ghost use Rattle.answer.specs.Answer.{answered, then};
ghost use Rattle.field.specs.Bytes.{bytes};
ghost use Rattle.field_put.specs.Bytes.{Puts, Room};
ghost use Rattle.write_layout.specs.Runs.{part_at, no_zero, pads, zeros};
ghost use Rattle.write_layout.specs.Records.{missing};
ghost use Rattle.write_pieces.specs.Pieces.{raw, fine, piece_of};
ghost use Rattle.answer.specs.Refusals.{itself, said};

use answer::Refusal;
use write_pieces::Piece;

fn put8(out: &mut [u8], p: usize, x: u8) -> usize
    requires { Room out.old p (bytes 1 x) }
    ensures { Puts out.old p (bytes 1 x) result out.new }
{
    out[p] = x;
    p + 1
}

pub fn put16(out: &mut [u8], p: usize, x: u16) -> usize
    requires { Room out.old p (bytes 2 x) }
    ensures { Puts out.old p (bytes 2 x) result out.new }
{
    out[p] = (x % 256) as u8;
    out[p + 1] = (x / 256) as u8;
    p + 2
}

fn put32(out: &mut [u8], p: usize, x: u32) -> usize
    requires { Room out.old p (bytes 4 x) }
    ensures { Puts out.old p (bytes 4 x) result out.new }
{
    let q = put16(out, p, (x % 65536) as u16);
    put16(out, q, (x / 65536) as u16)
}

fn put64(out: &mut [u8], p: usize, x: u64) -> usize
    requires { Room out.old p (bytes 8 x) }
    ensures { Puts out.old p (bytes 8 x) result out.new }
{
    let q = put32(out, p, (x % 4294967296) as u32);
    put32(out, q, (x / 4294967296) as u32)
}

fn put_wide8(out: &mut [u8], p: usize, prefix: u16, x: u8) -> usize
    requires { Room out.old p (bytes 2 prefix ++ bytes 1 x) }
    ensures { Puts out.old p (bytes 2 prefix ++ bytes 1 x) result out.new }
{
    let q = put16(out, p, prefix);
    put8(out, q, x)
}

fn put_wide16(out: &mut [u8], p: usize, prefix: u16, x: u16) -> usize
    requires { Room out.old p (bytes 2 prefix ++ bytes 2 x) }
    ensures { Puts out.old p (bytes 2 prefix ++ bytes 2 x) result out.new }
{
    let q = put16(out, p, prefix);
    put16(out, q, x)
}

fn put_wide32(out: &mut [u8], p: usize, prefix: u16, x: u32) -> usize
    requires { Room out.old p (bytes 2 prefix ++ bytes 4 x) }
    ensures { Puts out.old p (bytes 2 prefix ++ bytes 4 x) result out.new }
{
    let q = put16(out, p, prefix);
    put32(out, q, x)
}

fn put_wide64(out: &mut [u8], p: usize, prefix: u16, x: u64) -> usize
    requires { Room out.old p (bytes 2 prefix ++ bytes 8 x) }
    ensures { Puts out.old p (bytes 2 prefix ++ bytes 8 x) result out.new }
{
    let q = put16(out, p, prefix);
    put64(out, q, x)
}

// n bytes of text, from place q on.
fn put_part(text: &[u8], q: usize, n: usize, out: &mut [u8], p: usize) -> usize
    requires { (q + n ≤ length text.now) × (Room out.old p (part_at text.now q n)) }
    ensures { Puts out.old p (part_at text.now q n) result out.new }
{
    for i in 0..n {
        out[p + i] = text[q + i];
    }
    p + n
}

// The same, and a zero byte.
fn put_text(text: &[u8], q: usize, n: usize, out: &mut [u8], p: usize) -> usize
    requires { (q + n ≤ length text.now) × (Room out.old p (part_at text.now q n ++ (0 ∷ []))) }
    ensures { Puts out.old p (part_at text.now q n ++ (0 ∷ [])) result out.new }
{
    let e = put_part(text, q, n, out, p);
    put8(out, e, 0)
}

fn put_zeros(out: &mut [u8], p: usize, n: u16) -> usize
    requires { Room out.old p (zeros n) }
    ensures { Puts out.old p (zeros n) result out.new }
{
    let end = p + n as usize;
    out[p..end].fill(0);
    end
}

pub fn put_pads(out: &mut [u8], p: usize, n: u8) -> usize
    requires { (n ≤ 3) × (Room out.old p (pads n)) }
    ensures { Puts out.old p (pads n) result out.new }
{
    for i in 0..n {
        out[p + i as usize] = 240 + (n - i);
    }
    p + n as usize
}

// Whether none of these n bytes is zero.
fn no_zero(text: &[u8], q: usize, n: usize) -> bool
    requires { q + n ≤ length text.now }
    ensures { result ≡ no_zero (part_at text.now q n) }
{
    match field_text::string_at(&text[q..q + n], 0) {
        Ok(_) => false,
        Err(_) => true,
    }
}

// How many bytes a piece takes.
pub fn size_of(text: &[u8], x: Piece) -> Result<usize, Refusal>
    ensures { said itself result ≡ then (piece_of text.now x) (λ bs. answered (length bs)) }
{
    match x {
        Piece::Nothing => Ok(0),
        Piece::Bad => Err(Refusal::WouldNotReadBack),
        Piece::Byte(_) => Ok(1),
        Piece::Half(_) => Ok(2),
        Piece::Word(_) => Ok(4),
        Piece::Wide8(_, _) => Ok(3),
        Piece::Wide16(_, _) => Ok(4),
        Piece::Wide32(_, _) => Ok(6),
        Piece::Wide64(_, _) => Ok(10),
        Piece::Text(p, n) => {
            if text.len() < p || text.len() - p < n || !no_zero(text, p, n) {
                return Err(Refusal::WouldNotReadBack);
            }
            Ok(n + 1)
        }
        Piece::Run(p, n) => {
            if text.len() < p || text.len() - p < n {
                return Err(Refusal::WouldNotReadBack);
            }
            Ok(n)
        }
        Piece::Zeros(n) => Ok(n as usize),
    }
}

// A piece that is fine, where there is room for it; the place after it.
pub fn put_piece(text: &[u8], x: Piece, out: &mut [u8], p: usize) -> usize
    requires { (fine text.now x ≡ true) × (Room out.old p (raw text.now x)) }
    ensures { Puts out.old p (raw text.now x) result out.new }
{
    match x {
        Piece::Nothing => p,
        Piece::Bad => p,
        Piece::Byte(b) => put8(out, p, b),
        Piece::Half(b) => put16(out, p, b),
        Piece::Word(b) => put32(out, p, b),
        Piece::Wide8(prefix, b) => put_wide8(out, p, prefix, b),
        Piece::Wide16(prefix, b) => put_wide16(out, p, prefix, b),
        Piece::Wide32(prefix, b) => put_wide32(out, p, prefix, b),
        Piece::Wide64(prefix, b) => put_wide64(out, p, prefix, b),
        Piece::Text(q, n) => put_text(text, q, n, out, p),
        Piece::Run(q, n) => put_part(text, q, n, out, p),
        Piece::Zeros(n) => put_zeros(out, p, n),
    }
}

// How many pad bytes fill n bytes to a multiple of four.
pub fn pad_count(n: usize) -> u8
    requires { n ≤ 65538 }
    ensures { (result ≡ missing n) × (result ≤ 3) }
{
    ((4 - n % 4) % 4) as u8
}
