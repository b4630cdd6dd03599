// A field list, 0x1203, and a method list, 0x1206, with all their elements in one call, into a lent buffer. The elements are rows of numbers
// (rows.rt), their strings parts of a lent text. Every row is looked at before the first byte is written, so that 17 of any element comes
// before 18 and 19 of the whole.
#![tactic(auto, using(crate::proofs::Used::laws), unfolding(answer::specs::Tables::among, answer::specs::Tables::find, record_layout::specs::Layouts::member_leaves, word_attributes::specs::Words::introducing, write_layout::specs::Fields::size_bytes, write_layout::specs::Fields::write_field, write_layout::specs::Fields::write_fields, write_layout::specs::Lists::field_list_bytes, write_layout::specs::Lists::method_list_bytes, write_layout::specs::Records::missing, write_layout::specs::Records::write_leaf, crate::specs::Elements::element_bytes, crate::specs::Elements::ends_after, crate::specs::Rows::base_class, crate::specs::Rows::continuation, crate::specs::Rows::data_member, crate::specs::Rows::direct_base, crate::specs::Rows::enumerate, crate::specs::Rows::indirect_base, crate::specs::Rows::list_method, crate::specs::Rows::nested, crate::specs::Rows::one_method, crate::specs::Rows::overloads, crate::specs::Rows::row_values, crate::specs::Rows::static_member, crate::specs::Rows::table_pointer, write_pieces::specs::Pieces::fine, write_pieces::specs::Pieces::piece_of, write_pieces::specs::Pieces::pieces_of))]

pub mod rows;

ghost use Rattle.std.specs.Prelude.{true, false, ◌≡◌, List, ◌++◌, ℕ, ◌+◌, ◌≤◌, min, length, negsuc};
ghost use Rattle.answer.specs.Answer.{answered, then};
ghost use Rattle.field.specs.Bytes.{bytes};
ghost use Rattle.field_put.specs.Bytes.{Puts, Room};
ghost use Rattle.record_layout.specs.Layouts.{member_leaves, method, string_field, offset};
ghost use Rattle.write_layout.specs.Fields.{given_all, bad, fixed_bytes, numeric_bytes, of_number, write_field, write_fields, and_also, encodes, encoded_bytes};
ghost use Rattle.write_layout.specs.Records.{write_leaf, missing, record_bytes};
ghost use Rattle.write_layout.specs.Lists.{filled_member, field_list_bytes, method_list_bytes};
ghost use Rattle.write_layout.specs.Buffer.{lay, Writes};
ghost use Rattle.write_pieces.specs.Pieces.{piece_of, pieces_of};
ghost use Rattle.write_list.specs.Rows.{text_to_write, signed_of, present_of, base_class, direct_base, indirect_base, continuation, table_pointer, enumerate, data_member, static_member, overloads, nested, one_method, list_method, member_rows, method_rows};
ghost use Rattle.write_list.specs.Elements.{given_bare, element_bytes, ends_after, elements_bytes, good_all, held_all};
ghost use Rattle.answer.specs.Refusals.{itself, said};

use answer::Refusal;
use write_pieces::Piece;

// Numbers of a row, which may be too large for their field.

fn narrow16(x: u64) -> Piece
    ensures { (t : List ℕ) → piece_of t result ≡ fixed_bytes 2 x }
{
    if x < 0x1_0000 {
        return Piece::Half(x as u16);
    }
    Piece::Bad
}

fn narrow32(x: u64) -> Piece
    ensures { (t : List ℕ) → piece_of t result ≡ fixed_bytes 4 x }
{
    if x < 0x1_0000_0000 {
        return Piece::Word(x as u32);
    }
    Piece::Bad
}

// -1 - n, in as few bytes as carry it; 17 where none do.
fn negative(n: u64) -> Piece
    ensures { (t : List ℕ) → piece_of t result ≡ numeric_bytes (negsuc n) }
{
    if n < 0x80 {
        return Piece::Wide8(0x8000, 0xff - (n as u8));
    }
    if n < 0x8000 {
        return Piece::Wide16(0x8001, 0xffff - (n as u16));
    }
    if n < 0x8000_0000 {
        return Piece::Wide32(0x8003, 0xffff_ffff - (n as u32));
    }
    if n < 0x8000_0000_0000_0000 {
        return Piece::Wide64(0x8009, 0xffff_ffff_ffff_ffff - n);
    }
    Piece::Bad
}

// A sign, 0 or not, and n or -1 - n.
fn signed(sign: u64, n: u64) -> Piece
    ensures { (t : List ℕ) → piece_of t result ≡ numeric_bytes (signed_of sign n) }
{
    if sign == 0 {
        return write_pieces::fields::natural(n);
    }
    negative(n)
}

fn part_text(place: u64, length: u64) -> Piece
    ensures { (t : List ℕ) (w : ℕ) → piece_of t result ≡ write_field string_field w (given_bare t (text_to_write place length)) }
{
    Piece::Text(place as usize, length as usize)
}

fn offset_there(present: u64, x: u64) -> Piece
    ensures { (t : List ℕ) → piece_of t result ≡ of_number (given_bare t (present_of present x)) (fixed_bytes 4) }
{
    if present == 0 {
        return Piece::Bad;
    }
    narrow32(x)
}

// The offset of a method, present or not, which is there exactly if the attributes say so.
fn offset(attributes: u64, present: u64, x: u64) -> Piece
    ensures { (t : List ℕ) → piece_of t result ≡ write_field offset attributes (given_bare t (present_of present x)) }
{
    let property = attributes / 4 % 8;
    if property == 4 {
        return offset_there(present, x);
    }
    if property == 6 {
        return offset_there(present, x);
    }
    if present == 0 {
        return Piece::Nothing;
    }
    Piece::Bad
}

// The pieces of each member.

fn base_class(row: [u64; 8]) -> [Piece; 16]
    ensures { (t : List ℕ) → pieces_of t result ≡ write_leaf member_leaves (given_all t (base_class row)) }
{
    let mut xs = [Piece::Nothing; 16];
    xs[0] = write_pieces::fields::two_bytes(0x1400);
    xs[1] = narrow16(row[1]);
    xs[2] = narrow32(row[2]);
    xs[3] = write_pieces::fields::natural(row[3]);
    xs
}

fn direct_base(row: [u64; 8]) -> [Piece; 16]
    ensures { (t : List ℕ) → pieces_of t result ≡ write_leaf member_leaves (given_all t (direct_base row)) }
{
    let mut xs = [Piece::Nothing; 16];
    xs[0] = write_pieces::fields::two_bytes(0x1401);
    xs[1] = narrow16(row[1]);
    xs[2] = narrow32(row[2]);
    xs[3] = narrow32(row[3]);
    xs[4] = write_pieces::fields::natural(row[4]);
    xs[5] = write_pieces::fields::natural(row[5]);
    xs
}

fn indirect_base(row: [u64; 8]) -> [Piece; 16]
    ensures { (t : List ℕ) → pieces_of t result ≡ write_leaf member_leaves (given_all t (indirect_base row)) }
{
    let mut xs = [Piece::Nothing; 16];
    xs[0] = write_pieces::fields::two_bytes(0x1402);
    xs[1] = narrow16(row[1]);
    xs[2] = narrow32(row[2]);
    xs[3] = narrow32(row[3]);
    xs[4] = write_pieces::fields::natural(row[4]);
    xs[5] = write_pieces::fields::natural(row[5]);
    xs
}

fn list_end(row: [u64; 8]) -> [Piece; 16]
    ensures { (t : List ℕ) → pieces_of t result ≡ write_leaf member_leaves (given_all t (continuation row)) }
{
    let mut xs = [Piece::Nothing; 16];
    xs[0] = write_pieces::fields::two_bytes(0x1404);
    xs[1] = write_pieces::fields::unnamed();
    xs[2] = narrow32(row[1]);
    xs
}

fn table_pointer(row: [u64; 8]) -> [Piece; 16]
    ensures { (t : List ℕ) → pieces_of t result ≡ write_leaf member_leaves (given_all t (table_pointer row)) }
{
    let mut xs = [Piece::Nothing; 16];
    xs[0] = write_pieces::fields::two_bytes(0x1409);
    xs[1] = write_pieces::fields::unnamed();
    xs[2] = narrow32(row[1]);
    xs
}

fn enumerate_value(row: [u64; 8]) -> [Piece; 16]
    ensures { (t : List ℕ) → pieces_of t result ≡ write_leaf member_leaves (given_all t (enumerate row)) }
{
    let mut xs = [Piece::Nothing; 16];
    xs[0] = write_pieces::fields::two_bytes(0x1502);
    xs[1] = narrow16(row[1]);
    xs[2] = signed(row[2], row[3]);
    xs[3] = part_text(row[4], row[5]);
    xs
}

fn data_member(row: [u64; 8]) -> [Piece; 16]
    ensures { (t : List ℕ) → pieces_of t result ≡ write_leaf member_leaves (given_all t (data_member row)) }
{
    let mut xs = [Piece::Nothing; 16];
    xs[0] = write_pieces::fields::two_bytes(0x150d);
    xs[1] = narrow16(row[1]);
    xs[2] = narrow32(row[2]);
    xs[3] = write_pieces::fields::natural(row[3]);
    xs[4] = part_text(row[4], row[5]);
    xs
}

fn static_member(row: [u64; 8]) -> [Piece; 16]
    ensures { (t : List ℕ) → pieces_of t result ≡ write_leaf member_leaves (given_all t (static_member row)) }
{
    let mut xs = [Piece::Nothing; 16];
    xs[0] = write_pieces::fields::two_bytes(0x150e);
    xs[1] = narrow16(row[1]);
    xs[2] = narrow32(row[2]);
    xs[3] = part_text(row[3], row[4]);
    xs
}

fn overloaded(row: [u64; 8]) -> [Piece; 16]
    ensures { (t : List ℕ) → pieces_of t result ≡ write_leaf member_leaves (given_all t (overloads row)) }
{
    let mut xs = [Piece::Nothing; 16];
    xs[0] = write_pieces::fields::two_bytes(0x150f);
    xs[1] = narrow16(row[1]);
    xs[2] = narrow32(row[2]);
    xs[3] = part_text(row[3], row[4]);
    xs
}

fn nested_type(row: [u64; 8]) -> [Piece; 16]
    ensures { (t : List ℕ) → pieces_of t result ≡ write_leaf member_leaves (given_all t (nested row)) }
{
    let mut xs = [Piece::Nothing; 16];
    xs[0] = write_pieces::fields::two_bytes(0x1510);
    xs[1] = narrow16(row[1]);
    xs[2] = narrow32(row[2]);
    xs[3] = part_text(row[3], row[4]);
    xs
}

fn one_method(row: [u64; 8]) -> [Piece; 16]
    ensures { (t : List ℕ) → pieces_of t result ≡ write_leaf member_leaves (given_all t (one_method row)) }
{
    let mut xs = [Piece::Nothing; 16];
    xs[0] = write_pieces::fields::two_bytes(0x1511);
    xs[1] = narrow16(row[1]);
    xs[2] = narrow32(row[2]);
    xs[3] = offset(row[1], row[3], row[4]);
    xs[4] = part_text(row[5], row[6]);
    xs
}

fn no_member() -> [Piece; 16]
    ensures { (t : List ℕ) → pieces_of t result ≡ bad }
{
    let mut xs = [Piece::Nothing; 16];
    xs[0] = Piece::Bad;
    xs
}

fn member_pieces(row: [u64; 8]) -> [Piece; 16]
    ensures { (t : List ℕ) → pieces_of t result ≡ element_bytes 0x1203 t row }
{
    match row[0] {
        0x1400 => base_class(row),
        0x1401 => direct_base(row),
        0x1402 => indirect_base(row),
        0x1404 => list_end(row),
        0x1409 => table_pointer(row),
        0x1502 => enumerate_value(row),
        0x150d => data_member(row),
        0x150e => static_member(row),
        0x150f => overloaded(row),
        0x1510 => nested_type(row),
        0x1511 => one_method(row),
        _ => no_member(),
    }
}

fn method_pieces(row: [u64; 8]) -> [Piece; 16]
    ensures { (t : List ℕ) → pieces_of t result ≡ write_fields method 0 (given_all t (list_method row)) }
{
    let mut xs = [Piece::Nothing; 16];
    xs[0] = narrow16(row[0]);
    xs[1] = write_pieces::fields::unnamed();
    xs[2] = narrow32(row[1]);
    xs[3] = offset(row[0], row[2], row[3]);
    xs
}

// Both lists, by their leaf -------------------------------------------------------------------------------------------------------

fn element_pieces(leaf: u16, row: [u64; 8]) -> [Piece; 16]
    ensures { (t : List ℕ) → pieces_of t result ≡ element_bytes leaf t row }
{
    if leaf == 0x1203 {
        member_pieces(row)
    } else {
        method_pieces(row)
    }
}

// Whether nothing may follow: after a continuation.
fn ends_after(leaf: u16, row: [u64; 8]) -> bool
    ensures { result ≡ ends_after leaf row }
{
    leaf == 0x1203 && row[0] == 0x1404
}

// k bytes and what fills them.
fn filled_size(k: usize) -> usize
    requires { k ≤ 65536 }
    ensures { result ≡ k + missing k }
{
    k + (4 - k % 4) % 4
}

// How many bytes a row's element takes, before it is filled; held at 65,536.
fn measure_row(leaf: u16, text: &[u8], row: [u64; 8]) -> Result<usize, Refusal>
    ensures { said itself result ≡ then (element_bytes leaf text.now row) (λ bs. answered (min (length bs) 65536)) }
{
    write_pieces::measured(text, element_pieces(leaf, row))
}

// How many bytes the elements take, each filled, held at 65,536.
fn measure_elements(leaf: u16, text: &[u8], rows: &[[u64; 8]]) -> Result<usize, Refusal>
    ensures { said itself result ≡ then (elements_bytes leaf text.now false rows.now) (λ bs. answered (min (length bs) 65536)) }
{
    let mut n = 0;
    let mut ended = false;
    for row in rows {
        if ended {
            return Err(Refusal::WouldNotReadBack);
        }
        let k = measure_row(leaf, text, *row)?;
        n = write_pieces::capped_sum(n, filled_size(k));
        ended = ends_after(leaf, *row);
    }
    Ok(n)
}

// One element, where it is good and there is room for it; the place after its pad bytes.
fn put_element(leaf: u16, text: &[u8], row: [u64; 8], out: &mut [u8], p: usize) -> usize
    requires { (encodes (element_bytes leaf text.now row) ≡ true) × (length (filled_member (encoded_bytes (element_bytes leaf text.now row))) ≤ 65535) × (Room out.old p (filled_member (encoded_bytes (element_bytes leaf text.now row)))) }
    ensures { Puts out.old p (filled_member (encoded_bytes (element_bytes leaf text.now row))) result out.new }
{
    let xs = element_pieces(leaf, row);
    match write_pieces::write_filled(text, xs, out, p) {
        Ok(q) => q,
        Err(_) => p,
    }
}

// The elements, where they are good and there is room for them; the place after them.
fn put_elements(leaf: u16, text: &[u8], rows: &[[u64; 8]], out: &mut [u8], p: usize) -> usize
    requires { (good_all leaf text.now rows.now ≡ true) × (length (held_all leaf text.now rows.now) ≤ 65535) × (Room out.old p (held_all leaf text.now rows.now)) }
    ensures { Puts out.old p (held_all leaf text.now rows.now) result out.new }
{
    let mut to = p;
    for row in rows {
        to = put_element(leaf, text, *row, out, to);
    }
    to
}

// A length, the leaf and the elements, where there is room for them.
fn put_list(
    leaf: u16,
    text: &[u8],
    rows: &[[u64; 8]],
    out: &mut [u8],
    at: usize,
    size: u16,
) -> usize
    requires { (good_all leaf text.now rows.now ≡ true) × (length (held_all leaf text.now rows.now) ≤ 65535) × (Room out.old at (bytes 2 size ++ (bytes 2 leaf ++ held_all leaf text.now rows.now))) }
    ensures { Puts out.old at (bytes 2 size ++ (bytes 2 leaf ++ held_all leaf text.now rows.now)) result out.new }
{
    let p = field_put::put16(out, at, size);
    let q = field_put::put16(out, p, leaf);
    put_elements(leaf, text, rows, out, q)
}

// The list of this leaf. Its elements are filled, so that the record needs no pad bytes of its own.
fn write_list(
    leaf: u16,
    text: &[u8],
    rows: &[[u64; 8]],
    out: &mut [u8],
    at: usize,
) -> Result<usize, Refusal>
    ensures { Writes out.old (lay (record_bytes (and_also (fixed_bytes 2 leaf) (elements_bytes leaf text.now false rows.now))) out.old at) (said itself result) out.new }
{
    let n = measure_elements(leaf, text, rows)?;
    let length = n + 2;
    if 65535 < length {
        return Err(Refusal::RecordTooLong);
    }
    if out.len() < at {
        return Err(Refusal::NoRoom);
    }
    if out.len() - at < length + 2 {
        return Err(Refusal::NoRoom);
    }
    Ok(put_list(leaf, text, rows, out, at, length as u16))
}

// A field list at a place of the buffer, a row for each member. Everything else of the buffer stays as it was.
pub fn write_field_list(
    text: &[u8],
    rows: &[[u64; 8]],
    out: &mut [u8],
    at: usize,
) -> Result<usize, Refusal>
    ensures { Writes out.old (lay (field_list_bytes (member_rows text.now rows.now)) out.old at) (said itself result) out.new }
{
    write_list(0x1203, text, rows, out, at)
}

// A method list at a place of the buffer, a row for each method. Everything else of the buffer stays as it was.
pub fn write_method_list(
    text: &[u8],
    rows: &[[u64; 8]],
    out: &mut [u8],
    at: usize,
) -> Result<usize, Refusal>
    ensures { Writes out.old (lay (method_list_bytes (method_rows text.now rows.now)) out.old at) (said itself result) out.new }
{
    write_list(0x1206, text, rows, out, at)
}
