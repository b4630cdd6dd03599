// Any record from its row, by the layout of its leaf: one loop for every layout that measures, and one that puts each field's bytes into the buffer.
#![tactic(auto, using(crate::proofs::Used::laws), unfolding(answer::specs::Tables::among, answer::specs::Tables::find, field::specs::Bytes::bytes, field_put::specs::Bytes::put, field_text::specs::Texts::string_at, field_text::specs::Texts::to_zero, record_cells::specs::Codes::codes, record_cells::specs::Codes::field_of, word_attributes::specs::Words::introducing, write_layout::specs::Buffer::lay, write_layout::specs::Fields::optional_bytes, write_layout::specs::Fields::size_bytes, write_layout::specs::Fields::write_field, write_layout::specs::Records::missing, write_layout::specs::Records::write_leaf, write_layout::specs::Records::write_record, write_layout::specs::Runs::no_zero, write_layout::specs::Runs::pads, write_layout::specs::Runs::part_at, write_layout::specs::Runs::zeros, write_pieces::specs::Pieces::fine, write_pieces::specs::Pieces::piece_of, write_pieces::specs::Pieces::raw))]

mod put;

ghost use Rattle.std.specs.Prelude.{◌≡◌, true, List, [], ◌++◌, ℕ, ◌+◌, ◌≤◌, ◌<◌, min, negsuc, length};
ghost use Rattle.answer.specs.Answer.{answered, then};
ghost use Rattle.field.specs.Bytes.{bytes};
ghost use Rattle.field.specs.Indices.{no_type, no_id};
ghost use Rattle.field_put.specs.Bytes.{Puts, Room};
ghost use Rattle.record_layout.specs.Fields.{gap, numeric, size, string, run, types, slots, number_or, word_after};
ghost use Rattle.record_layout.specs.Layouts.{pointer, second_string, member_class, offset, id_leaves};
ghost use Rattle.write_layout.specs.Runs.{pads};
ghost use Rattle.write_layout.specs.Fields.{fixed_bytes, numeric_bytes, optional_bytes, of_number, of_absent, write_field, given_all, encodes, encoded_bytes};
ghost use Rattle.write_layout.specs.Records.{record_bytes, write_record};
ghost use Rattle.write_layout.specs.Types.{written_leaves};
ghost use Rattle.write_layout.specs.Buffer.{lay, Writes};
ghost use Rattle.write_pieces.specs.Pieces.{piece_of};
ghost use Rattle.record_cells.specs.Codes.{field_of, layout_in};
ghost use Rattle.write_cells.specs.Cells.{cell_in, left_bytes, cell_bytes, cell_values};
ghost use Rattle.answer.specs.Refusals.{itself, said};

use answer::Refusal;
use word_attributes::PointerAttributes;
use write_pieces::Piece;

// Numbers, which may be too large for their field.

fn narrow8(x: u64) -> Piece
    ensures { (t : List ℕ) → piece_of t result ≡ fixed_bytes 1 x }
{
    if x < 0x100 {
        return Piece::Byte(x as u8);
    }
    Piece::Bad
}

fn narrow16(x: u64) -> Piece
    ensures { (t : List ℕ) → piece_of t result ≡ fixed_bytes 2 x }
{
    if x < 0x1_0000 {
        return Piece::Half(x as u16);
    }
    Piece::Bad
}

fn narrow32(x: u64) -> Piece
    ensures { (t : List ℕ) → piece_of t result ≡ fixed_bytes 4 x }
{
    if x < 0x1_0000_0000 {
        return Piece::Word(x as u32);
    }
    Piece::Bad
}

// -1 - n, in as few bytes as carry it; 17 where none do.
fn negative(n: u64) -> Piece
    ensures { (t : List ℕ) → piece_of t result ≡ numeric_bytes (negsuc n) }
{
    if n < 0x80 {
        return Piece::Wide8(0x8000, 0xff - (n as u8));
    }
    if n < 0x8000 {
        return Piece::Wide16(0x8001, 0xffff - (n as u16));
    }
    if n < 0x8000_0000 {
        return Piece::Wide32(0x8003, 0xffff_ffff - (n as u32));
    }
    if n < 0x8000_0000_0000_0000 {
        return Piece::Wide64(0x8009, 0xffff_ffff_ffff_ffff - n);
    }
    Piece::Bad
}

// The piece of a field of each kind, from its cell.

fn number8(kind: u64, value: u64) -> Piece
    ensures { (t : List ℕ) (more : ℕ) → piece_of t result ≡ of_number (cell_in t kind value more) (fixed_bytes 1) }
{
    if kind != 2 {
        return Piece::Bad;
    }
    narrow8(value)
}

fn number16(kind: u64, value: u64) -> Piece
    ensures { (t : List ℕ) (more : ℕ) → piece_of t result ≡ of_number (cell_in t kind value more) (fixed_bytes 2) }
{
    if kind != 2 {
        return Piece::Bad;
    }
    narrow16(value)
}

fn number32(kind: u64, value: u64) -> Piece
    ensures { (t : List ℕ) (more : ℕ) → piece_of t result ≡ of_number (cell_in t kind value more) (fixed_bytes 4) }
{
    if kind != 2 {
        return Piece::Bad;
    }
    narrow32(value)
}

// None is written as 0; a present index that reads as none is 17.
fn optional_type(kind: u64, value: u64) -> Piece
    ensures { (t : List ℕ) (more : ℕ) → piece_of t result ≡ optional_bytes no_type (cell_in t kind value more) }
{
    if kind == 1 {
        return Piece::Word(0);
    }
    if kind != 2 {
        return Piece::Bad;
    }
    if value == 0 || value == 0xffff {
        return Piece::Bad;
    }
    narrow32(value)
}

fn optional_id(kind: u64, value: u64) -> Piece
    ensures { (t : List ℕ) (more : ℕ) → piece_of t result ≡ optional_bytes no_id (cell_in t kind value more) }
{
    if kind == 1 {
        return Piece::Word(0);
    }
    if kind != 2 {
        return Piece::Bad;
    }
    if value == 0 {
        return Piece::Bad;
    }
    narrow32(value)
}

// A pointer's word, 17 where reading refuses it.
fn pointer_word(kind: u64, value: u64) -> Piece
    ensures { (t : List ℕ) (more w : ℕ) → piece_of t result ≡ write_field pointer w (cell_in t kind value more) }
{
    if kind != 2 {
        return Piece::Bad;
    }
    let low = (value % 0x1_0000_0000) as u32;
    let Ok(_) = PointerAttributes(low).pointer_kind() else {
        return Piece::Bad;
    };
    let Ok(_) = PointerAttributes(low).pointer_mode() else {
        return Piece::Bad;
    };
    narrow32(value)
}

// Two bytes that 01 gives no name.
fn gap_piece(kind: u64) -> Piece
    ensures { (t : List ℕ) (value more w : ℕ) → piece_of t result ≡ write_field (gap 2) w (cell_in t kind value more) }
{
    if kind != 1 {
        return Piece::Bad;
    }
    Piece::Half(0)
}

// No bytes.
fn no_piece(kind: u64) -> Piece
    ensures { (t : List ℕ) (value more : ℕ) → piece_of t result ≡ of_absent (cell_in t kind value more) (answered []) }
{
    if kind != 1 {
        return Piece::Bad;
    }
    Piece::Nothing
}

fn size_piece(kind: u64, value: u64) -> Piece
    ensures { (t : List ℕ) (more w : ℕ) → piece_of t result ≡ write_field size w (cell_in t kind value more) }
{
    match kind {
        3 | 4 => write_pieces::fields::natural(value),
        _ => Piece::Bad,
    }
}

fn numeric_piece(kind: u64, value: u64) -> Piece
    ensures { (t : List ℕ) (more w : ℕ) → piece_of t result ≡ write_field numeric w (cell_in t kind value more) }
{
    match kind {
        3 | 4 => write_pieces::fields::natural(value),
        5 | 6 => negative(value),
        _ => Piece::Bad,
    }
}

fn text_piece(kind: u64, place: u64, length: u64) -> Piece
    requires { 0 < kind }
    ensures { (t : List ℕ) (w : ℕ) → piece_of t result ≡ write_field string w (cell_in t kind place length) }
{
    if kind < 7 {
        return Piece::Bad;
    }
    Piece::Text(place as usize, length as usize)
}

fn types_piece(kind: u64, place: u64, length: u64, w: u64) -> Piece
    requires { 0 < kind }
    ensures { (t : List ℕ) → piece_of t result ≡ write_field (run types) w (cell_in t kind place length) }
{
    if kind < 7 {
        return Piece::Bad;
    }
    if length % 4 != 0 {
        return Piece::Bad;
    }
    if length / 4 != w {
        return Piece::Bad;
    }
    Piece::Run(place as usize, length as usize)
}

fn slots_piece(kind: u64, place: u64, length: u64, w: u64) -> Piece
    requires { 0 < kind }
    ensures { (t : List ℕ) → piece_of t result ≡ write_field (run slots) w (cell_in t kind place length) }
{
    if kind < 7 {
        return Piece::Bad;
    }
    if w / 2 + w % 2 != length {
        return Piece::Bad;
    }
    Piece::Run(place as usize, length as usize)
}

fn second_piece(kind: u64, place: u64, length: u64, w: u64) -> Piece
    requires { 0 < kind }
    ensures { (t : List ℕ) → piece_of t result ≡ write_field second_string w (cell_in t kind place length) }
{
    if w / 0x200 % 2 == 1 {
        return text_piece(kind, place, length);
    }
    no_piece(kind)
}

fn class_piece(kind: u64, value: u64, w: u64) -> Piece
    ensures { (t : List ℕ) (more : ℕ) → piece_of t result ≡ write_field member_class w (cell_in t kind value more) }
{
    let low = (w % 0x1_0000_0000) as u32;
    let Ok(to_member) = PointerAttributes(low).pointer_to_member() else {
        return no_piece(kind);
    };
    if to_member {
        return optional_type(kind, value);
    }
    no_piece(kind)
}

fn offset_piece(kind: u64, value: u64, w: u64) -> Piece
    ensures { (t : List ℕ) (more : ℕ) → piece_of t result ≡ write_field offset w (cell_in t kind value more) }
{
    let property = w / 4 % 8;
    match property {
        4 | 6 => number32(kind, value),
        _ => no_piece(kind),
    }
}

// The piece of the field of this code, where w is the word.
fn field_piece(code: u64, kind: u64, value: u64, more: u64, w: u64) -> Piece
    requires { 0 < kind }
    ensures { (t : List ℕ) → piece_of t result ≡ write_field (field_of code) w (cell_in t kind value more) }
{
    match code {
        1 => number8(kind, value),
        2 => number16(kind, value),
        3 => number32(kind, value),
        4 => number32(kind, value),
        5 => optional_type(kind, value),
        6 => number32(kind, value),
        7 => optional_id(kind, value),
        8 => number32(kind, value),
        9 => number16(kind, value),
        10 => number32(kind, value),
        11 => pointer_word(kind, value),
        12 => gap_piece(kind),
        13 => numeric_piece(kind, value),
        14 => size_piece(kind, value),
        15 => text_piece(kind, value, more),
        16 => types_piece(kind, value, more, w),
        17 => types_piece(kind, value, more, w),
        18 => slots_piece(kind, value, more, w),
        19 => no_piece(kind),
        20 => second_piece(kind, value, more, w),
        21 => class_piece(kind, value, w),
        22 => offset_piece(kind, value, w),
        _ => no_piece(kind),
    }
}

// Of a field that is known to be good, its piece without a test.

fn good8(value: u64) -> Piece
    ensures { (t : List ℕ) (kind more : ℕ) → encodes (of_number (cell_in t kind value more) (fixed_bytes 1)) ≡ true → piece_of t result ≡ of_number (cell_in t kind value more) (fixed_bytes 1) }
{
    Piece::Byte((value % 0x100) as u8)
}

fn good16(value: u64) -> Piece
    ensures { (t : List ℕ) (kind more : ℕ) → encodes (of_number (cell_in t kind value more) (fixed_bytes 2)) ≡ true → piece_of t result ≡ of_number (cell_in t kind value more) (fixed_bytes 2) }
{
    Piece::Half((value % 0x1_0000) as u16)
}

fn good32(value: u64) -> Piece
    ensures { (t : List ℕ) (kind more : ℕ) → encodes (of_number (cell_in t kind value more) (fixed_bytes 4)) ≡ true → piece_of t result ≡ of_number (cell_in t kind value more) (fixed_bytes 4) }
{
    Piece::Word((value % 0x1_0000_0000) as u32)
}

fn good_pointer(value: u64) -> Piece
    ensures { (t : List ℕ) (kind more w : ℕ) → encodes (write_field pointer w (cell_in t kind value more)) ≡ true → piece_of t result ≡ write_field pointer w (cell_in t kind value more) }
{
    Piece::Word((value % 0x1_0000_0000) as u32)
}

fn good_index(kind: u64, value: u64) -> Piece
    ensures { (t nones : List ℕ) (more : ℕ) → encodes (optional_bytes nones (cell_in t kind value more)) ≡ true → piece_of t result ≡ optional_bytes nones (cell_in t kind value more) }
{
    if kind == 1 {
        return Piece::Word(0);
    }
    Piece::Word((value % 0x1_0000_0000) as u32)
}

// The piece of the field of this code, where it is good.
fn good_piece(code: u64, kind: u64, value: u64, more: u64, w: u64) -> Piece
    requires { 0 < kind }
    ensures { (t : List ℕ) → encodes (write_field (field_of code) w (cell_in t kind value more)) ≡ true → piece_of t result ≡ write_field (field_of code) w (cell_in t kind value more) }
{
    match code {
        1 => good8(value),
        2 => good16(value),
        3 => good32(value),
        4 => good32(value),
        5 => good_index(kind, value),
        6 => good32(value),
        7 => good_index(kind, value),
        8 => good32(value),
        9 => good16(value),
        10 => good32(value),
        11 => good_pointer(value),
        12 => gap_piece(kind),
        13 => numeric_piece(kind, value),
        14 => size_piece(kind, value),
        15 => text_piece(kind, value, more),
        16 => types_piece(kind, value, more, w),
        17 => types_piece(kind, value, more, w),
        18 => slots_piece(kind, value, more, w),
        19 => no_piece(kind),
        20 => second_piece(kind, value, more, w),
        21 => class_piece(kind, value, w),
        22 => offset_piece(kind, value, w),
        _ => no_piece(kind),
    }
}

// The word after a number.
fn number_or(kind: u64, value: u64, w: u64) -> u64
    ensures { (t : List ℕ) (more : ℕ) → result ≡ number_or (cell_in t kind value more) w }
{
    if kind != 2 {
        return w;
    }
    value
}

// The word after the field of this code.
fn word_after(code: u64, kind: u64, value: u64, w: u64) -> u64
    ensures { (t : List ℕ) (more : ℕ) → result ≡ word_after (field_of code) (cell_in t kind value more) w }
{
    match code {
        1 => w,
        2 => w,
        3 => w,
        4 => w,
        5 => w,
        6 => w,
        7 => w,
        8 => w,
        9 => number_or(kind, value, w),
        10 => number_or(kind, value, w),
        11 => number_or(kind, value, w),
        12 => w,
        13 => w,
        14 => w,
        15 => w,
        16 => w,
        17 => w,
        18 => w,
        19 => w,
        20 => w,
        21 => w,
        22 => w,
        _ => w,
    }
}

// How many bytes the leaf and the fields of this layout take, from the cells of the row, one for each, held at 65,536; 17 where they would not read back.
fn measure_fields(text: &[u8], layout: u64, row: &[u64; 27]) -> Result<usize, Refusal>
    requires { length row.now ≡ 27 }
    ensures { said itself result ≡ then (left_bytes 9 layout 0 text.now row.now) (λ bs. answered (min (2 + length bs) 65536)) }
{
    let mut n: usize = 2;
    let mut i: usize = 0;
    let mut rest = layout;
    let mut word: u64 = 0;
    while 0 < rest {
        if i == 9 {
            return Ok(write_pieces::capped_sum(n, 0));
        }
        let k = 3 * i;
        let kind = row[k];
        if kind == 0 {
            return Err(Refusal::WouldNotReadBack);
        }
        let value = row[k + 1];
        let more = row[k + 2];
        let code = rest % 32;
        let x = field_piece(code, kind, value, more, word);
        let size = put::size_of(text, x)?;
        n += write_pieces::capped_sum(size, 0);
        word = word_after(code, kind, value, word);
        rest /= 32;
        i += 1;
    }
    if i == 9 {
        return Ok(write_pieces::capped_sum(n, 0));
    }
    let k = 3 * i;
    if row[k] != 0 {
        return Err(Refusal::WouldNotReadBack);
    }
    Ok(write_pieces::capped_sum(n, 0))
}

// The fields of this layout, where they are good and there is room for them; the place after them.
fn put_fields(text: &[u8], layout: u64, row: &[u64; 27], out: &mut [u8], p: usize) -> usize
    requires { (length row.now ≡ 27) × (encodes (left_bytes 9 layout 0 text.now row.now) ≡ true) × (Room out.old p (encoded_bytes (left_bytes 9 layout 0 text.now row.now))) }
    ensures { Puts out.old p (encoded_bytes (left_bytes 9 layout 0 text.now row.now)) result out.new }
{
    let mut to = p;
    let mut i: usize = 0;
    let mut rest = layout;
    let mut w: u64 = 0;
    while 0 < rest {
        if i == 9 {
            return to;
        }
        let k = 3 * i;
        let kind = row[k];
        let value = row[k + 1];
        let more = row[k + 2];
        let code = rest % 32;
        let x = good_piece(code, kind, value, more, w);
        to = put::put_piece(text, x, out, to);
        w = word_after(code, kind, value, w);
        rest /= 32;
        i += 1;
    }
    to
}

// A length, the leaf, the fields and pad bytes, where there is room for them.
fn put_record(
    text: &[u8],
    leaf: u16,
    layout: u64,
    row: &[u64; 27],
    out: &mut [u8],
    at: usize,
    size: u16,
    pad: u8,
) -> usize
    requires { (length row.now ≡ 27) × (encodes (left_bytes 9 layout 0 text.now row.now) ≡ true) × (pad ≤ 3) × (Room out.old at (bytes 2 size ++ (bytes 2 leaf ++ (encoded_bytes (left_bytes 9 layout 0 text.now row.now) ++ pads pad)))) }
    ensures { Puts out.old at (bytes 2 size ++ (bytes 2 leaf ++ (encoded_bytes (left_bytes 9 layout 0 text.now row.now) ++ pads pad))) result out.new }
{
    let p = put::put16(out, at, size);
    let q = put::put16(out, p, leaf);
    let e = put_fields(text, layout, row, out, q);
    put::put_pads(out, e, pad)
}

// A record of a leaf whose layout is this, 0 for none; 17 if it is none. 17, 18 and 19 before the first byte is written.
fn write_by(
    text: &[u8],
    leaf: u16,
    layout: u64,
    row: &[u64; 27],
    out: &mut [u8],
    at: usize,
) -> Result<usize, Refusal>
    requires { length row.now ≡ 27 }
    ensures { Writes out.old (lay (record_bytes (cell_bytes (layout_in layout) leaf text.now row.now)) out.old at) (said itself result) out.new }
{
    if layout == 0 {
        return Err(Refusal::WouldNotReadBack);
    }
    let n = measure_fields(text, layout, row)?;
    let pad = put::pad_count(n + 2);
    let length = n + (pad as usize);
    if 65535 < length {
        return Err(Refusal::RecordTooLong);
    }
    if out.len() < at {
        return Err(Refusal::NoRoom);
    }
    if out.len() - at < length + 2 {
        return Err(Refusal::NoRoom);
    }
    Ok(put_record(text, leaf, layout, row, out, at, length as u16, pad))
}

// A record of the type stream, and of the id stream, from its leaf and its row, at a place of a lent buffer. Its strings are parts of the text. A field list and
// a method list have elements, and are written with them by crates/write_list: here they are 17.

pub fn write_type(
    text: &[u8],
    leaf: u16,
    row: [u64; 27],
    out: &mut [u8],
    at: usize,
) -> Result<usize, Refusal>
    ensures { Writes out.old (lay (write_record written_leaves (given_all text.now (cell_values leaf row))) out.old at) (said itself result) out.new }
{
    if leaf == 0x1203 || leaf == 0x1206 {
        return Err(Refusal::WouldNotReadBack);
    }
    let layout = record_cells::layout::type_layout(leaf);
    write_by(text, leaf, layout, &row, out, at)
}

pub fn write_id(
    text: &[u8],
    leaf: u16,
    row: [u64; 27],
    out: &mut [u8],
    at: usize,
) -> Result<usize, Refusal>
    ensures { Writes out.old (lay (write_record id_leaves (given_all text.now (cell_values leaf row))) out.old at) (said itself result) out.new }
{
    let layout = record_cells::layout::id_layout(leaf);
    write_by(text, leaf, layout, &row, out, at)
}
