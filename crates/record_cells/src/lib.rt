// A record's fields as cells of three numbers, by the layout of its leaf: one loop for every layout, for what takes any record, such as a dump or a writer.
// Where speed counts, crates/record_data and crates/record_id read a record into a struct.
#![tactic(auto, using(crate::proofs::Used::laws), unfolding(answer::specs::Tables::among, answer::specs::Tables::find, crate::specs::Cells::cells_of, crate::specs::Cells::put_cell, crate::specs::Codes::codes, crate::specs::Codes::decode, crate::specs::Codes::field_of, crate::specs::Codes::id_codes, crate::specs::Codes::layout_in, crate::specs::Codes::layout_of, crate::specs::Codes::member_codes, crate::specs::Codes::type_codes, crate::specs::Filled::cell_step_by, record_layout::specs::Fields::read_field_by, record_layout::specs::Layouts::id_leaves, record_layout::specs::Layouts::member_leaves, record_layout::specs::Layouts::type_leaves, word_attributes::specs::Words::introducing))]

ghost use Rattle.std.specs.Prelude.{◌≡◌, ◌<◌, pos, negsuc};
ghost use Rattle.answer.specs.Answer.{got};
ghost use Rattle.answer.specs.Tables.{find};
ghost use Rattle.record_layout.specs.Fields.{absent, fixed, optional_type, optional_id, gap, numeric, size, string, run, types, slots, read_fields};
ghost use Rattle.record_layout.specs.Layouts.{count16, count32, pointer, second_string, member_class, offset, type_leaves, id_leaves};
ghost use Rattle.word_attributes.specs.Words.{introducing};
ghost use Rattle.record_cells.specs.Codes.{field_of, layout_of, layout_in};
ghost use Rattle.record_cells.specs.Cells.{numeral_cell, cells_of};
ghost use Rattle.record_cells.specs.Filled.{step, cell_step_by, said_field, AnyWord, FillsCells, fields_by};

use answer::Refusal;
use field::{fixed, index};
use field_number::Number;
use word_attributes::PointerAttributes;

pub mod layout;

// What a field holds, as three numbers: 1 absent; 2 and a number; 3 (4 where a shorter form carries it), n and the width of a numeric leaf n; 5 (6)
// and the same for -1 - n; 7, the place and the length of many bytes.
#[derive(Clone, Copy)]
pub struct Cell {
    pub kind: u64,
    pub value: u64,
    pub more: u64,
}

// A field of each kind, at place p, where w is the word.

fn byte_field(s: &[u8], p: usize, w: u32) -> Result<(Cell, u32, usize), Refusal>
    ensures { said_field result ≡ cell_step_by (fixed 1) w s.now p }
{
    let (n, q) = fixed::u8_at(s, p)?;
    Ok((
        Cell {
            kind: 2,
            value: n as u64,
            more: 0,
        },
        w,
        q,
    ))
}

fn half_field(s: &[u8], p: usize, w: u32) -> Result<(Cell, u32, usize), Refusal>
    ensures { said_field result ≡ cell_step_by (fixed 2) w s.now p }
{
    let (n, q) = fixed::u16_at(s, p)?;
    Ok((
        Cell {
            kind: 2,
            value: n as u64,
            more: 0,
        },
        w,
        q,
    ))
}

fn whole_field(s: &[u8], p: usize, w: u32) -> Result<(Cell, u32, usize), Refusal>
    ensures { said_field result ≡ cell_step_by (fixed 4) w s.now p }
{
    let (n, q) = fixed::u32_at(s, p)?;
    Ok((
        Cell {
            kind: 2,
            value: n as u64,
            more: 0,
        },
        w,
        q,
    ))
}

fn optional_type_field(s: &[u8], p: usize, w: u32) -> Result<(Cell, u32, usize), Refusal>
    ensures { said_field result ≡ cell_step_by optional_type w s.now p }
{
    let (o, q) = index::optional_type_at(s, p)?;
    match o {
        None => Ok((
            Cell {
                kind: 1,
                value: 0,
                more: 0,
            },
            w,
            q,
        )),
        Some(t) => Ok((
            Cell {
                kind: 2,
                value: t.0 as u64,
                more: 0,
            },
            w,
            q,
        )),
    }
}

fn optional_id_field(s: &[u8], p: usize, w: u32) -> Result<(Cell, u32, usize), Refusal>
    ensures { said_field result ≡ cell_step_by optional_id w s.now p }
{
    let (o, q) = index::optional_id_at(s, p)?;
    match o {
        None => Ok((
            Cell {
                kind: 1,
                value: 0,
                more: 0,
            },
            w,
            q,
        )),
        Some(i) => Ok((
            Cell {
                kind: 2,
                value: i.0 as u64,
                more: 0,
            },
            w,
            q,
        )),
    }
}

// A u16 that becomes the word.
fn word16_field(s: &[u8], p: usize) -> Result<(Cell, u32, usize), Refusal>
    ensures { AnyWord result count16 s.now p }
{
    let (n, q) = fixed::u16_at(s, p)?;
    Ok((
        Cell {
            kind: 2,
            value: n as u64,
            more: 0,
        },
        n as u32,
        q,
    ))
}

// A u32 that becomes the word.
fn word32_field(s: &[u8], p: usize) -> Result<(Cell, u32, usize), Refusal>
    ensures { AnyWord result count32 s.now p }
{
    let (n, q) = fixed::u32_at(s, p)?;
    Ok((
        Cell {
            kind: 2,
            value: n as u64,
            more: 0,
        },
        n,
        q,
    ))
}

// The pointer word, with kind and mode; 12 if one of them is bad.
fn pointer_field(s: &[u8], p: usize) -> Result<(Cell, u32, usize), Refusal>
    ensures { AnyWord result pointer s.now p }
{
    let (n, q) = fixed::u32_at(s, p)?;
    PointerAttributes(n).pointer_kind()?;
    PointerAttributes(n).pointer_mode()?;
    Ok((
        Cell {
            kind: 2,
            value: n as u64,
            more: 0,
        },
        n,
        q,
    ))
}

fn gap_field(s: &[u8], p: usize, w: u32) -> Result<(Cell, u32, usize), Refusal>
    ensures { said_field result ≡ cell_step_by (gap 2) w s.now p }
{
    let (_, q) = fixed::u16_at(s, p)?;
    Ok((
        Cell {
            kind: 1,
            value: 0,
            more: 0,
        },
        w,
        q,
    ))
}

// The cell of a numeric leaf n, and of -1 - n.

fn natural_cell(n: u64, width: u8, shorter: bool) -> Cell
    ensures { result ≡ numeral_cell (pos n) (record { width = width; shorter = shorter }) }
{
    if shorter {
        return Cell {
            kind: 4,
            value: n,
            more: width as u64,
        };
    }
    Cell {
        kind: 3,
        value: n,
        more: width as u64,
    }
}

fn negative_cell(n: u64, width: u8, shorter: bool) -> Cell
    ensures { result ≡ numeral_cell (negsuc n) (record { width = width; shorter = shorter }) }
{
    if shorter {
        return Cell {
            kind: 6,
            value: n,
            more: width as u64,
        };
    }
    Cell {
        kind: 5,
        value: n,
        more: width as u64,
    }
}

fn number_field(s: &[u8], p: usize, w: u32) -> Result<(Cell, u32, usize), Refusal>
    ensures { said_field result ≡ cell_step_by numeric w s.now p }
{
    let (v, q) = field_number::number_at(s, p)?;
    match v.value {
        Number::Natural(x) => Ok((natural_cell(x, v.width, v.shorter), w, q)),
        Number::Negative(x) => Ok((negative_cell(x, v.width, v.shorter), w, q)),
    }
}

fn size_field(s: &[u8], p: usize, w: u32) -> Result<(Cell, u32, usize), Refusal>
    ensures { said_field result ≡ cell_step_by size w s.now p }
{
    let (v, q) = field_number::size_at(s, p)?;
    Ok((natural_cell(v.value, v.width, v.shorter), w, q))
}

fn text_field(s: &[u8], p: usize, w: u32) -> Result<(Cell, u32, usize), Refusal>
    ensures { said_field result ≡ cell_step_by string w s.now p }
{
    let (t, q) = field_text::string_at(s, p)?;
    Ok((
        Cell {
            kind: 7,
            value: t.place as u64,
            more: t.length as u64,
        },
        w,
        q,
    ))
}

// As many type indices as the word says.
fn indices_field(s: &[u8], p: usize, w: u32) -> Result<(Cell, u32, usize), Refusal>
    ensures { said_field result ≡ cell_step_by (run types) w s.now p }
{
    let n = 4 * (w as usize);
    let q = field::run::after_bytes(s, p, n)?;
    Ok((
        Cell {
            kind: 7,
            value: p as u64,
            more: n as u64,
        },
        w,
        q,
    ))
}

// As many slots of four bits as the word says.
fn slots_field(s: &[u8], p: usize, w: u32) -> Result<(Cell, u32, usize), Refusal>
    ensures { said_field result ≡ cell_step_by (run slots) w s.now p }
{
    let n = ((w as usize) + 1) / 2;
    let q = field::run::after_bytes(s, p, n)?;
    Ok((
        Cell {
            kind: 7,
            value: p as u64,
            more: n as u64,
        },
        w,
        q,
    ))
}

// A field of no bytes.
fn no_field(p: usize, w: u32) -> Result<(Cell, u32, usize), Refusal>
    ensures { said_field result ≡ got (step absent w) p }
{
    Ok((
        Cell {
            kind: 1,
            value: 0,
            more: 0,
        },
        w,
        p,
    ))
}

// A second string, if the properties say so.
fn second_text_field(s: &[u8], p: usize, w: u32) -> Result<(Cell, u32, usize), Refusal>
    ensures { said_field result ≡ cell_step_by second_string w s.now p }
{
    if w / 0x200 % 2 == 1 {
        return text_field(s, p, w);
    }
    no_field(p, w)
}

// The class of a pointer to member.
fn member_class_field(s: &[u8], p: usize, w: u32) -> Result<(Cell, u32, usize), Refusal>
    ensures { said_field result ≡ cell_step_by member_class w s.now p }
{
    let Ok(to_member) = PointerAttributes(w).pointer_to_member() else {
        return no_field(p, w);
    };
    if to_member {
        return optional_type_field(s, p, w);
    }
    no_field(p, w)
}

// Is the method property 4 or 6?
fn introduces(w: u32) -> bool
    ensures { result ≡ introducing w }
{
    let property = w / 4 % 8;
    if property == 4 {
        return true;
    }
    if property == 6 {
        return true;
    }
    false
}

// The offset of a method that introduces a virtual one.
fn offset_field(s: &[u8], p: usize, w: u32) -> Result<(Cell, u32, usize), Refusal>
    ensures { said_field result ≡ cell_step_by offset w s.now p }
{
    if introduces(w) {
        return whole_field(s, p, w);
    }
    no_field(p, w)
}

// The field of this code at place p, where w is the word.
fn field_at(s: &[u8], p: usize, code: u64, w: u32) -> Result<(Cell, u32, usize), Refusal>
    ensures { said_field result ≡ cell_step_by (field_of code) w s.now p }
{
    match code {
        1 => byte_field(s, p, w),
        2 => half_field(s, p, w),
        3 => whole_field(s, p, w),
        4 => whole_field(s, p, w),
        5 => optional_type_field(s, p, w),
        6 => whole_field(s, p, w),
        7 => optional_id_field(s, p, w),
        8 => whole_field(s, p, w),
        9 => word16_field(s, p),
        10 => word32_field(s, p),
        11 => pointer_field(s, p),
        12 => gap_field(s, p, w),
        13 => number_field(s, p, w),
        14 => size_field(s, p, w),
        15 => text_field(s, p, w),
        16 => indices_field(s, p, w),
        17 => indices_field(s, p, w),
        18 => slots_field(s, p, w),
        19 => no_field(p, w),
        20 => second_text_field(s, p, w),
        21 => member_class_field(s, p, w),
        22 => offset_field(s, p, w),
        _ => no_field(p, w),
    }
}

// The fields of a layout at a place, as a row of nine cells; `out` stays as it is where a field is refused.
fn cells_at(s: &[u8], at: usize, layout: u64, out: &mut [u64; 27]) -> Result<usize, Refusal>
    ensures { FillsCells (cells_of 9) (read_fields (layout_of layout) 0 s.now at) result out.old out.new }
{
    let mut row = [0u64; 27];
    let mut k: usize = 0;
    let mut rest = layout;
    let mut here = at;
    let mut word: u32 = 0;
    while 0 < rest {
        if 24 < k {
            *out = row;
            return Ok(here);
        }
        let (c, w, q) = field_at(s, here, rest % 32, word)?;
        row[k] = c.kind;
        row[k + 1] = c.value;
        row[k + 2] = c.more;
        k += 3;
        rest /= 32;
        here = q;
        word = w;
    }
    *out = row;
    Ok(here)
}

// The fields of a leaf whose layout is this, 0 for none; 10 if it is none.
fn cells_by(
    s: &[u8],
    leaf: u16,
    at: usize,
    layout: u64,
    out: &mut [u64; 27],
) -> Result<usize, Refusal>
    ensures { FillsCells (cells_of 9) (fields_by (layout_in layout) leaf s.now at) result out.old out.new }
{
    if layout == 0 {
        return Err(Refusal::LeafUnknown(leaf));
    }
    cells_at(s, at, layout, out)
}

// The fields of a type record, and of an id record, by the leaf.

pub fn type_cells(s: &[u8], leaf: u16, at: usize, out: &mut [u64; 27]) -> Result<usize, Refusal>
    ensures { FillsCells (cells_of 9) (fields_by (find leaf type_leaves) leaf s.now at) result out.old out.new }
{
    cells_by(s, leaf, at, layout::type_layout(leaf), out)
}

pub fn id_cells(s: &[u8], leaf: u16, at: usize, out: &mut [u64; 27]) -> Result<usize, Refusal>
    ensures { FillsCells (cells_of 9) (fields_by (find leaf id_leaves) leaf s.now at) result out.old out.new }
{
    cells_by(s, leaf, at, layout::id_layout(leaf), out)
}
