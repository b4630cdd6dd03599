// Numeric leaves at a place of a slice of bytes: a u16 below 0x8000 is the number itself, and from there up a prefix that says which
// number follows it.
#![tactic(auto, using(crate::proofs::Used::laws), unfolding(answer::specs::Tables::find, field::specs::Fields::signed_at, crate::specs::Forms::numeral_by, crate::specs::Numbers::numeric_at, crate::specs::Numbers::prefixes, crate::specs::Numbers::unsigned_at))]

ghost use Rattle.std.specs.Prelude.{◌≡◌, OnErr, ◌-◌, ◌*◌, ◌≤◌, ◌<◌, suc, ltb, pos, negsuc, length};
ghost use Rattle.answer.specs.Answer.{pick};
ghost use Rattle.answer.specs.Tables.{find};
ghost use Rattle.field.specs.Fields.{signed_at};
ghost use Rattle.field_number.specs.Numbers.{unsigned_at, number_value, wide_at, prefixes};
ghost use Rattle.field_number.specs.Forms.{shortest, variant_told, size_told, numeral_at, sized_at};
ghost use Rattle.answer.specs.Refusals.{said_read, said_from};

use answer::Refusal;
use field::fixed;
use field::reader::Reader;

// A number from -2^63 to 2^64 - 1: n, or -1 - n. Each number has one form.
#[derive(Clone, Copy)]
pub enum Number {
    Natural(u64),
    Negative(u64),
}

// What a numeric leaf holds; how many bytes it took, prefix and all: 2, 3, 4, 6 or 10; and whether a shorter form carries the number.
#[derive(Clone, Copy)]
pub struct Variant {
    pub value: Number,
    pub width: u8,
    pub shorter: bool,
}

// The same where a size or an offset is wanted.
#[derive(Clone, Copy)]
pub struct Size {
    pub value: u64,
    pub width: u8,
    pub shorter: bool,
}

// The bits v as two's complement, where half is the sign bit.
fn signed(v: u64, half: u64) -> Number
    requires { (half ≤ 9223372036854775808) × (v < 2 * half) }
    ensures { number_value result ≡ pick (ltb v half) (pos v) (negsuc (2 * half - suc v)) }
{
    if v < half {
        return Number::Natural(v);
    }
    Number::Negative(half - 1 - (v - half))
}

// A signed number of k bytes, k = 1, 2, 4, 8.

fn signed8_at(s: &[u8], p: usize) -> Result<(Number, usize), Refusal>
    ensures { said_read number_value result ≡ signed_at 1 s.now p }
{
    let (v, q) = fixed::u8_at(s, p)?;
    let value = signed(v as u64, 0x80);
    Ok((value, q))
}

fn signed16_at(s: &[u8], p: usize) -> Result<(Number, usize), Refusal>
    ensures { said_read number_value result ≡ signed_at 2 s.now p }
{
    let (v, q) = fixed::u16_at(s, p)?;
    let value = signed(v as u64, 0x8000);
    Ok((value, q))
}

fn signed32_at(s: &[u8], p: usize) -> Result<(Number, usize), Refusal>
    ensures { said_read number_value result ≡ signed_at 4 s.now p }
{
    let (v, q) = fixed::u32_at(s, p)?;
    let value = signed(v as u64, 0x8000_0000);
    Ok((value, q))
}

fn signed64_at(s: &[u8], p: usize) -> Result<(Number, usize), Refusal>
    ensures { said_read number_value result ≡ signed_at 8 s.now p }
{
    let (v, q) = fixed::u64_at(s, p)?;
    let value = signed(v, 0x8000_0000_0000_0000);
    Ok((value, q))
}

// An unsigned number of k bytes, k = 2, 4, 8.

fn unsigned16_at(s: &[u8], p: usize) -> Result<(Number, usize), Refusal>
    ensures { said_read number_value result ≡ unsigned_at 2 s.now p }
{
    let (v, q) = fixed::u16_at(s, p)?;
    let value = Number::Natural(v as u64);
    Ok((value, q))
}

fn unsigned32_at(s: &[u8], p: usize) -> Result<(Number, usize), Refusal>
    ensures { said_read number_value result ≡ unsigned_at 4 s.now p }
{
    let (v, q) = fixed::u32_at(s, p)?;
    let value = Number::Natural(v as u64);
    Ok((value, q))
}

fn unsigned64_at(s: &[u8], p: usize) -> Result<(Number, usize), Refusal>
    ensures { said_read number_value result ≡ unsigned_at 8 s.now p }
{
    let (v, q) = fixed::u64_at(s, p)?;
    let value = Number::Natural(v);
    Ok((value, q))
}

// The number that follows a prefix; 11 for one that is unknown.
fn wide_at(prefix: u16, s: &[u8], p: usize) -> Result<(Number, usize), Refusal>
    ensures { said_read number_value result ≡ wide_at (find prefix prefixes) s.now p }
{
    if prefix == 0x8000 {
        return signed8_at(s, p);
    }
    if prefix == 0x8001 {
        return signed16_at(s, p);
    }
    if prefix == 0x8002 {
        return unsigned16_at(s, p);
    }
    if prefix == 0x8003 {
        return signed32_at(s, p);
    }
    if prefix == 0x8004 {
        return unsigned32_at(s, p);
    }
    if prefix == 0x8009 {
        return signed64_at(s, p);
    }
    if prefix == 0x800a {
        return unsigned64_at(s, p);
    }
    Err(Refusal::NumberBad)
}

// How many bytes n takes in its shortest form.
fn natural_width(n: u64) -> u8
    ensures { result ≡ length (shortest (pos n)) }
{
    if n < 0x8000 {
        return 2;
    }
    if n < 0x1_0000 {
        return 4;
    }
    if n < 0x1_0000_0000 {
        return 6;
    }
    10
}

// The same of -1 - n.
fn negative_width(n: u64) -> u8
    ensures { result ≡ length (shortest (negsuc n)) }
{
    if n < 0x80 {
        return 3;
    }
    if n < 0x8000 {
        return 4;
    }
    if n < 0x8000_0000 {
        return 6;
    }
    10
}

fn shortest_width(n: Number) -> u8
    ensures { result ≡ length (shortest (number_value n)) }
{
    match n {
        Number::Natural(x) => natural_width(x),
        Number::Negative(x) => negative_width(x),
    }
}

// A numeric leaf, which may be negative.
pub fn number_at(s: &[u8], p: usize) -> Result<(Variant, usize), Refusal>
    ensures { said_read variant_told result ≡ numeral_at s.now p }
{
    let (n, q) = fixed::u16_at(s, p)?;
    // a number that is itself the leaf has no shorter form
    if n < 0x8000 {
        let value = Number::Natural(n as u64);
        return Ok((
            Variant {
                value,
                width: 2,
                shorter: false,
            },
            q,
        ));
    }
    let (value, e) = wide_at(n, s, q)?;
    let width = (e - p) as u8;
    let shorter = shortest_width(value) < width;
    Ok((
        Variant {
            value,
            width,
            shorter,
        },
        e,
    ))
}

// A numeric leaf where a size or an offset is wanted; 11 if it is negative. A plain number, which nearly all are, is answered here, and
// what has a prefix by a function of its own: so this one is small enough to be inlined.
pub fn size_at(s: &[u8], p: usize) -> Result<(Size, usize), Refusal>
    ensures { said_read size_told result ≡ sized_at s.now p }
{
    let (n, q) = fixed::u16_at(s, p)?;
    if n < 0x8000 {
        return Ok((
            Size {
                value: n as u64,
                width: 2,
                shorter: false,
            },
            q,
        ));
    }
    size_of_any(s, p)
}

// The same of a number in any form.
fn size_of_any(s: &[u8], p: usize) -> Result<(Size, usize), Refusal>
    ensures { said_read size_told result ≡ sized_at s.now p }
{
    let (v, q) = number_at(s, p)?;
    let n = v.value;
    match n {
        Number::Natural(x) => Ok((
            Size {
                value: x,
                width: v.width,
                shorter: v.shorter,
            },
            q,
        )),
        Number::Negative(_) => Err(Refusal::NumberBad),
    }
}

// The number at a reader's place.
pub fn read_number(r: &mut Reader<'_>) -> Result<Variant, Refusal>
    ensures value { said_from variant_told result r.new.at ≡ numeral_at r.old.bytes.now r.old.at }
    ensures stays { OnErr result (r.new.at ≡ r.old.at) }
    ensures bytes { r.new.bytes ≡ r.old.bytes }
{
    let (v, at) = number_at(r.bytes, r.at)?;
    r.at = at;
    Ok(v)
}

// The size at a reader's place.
pub fn read_size(r: &mut Reader<'_>) -> Result<Size, Refusal>
    ensures value { said_from size_told result r.new.at ≡ sized_at r.old.bytes.now r.old.at }
    ensures stays { OnErr result (r.new.at ≡ r.old.at) }
    ensures bytes { r.new.bytes ≡ r.old.bytes }
{
    let (v, at) = size_at(r.bytes, r.at)?;
    r.at = at;
    Ok(v)
}
