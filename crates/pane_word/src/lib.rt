// The words and the fields that records are made of, for C: strings, padding and numeric leaves at a place of some bytes, optional indices, and the four
// attribute words. What all exports have in common stands in pane_out.
#![tactic(auto, using(crate::proofs::Used::laws))]

ghost use Rattle.std.specs.Prelude.{◌≡◌, leb};
ghost use Rattle.answer.specs.Refusals.{itself, said};
ghost use Rattle.field.specs.Indices.{optional_of, no_type, no_id};
ghost use Rattle.field_text.specs.Texts.{string_of, padding_after};
ghost use Rattle.field_number.specs.Forms.{numeral_at, sized_at};
ghost use Rattle.pane_out.specs.Handed.{mark};
ghost use Rattle.pane_word.specs.Fields.{out_string, out_padding, out_size, out_number, present};
ghost use Rattle.pane_word.specs.Words.{out_properties, out_field, out_function, refusal_in, or_zero, kind_field, mode_field, out_pointer};

use answer::Refusal;
use field::index::{IdIndex, TypeIndex};
use field_number::Number;
use pane_out::{flag, refused};
use word_attributes::{FieldAttributes, FunctionAttributes, PointerAttributes, TypeProperties};

// The string at a place, in a record of this leaf: up to 0x1500 by a length byte, above it up to a zero byte. Behind `out`: the details, its place and
// length, and the place behind it.
#[unsafe(no_mangle)]
pub extern "C" fn pdb_string(s: &[u8], leaf: u16, at: usize, out: &mut [u64; 5]) -> u32
    ensures { (result, out.new) ≡ out_string (string_of leaf s.now at) }
{
    match field_text::string_of(leaf, s, at) {
        Ok((t, next)) => {
            *out = [0, 0, t.place as u64, t.length as u64, next as u64];
            0
        }
        Err(e) => refused(e, out),
    }
}

// The place behind the padding at a place. Behind `out`: the details, and that place.
#[unsafe(no_mangle)]
pub extern "C" fn pdb_padding(s: &[u8], at: usize, out: &mut [u64; 3]) -> u32
    ensures { (result, out.new) ≡ out_padding (padding_after s.now at) }
{
    match field_text::after_padding(s, at) {
        Ok(next) => {
            *out = [0, 0, next as u64];
            0
        }
        Err(e) => refused(e, out),
    }
}

// The numeric leaf at a place where a size or an offset is wanted. Behind `out`: the details, its value, how many bytes it took, 1 where a shorter form
// carries it, and the place behind it.
#[unsafe(no_mangle)]
pub extern "C" fn pdb_size(s: &[u8], at: usize, out: &mut [u64; 6]) -> u32
    ensures { (result, out.new) ≡ out_size (sized_at s.now at) }
{
    match field_number::size_at(s, at) {
        Ok((n, next)) => {
            *out = [0, 0, n.value, n.width as u64, flag(n.shorter), next as u64];
            0
        }
        Err(e) => refused(e, out),
    }
}

// The numeric leaf at a place, which may be negative. Behind `out`: the details, its value as 64 bits, 1 where it is negative, how many bytes it took,
// 1 where a shorter form carries it, and the place behind it.
#[unsafe(no_mangle)]
pub extern "C" fn pdb_number(s: &[u8], at: usize, out: &mut [u64; 7]) -> u32
    ensures { (result, out.new) ≡ out_number (numeral_at s.now at) }
{
    match field_number::number_at(s, at) {
        Ok((v, next)) => {
            let (bits, negative) = match v.value {
                Number::Natural(x) => (x, 0),
                Number::Negative(x) => (0xffff_ffff_ffff_ffff - x, 1),
            };
            *out = [
                0,
                0,
                bits,
                negative,
                v.width as u64,
                flag(v.shorter),
                next as u64,
            ];
            0
        }
        Err(e) => refused(e, out),
    }
}

// Is a type there, where an optional type field has this number? 1 for yes.
#[unsafe(no_mangle)]
pub extern "C" fn pdb_optional_type(index: u32) -> u32
    ensures { result ≡ present (optional_of no_type index) }
{
    match TypeIndex(index).optional() {
        None => 0,
        Some(_) => 1,
    }
}

// The same of an optional id field.
#[unsafe(no_mangle)]
pub extern "C" fn pdb_optional_id(index: u32) -> u32
    ensures { result ≡ present (optional_of no_id index) }
{
    match IdIndex(index).optional() {
        None => 0,
        Some(_) => 1,
    }
}

// Does a number of a type or an id name one of another module? 1 for yes.
#[unsafe(no_mangle)]
pub extern "C" fn pdb_is_cross_module(index: u32) -> u32
    ensures { result ≡ mark (leb 0x80000000 index) }
{
    flag(TypeIndex(index).is_cross_module()) as u32
}

// The word of a class, structure, interface, union or enumeration. Behind `out`: no details, eleven flags from bit 0 on, hfa, intrinsic type and mocom.
#[unsafe(no_mangle)]
pub extern "C" fn pdb_properties(word: u16, out: &mut [u64; 16]) -> u32
    ensures { (result, out.new) ≡ out_properties word }
{
    let w = TypeProperties(word);
    *out = [
        0,
        0,
        flag(w.packed()),
        flag(w.constructors()),
        flag(w.overloaded_operators()),
        flag(w.is_nested_type()),
        flag(w.contains_nested_types()),
        flag(w.overloaded_assignment()),
        flag(w.overloaded_casting()),
        flag(w.forward_reference()),
        flag(w.scoped_definition()),
        flag(w.has_unique_name()),
        flag(w.sealed()),
        w.hfa() as u64,
        flag(w.intrinsic_type()),
        w.mocom() as u64,
    ];
    0
}

// The word of a field or a method. Behind `out`: no details, access, method property, and whether it is static, virtual, pure virtual, introducing virtual.
#[unsafe(no_mangle)]
pub extern "C" fn pdb_field_attributes(word: u16, out: &mut [u64; 8]) -> u32
    ensures { (result, out.new) ≡ out_field word }
{
    let w = FieldAttributes(word);
    *out = [
        0,
        0,
        w.access() as u64,
        w.method_properties() as u64,
        flag(w.is_static()),
        flag(w.is_virtual()),
        flag(w.is_pure_virtual()),
        flag(w.is_intro_virtual()),
    ];
    0
}

// The word of a function. Behind `out`: no details, the calling convention, and whether it returns a user-defined type in the manner of C++, is a
// constructor, and is one of a class with virtual bases.
#[unsafe(no_mangle)]
pub extern "C" fn pdb_function_attributes(word: u16, out: &mut [u64; 6]) -> u32
    ensures { (result, out.new) ≡ out_function word }
{
    let w = FunctionAttributes(word);
    *out = [
        0,
        0,
        w.calling_convention() as u64,
        flag(w.cxx_return_udt()),
        flag(w.is_constructor()),
        flag(w.is_constructor_with_virtual_bases()),
    ];
    0
}

// ---- the fields of a pointer word that may be refused: the refusal's number, and the field, 0 where there is none

fn refusal_of<T: Copy>(field: Result<T, Refusal>) -> u64
    ensures { result ≡ refusal_in (said itself field) }
{
    match field {
        Ok(_) => 0,
        Err(e) => e.number() as u64,
    }
}

fn flag_or_0(field: Result<bool, Refusal>) -> u64
    ensures { result ≡ or_zero mark (said itself field) }
{
    match field {
        Ok(b) => flag(b),
        Err(_) => 0,
    }
}

fn size_or_0(field: Result<u8, Refusal>) -> u64
    ensures { result ≡ or_zero (λ n. n) (said itself field) }
{
    match field {
        Ok(n) => n as u64,
        Err(_) => 0,
    }
}

fn kind_number(w: PointerAttributes) -> u64
    ensures { result ≡ kind_field w.0 }
{
    match w.pointer_kind() {
        Ok(_) => (w.0 / PointerAttributes::KIND_UNIT % PointerAttributes::KIND_COUNT) as u64,
        Err(_) => 0,
    }
}

fn mode_number(w: PointerAttributes) -> u64
    ensures { result ≡ mode_field w.0 }
{
    match w.pointer_mode() {
        Ok(_) => (w.0 / PointerAttributes::MODE_UNIT % PointerAttributes::MODE_COUNT) as u64,
        Err(_) => 0,
    }
}

// The word of a pointer. Behind `out`: no details; the kind's refusal and its number, the mode's, the size's; whether it points to a member and is a
// reference, both 0 where the mode is refused; and whether it is flat, volatile, const, unaligned, restricted, MoCOM.
#[unsafe(no_mangle)]
pub extern "C" fn pdb_pointer_attributes(word: u32, out: &mut [u64; 16]) -> u32
    ensures { (result, out.new) ≡ out_pointer word }
{
    let w = PointerAttributes(word);
    *out = [
        0,
        0,
        refusal_of(w.pointer_kind()),
        kind_number(w),
        refusal_of(w.pointer_mode()),
        mode_number(w),
        refusal_of(w.size()),
        size_or_0(w.size()),
        flag_or_0(w.pointer_to_member()),
        flag_or_0(w.is_reference()),
        flag(w.is_flat_32()),
        flag(w.is_volatile()),
        flag(w.is_const()),
        flag(w.is_unaligned()),
        flag(w.is_restrict()),
        flag(w.is_mocom()),
    ];
    0
}
