// The primitive types of document 01, "Indices and primitives" (the crate's primitive.rs): an index below 0x1000 names a
// simple type, or a pointer to one. specs/Kinds.antt has the lists of kinds and indirections, specs/Primitive.antt the answer for every index,
// specs/Sheet.antt what a number of the sheet stands for; sheet.rt is the sheet.
#![tactic(auto)]

ghost use Rattle.std.specs.Prelude.{◌≡◌};
ghost use Rattle.word_primitive.specs.Primitive.{primitive_of};
ghost use Rattle.word_primitive.specs.Sheet.{sheet_at, kind_by, indirection_by};
ghost use Rattle.answer.specs.Refusals.{itself, said};

use answer::Refusal;
use field::index::TypeIndex;

mod sheet;

// A simple type.
#[derive(Clone, Copy)]
pub enum PrimitiveKind {
    // Uncharacterized type (no type).
    NoType,
    // Void type.
    Void,
    // Character (byte).
    Char,
    // Unsigned character.
    UChar,
    // "Really a char".
    RChar,
    // Wide characters, i.e. 16 bits.
    WChar,
    // "Really a 16-bit char".
    RChar16,
    // "Really a 32-bit char".
    RChar32,
    // Signed 8-bit integer.
    I8,
    // Unsigned 8-bit integer.
    U8,
    // Signed 16-bit integer.
    Short,
    // Unsigned 16-bit integer.
    UShort,
    // Signed 16-bit integer.
    I16,
    // Unsigned 16-bit integer.
    U16,
    // Signed 32-bit integer.
    Long,
    // Unsigned 32-bit integer.
    ULong,
    // Signed 32-bit integer.
    I32,
    // Unsigned 32-bit integer.
    U32,
    // Signed 64-bit integer.
    Quad,
    // Unsigned 64-bit integer.
    UQuad,
    // Signed 64-bit integer.
    I64,
    // Unsigned 64-bit integer.
    U64,
    // Signed 128-bit integer.
    Octa,
    // Unsigned 128-bit integer.
    UOcta,
    // Signed 128-bit integer.
    I128,
    // Unsigned 128-bit integer.
    U128,
    // 16-bit floating point.
    F16,
    // 32-bit floating point.
    F32,
    // 32-bit partial precision floating point.
    F32PP,
    // 48-bit floating point.
    F48,
    // 64-bit floating point.
    F64,
    // 80-bit floating point.
    F80,
    // 128-bit floating point.
    F128,
    // 32-bit complex number.
    Complex32,
    // 64-bit complex number.
    Complex64,
    // 80-bit complex number.
    Complex80,
    // 128-bit complex number.
    Complex128,
    // 8-bit boolean value.
    Bool8,
    // 16-bit boolean value.
    Bool16,
    // 32-bit boolean value.
    Bool32,
    // 64-bit boolean value.
    Bool64,
    // Windows `HRESULT` error code.
    HRESULT,
}

// How a primitive type is pointed to.
#[derive(Clone, Copy)]
pub enum Indirection {
    // Not at all. The crate's `None`, as a variant: a caller matches once, and the specification is one list of eight lines.
    Direct,
    // 16-bit ("near") pointer.
    Near16,
    // 16:16 far pointer.
    Far16,
    // 16:16 huge pointer.
    Huge16,
    // 32-bit pointer.
    Near32,
    // 48-bit 16:32 pointer.
    Far32,
    // 64-bit near pointer.
    Near64,
    // 128-bit near pointer.
    Near128,
}

// A primitive type like `void` or `char *`.
#[derive(Clone, Copy)]
pub struct PrimitiveType {
    pub kind: PrimitiveKind,
    pub indirection: Indirection,
}

// What stands in the sheet where 01 refuses.
const REFUSED: u16 = 0xffff;

// The sheet's number for an index: a row has 64 of them, and past the last row all are refused.
fn entry(index: u32) -> u16
    ensures { result ≡ sheet_at index }
{
    let column = (index % 64) as usize;
    match index / 64 {
        0 => sheet::ROW_00[column],
        1 => sheet::ROW_01[column],
        2 => sheet::ROW_02[column],
        3 => sheet::ROW_03[column],
        4 => sheet::ROW_04[column],
        5 => sheet::ROW_05[column],
        6 => sheet::ROW_06[column],
        7 => sheet::ROW_07[column],
        8 => sheet::ROW_08[column],
        9 => sheet::ROW_09[column],
        10 => sheet::ROW_0A[column],
        11 => sheet::ROW_0B[column],
        12 => sheet::ROW_0C[column],
        13 => sheet::ROW_0D[column],
        14 => sheet::ROW_0E[column],
        15 => sheet::ROW_0F[column],
        16 => sheet::ROW_10[column],
        17 => sheet::ROW_11[column],
        18 => sheet::ROW_12[column],
        19 => sheet::ROW_13[column],
        20 => sheet::ROW_14[column],
        21 => sheet::ROW_15[column],
        22 => sheet::ROW_16[column],
        23 => sheet::ROW_17[column],
        24 => sheet::ROW_18[column],
        25 => sheet::ROW_19[column],
        26 => sheet::ROW_1A[column],
        27 => sheet::ROW_1B[column],
        28 => sheet::ROW_1C[column],
        29 => sheet::ROW_1D[column],
        30 => sheet::ROW_1E[column],
        31 => sheet::ROW_1F[column],
        32 => sheet::ROW_20[column],
        33 => sheet::ROW_21[column],
        34 => sheet::ROW_22[column],
        35 => sheet::ROW_23[column],
        36 => sheet::ROW_24[column],
        37 => sheet::ROW_25[column],
        38 => sheet::ROW_26[column],
        39 => sheet::ROW_27[column],
        40 => sheet::ROW_28[column],
        41 => sheet::ROW_29[column],
        42 => sheet::ROW_2A[column],
        43 => sheet::ROW_2B[column],
        44 => sheet::ROW_2C[column],
        45 => sheet::ROW_2D[column],
        46 => sheet::ROW_2E[column],
        47 => sheet::ROW_2F[column],
        48 => sheet::ROW_30[column],
        49 => sheet::ROW_31[column],
        50 => sheet::ROW_32[column],
        51 => sheet::ROW_33[column],
        52 => sheet::ROW_34[column],
        53 => sheet::ROW_35[column],
        54 => sheet::ROW_36[column],
        55 => sheet::ROW_37[column],
        56 => sheet::ROW_38[column],
        57 => sheet::ROW_39[column],
        58 => sheet::ROW_3A[column],
        59 => sheet::ROW_3B[column],
        60 => sheet::ROW_3C[column],
        61 => sheet::ROW_3D[column],
        62 => sheet::ROW_3E[column],
        63 => sheet::ROW_3F[column],
        _ => REFUSED,
    }
}

// The kind that the low byte of a number of the sheet stands for.
fn kind_by(low: u16) -> PrimitiveKind
    ensures { result ≡ kind_by low }
{
    match low {
        0x00 => PrimitiveKind::NoType,
        0x03 => PrimitiveKind::Void,
        0x08 => PrimitiveKind::HRESULT,
        0x10 => PrimitiveKind::Char,
        0x20 => PrimitiveKind::UChar,
        0x68 => PrimitiveKind::I8,
        0x69 => PrimitiveKind::U8,
        0x70 => PrimitiveKind::RChar,
        0x71 => PrimitiveKind::WChar,
        0x7a => PrimitiveKind::RChar16,
        0x7b => PrimitiveKind::RChar32,
        0x11 => PrimitiveKind::Short,
        0x21 => PrimitiveKind::UShort,
        0x72 => PrimitiveKind::I16,
        0x73 => PrimitiveKind::U16,
        0x12 => PrimitiveKind::Long,
        0x22 => PrimitiveKind::ULong,
        0x74 => PrimitiveKind::I32,
        0x75 => PrimitiveKind::U32,
        0x13 => PrimitiveKind::Quad,
        0x23 => PrimitiveKind::UQuad,
        0x76 => PrimitiveKind::I64,
        0x77 => PrimitiveKind::U64,
        0x14 => PrimitiveKind::Octa,
        0x24 => PrimitiveKind::UOcta,
        0x78 => PrimitiveKind::I128,
        0x79 => PrimitiveKind::U128,
        0x46 => PrimitiveKind::F16,
        0x40 => PrimitiveKind::F32,
        0x45 => PrimitiveKind::F32PP,
        0x44 => PrimitiveKind::F48,
        0x41 => PrimitiveKind::F64,
        0x42 => PrimitiveKind::F80,
        0x43 => PrimitiveKind::F128,
        0x50 => PrimitiveKind::Complex32,
        0x51 => PrimitiveKind::Complex64,
        0x52 => PrimitiveKind::Complex80,
        0x53 => PrimitiveKind::Complex128,
        0x30 => PrimitiveKind::Bool8,
        0x31 => PrimitiveKind::Bool16,
        0x32 => PrimitiveKind::Bool32,
        0x33 => PrimitiveKind::Bool64,
        _ => PrimitiveKind::NoType,
    }
}

// The indirection that the high byte of a number of the sheet stands for.
fn indirection_by(high: u16) -> Indirection
    ensures { result ≡ indirection_by high }
{
    match high {
        0 => Indirection::Direct,
        1 => Indirection::Near16,
        2 => Indirection::Far16,
        3 => Indirection::Huge16,
        4 => Indirection::Near32,
        5 => Indirection::Far32,
        6 => Indirection::Near64,
        7 => Indirection::Near128,
        _ => Indirection::Direct,
    }
}

// The primitive type that a type index names.
pub fn primitive(index: TypeIndex) -> Result<PrimitiveType, Refusal>
    ensures { said itself result ≡ primitive_of index.0 }
{
    numbered(index.0)
}

// The same of the index's number.
fn numbered(index: u32) -> Result<PrimitiveType, Refusal>
    ensures { said itself result ≡ primitive_of index }
{
    let number = entry(index);
    if number == REFUSED {
        return Err(Refusal::NotFound(index));
    }
    let kind = kind_by(number % 256);
    let indirection = indirection_by(number / 256);
    Ok(PrimitiveType { kind, indirection })
}
