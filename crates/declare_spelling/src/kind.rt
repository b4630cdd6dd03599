// The 42 kinds of primitives, R-5 of document 02: how each is spelled, and how large it is. Each spelling is a constant, and `kind` names them: a table of
// constants is proved in a sixth of the time that one of literals takes. specs/Spellings.antt and specs/Sizes.antt have the same tables as definitions.
ghost use Rattle.std.specs.Prelude.{◌≡◌};
ghost use Rattle.declare_spelling.specs.Spellings.{kind_text};
ghost use Rattle.declare_spelling.specs.Spelled.{Spells};
ghost use Rattle.declare_spelling.specs.Sizes.{kind_size, primitive_size};

use crate::Spelling;
use word_primitive::{Indirection, PrimitiveKind};

const NO_TYPE: Spelling = Spelling {
    bytes: *b"...                                     ",
    n: 3,
};

const VOID: Spelling = Spelling {
    bytes: *b"void                                    ",
    n: 4,
};

const CHAR: Spelling = Spelling {
    bytes: *b"signed char                             ",
    n: 11,
};

const UCHAR: Spelling = Spelling {
    bytes: *b"unsigned char                           ",
    n: 13,
};

const RCHAR: Spelling = Spelling {
    bytes: *b"char                                    ",
    n: 4,
};

const WCHAR: Spelling = Spelling {
    bytes: *b"wchar_t                                 ",
    n: 7,
};

const RCHAR16: Spelling = Spelling {
    bytes: *b"char16_t                                ",
    n: 8,
};

const RCHAR32: Spelling = Spelling {
    bytes: *b"char32_t                                ",
    n: 8,
};

const I8: Spelling = Spelling {
    bytes: *b"int8_t                                  ",
    n: 6,
};

const U8: Spelling = Spelling {
    bytes: *b"uint8_t                                 ",
    n: 7,
};

const SHORT: Spelling = Spelling {
    bytes: *b"short                                   ",
    n: 5,
};

const USHORT: Spelling = Spelling {
    bytes: *b"unsigned short                          ",
    n: 14,
};

const I16: Spelling = Spelling {
    bytes: *b"int16_t                                 ",
    n: 7,
};

const U16: Spelling = Spelling {
    bytes: *b"uint16_t                                ",
    n: 8,
};

const LONG: Spelling = Spelling {
    bytes: *b"long                                    ",
    n: 4,
};

const ULONG: Spelling = Spelling {
    bytes: *b"unsigned long                           ",
    n: 13,
};

const I32: Spelling = Spelling {
    bytes: *b"int                                     ",
    n: 3,
};

const U32: Spelling = Spelling {
    bytes: *b"unsigned int                            ",
    n: 12,
};

const QUAD: Spelling = Spelling {
    bytes: *b"long long                               ",
    n: 9,
};

const UQUAD: Spelling = Spelling {
    bytes: *b"unsigned long long                      ",
    n: 18,
};

const I64: Spelling = Spelling {
    bytes: *b"int64_t                                 ",
    n: 7,
};

const U64: Spelling = Spelling {
    bytes: *b"uint64_t                                ",
    n: 8,
};

const OCTA: Spelling = Spelling {
    bytes: *b"__int128                                ",
    n: 8,
};

const UOCTA: Spelling = Spelling {
    bytes: *b"unsigned __int128                       ",
    n: 17,
};

const I128: Spelling = Spelling {
    bytes: *b"int128_t                                ",
    n: 8,
};

const U128: Spelling = Spelling {
    bytes: *b"uint128_t                               ",
    n: 9,
};

const F16: Spelling = Spelling {
    bytes: *b"_Float16                                ",
    n: 8,
};

const F32: Spelling = Spelling {
    bytes: *b"float                                   ",
    n: 5,
};

const F32PP: Spelling = Spelling {
    bytes: *b"__float32pp                             ",
    n: 11,
};

const F48: Spelling = Spelling {
    bytes: *b"__float48                               ",
    n: 9,
};

const F64: Spelling = Spelling {
    bytes: *b"double                                  ",
    n: 6,
};

const F80: Spelling = Spelling {
    bytes: *b"long double                             ",
    n: 11,
};

const F128: Spelling = Spelling {
    bytes: *b"__float128                              ",
    n: 10,
};

const COMPLEX32: Spelling = Spelling {
    bytes: *b"float _Complex                          ",
    n: 14,
};

const COMPLEX64: Spelling = Spelling {
    bytes: *b"double _Complex                         ",
    n: 15,
};

const COMPLEX80: Spelling = Spelling {
    bytes: *b"long double _Complex                    ",
    n: 20,
};

const COMPLEX128: Spelling = Spelling {
    bytes: *b"__float128 _Complex                     ",
    n: 19,
};

const BOOL8: Spelling = Spelling {
    bytes: *b"bool                                    ",
    n: 4,
};

const BOOL16: Spelling = Spelling {
    bytes: *b"__bool16                                ",
    n: 8,
};

const BOOL32: Spelling = Spelling {
    bytes: *b"__bool32                                ",
    n: 8,
};

const BOOL64: Spelling = Spelling {
    bytes: *b"__bool64                                ",
    n: 8,
};

const HRESULT: Spelling = Spelling {
    bytes: *b"HRESULT                                 ",
    n: 7,
};

// How a kind is spelled.
pub fn spelled(k: PrimitiveKind) -> Spelling
    ensures { Spells result (kind_text k) }
{
    match k {
        PrimitiveKind::NoType => NO_TYPE,
        PrimitiveKind::Void => VOID,
        PrimitiveKind::Char => CHAR,
        PrimitiveKind::UChar => UCHAR,
        PrimitiveKind::RChar => RCHAR,
        PrimitiveKind::WChar => WCHAR,
        PrimitiveKind::RChar16 => RCHAR16,
        PrimitiveKind::RChar32 => RCHAR32,
        PrimitiveKind::I8 => I8,
        PrimitiveKind::U8 => U8,
        PrimitiveKind::Short => SHORT,
        PrimitiveKind::UShort => USHORT,
        PrimitiveKind::I16 => I16,
        PrimitiveKind::U16 => U16,
        PrimitiveKind::Long => LONG,
        PrimitiveKind::ULong => ULONG,
        PrimitiveKind::I32 => I32,
        PrimitiveKind::U32 => U32,
        PrimitiveKind::Quad => QUAD,
        PrimitiveKind::UQuad => UQUAD,
        PrimitiveKind::I64 => I64,
        PrimitiveKind::U64 => U64,
        PrimitiveKind::Octa => OCTA,
        PrimitiveKind::UOcta => UOCTA,
        PrimitiveKind::I128 => I128,
        PrimitiveKind::U128 => U128,
        PrimitiveKind::F16 => F16,
        PrimitiveKind::F32 => F32,
        PrimitiveKind::F32PP => F32PP,
        PrimitiveKind::F48 => F48,
        PrimitiveKind::F64 => F64,
        PrimitiveKind::F80 => F80,
        PrimitiveKind::F128 => F128,
        PrimitiveKind::Complex32 => COMPLEX32,
        PrimitiveKind::Complex64 => COMPLEX64,
        PrimitiveKind::Complex80 => COMPLEX80,
        PrimitiveKind::Complex128 => COMPLEX128,
        PrimitiveKind::Bool8 => BOOL8,
        PrimitiveKind::Bool16 => BOOL16,
        PrimitiveKind::Bool32 => BOOL32,
        PrimitiveKind::Bool64 => BOOL64,
        PrimitiveKind::HRESULT => HRESULT,
    }
}

// How many bytes a kind takes; 0 where it has no size.
fn kind_size(k: PrimitiveKind) -> u64
    ensures { result ≡ kind_size k }
{
    match k {
        PrimitiveKind::NoType => 0,
        PrimitiveKind::Void => 0,
        PrimitiveKind::Char => 1,
        PrimitiveKind::UChar => 1,
        PrimitiveKind::RChar => 1,
        PrimitiveKind::WChar => 2,
        PrimitiveKind::RChar16 => 2,
        PrimitiveKind::RChar32 => 4,
        PrimitiveKind::I8 => 1,
        PrimitiveKind::U8 => 1,
        PrimitiveKind::Short => 2,
        PrimitiveKind::UShort => 2,
        PrimitiveKind::I16 => 2,
        PrimitiveKind::U16 => 2,
        PrimitiveKind::Long => 4,
        PrimitiveKind::ULong => 4,
        PrimitiveKind::I32 => 4,
        PrimitiveKind::U32 => 4,
        PrimitiveKind::Quad => 8,
        PrimitiveKind::UQuad => 8,
        PrimitiveKind::I64 => 8,
        PrimitiveKind::U64 => 8,
        PrimitiveKind::Octa => 16,
        PrimitiveKind::UOcta => 16,
        PrimitiveKind::I128 => 16,
        PrimitiveKind::U128 => 16,
        PrimitiveKind::F16 => 2,
        PrimitiveKind::F32 => 4,
        PrimitiveKind::F32PP => 4,
        PrimitiveKind::F48 => 6,
        PrimitiveKind::F64 => 8,
        PrimitiveKind::F80 => 10,
        PrimitiveKind::F128 => 16,
        PrimitiveKind::Complex32 => 8,
        PrimitiveKind::Complex64 => 16,
        PrimitiveKind::Complex80 => 20,
        PrimitiveKind::Complex128 => 32,
        PrimitiveKind::Bool8 => 1,
        PrimitiveKind::Bool16 => 2,
        PrimitiveKind::Bool32 => 4,
        PrimitiveKind::Bool64 => 8,
        PrimitiveKind::HRESULT => 4,
    }
}

// How many bytes a primitive takes: one that is pointed to, as many as the pointer.
pub fn size(k: PrimitiveKind, by: Indirection) -> u64
    ensures { result ≡ primitive_size k by }
{
    match by {
        Indirection::Direct => kind_size(k),
        Indirection::Near16 => 2,
        Indirection::Far16 => 4,
        Indirection::Huge16 => 4,
        Indirection::Near32 => 4,
        Indirection::Far32 => 6,
        Indirection::Near64 => 8,
        Indirection::Near128 => 16,
    }
}
