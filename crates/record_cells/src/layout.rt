// The layouts of document 01 as numbers: five bits a field, the first field lowest. specs/Codes.antt says which field a code is.
// tools/leaves writes the layouts and the tables below from record_layout/specs/Layouts.antt.
ghost use Rattle.std.specs.Prelude.{◌≡◌, Some};
ghost use Rattle.answer.specs.Tables.{find};
ghost use Rattle.record_layout.specs.Layouts.{type_leaves, member_leaves, id_leaves, method};
ghost use Rattle.record_cells.specs.Codes.{layout_in, code_in, type_codes, member_codes, id_codes, method_code};

// 01's names of the fields.

pub const U8: u64 = 1;

pub const U16: u64 = 2;

pub const U32: u64 = 3;

pub const T: u64 = 4;

pub const O: u64 = 5;

pub const ID: u64 = 6;

pub const OPTIONAL_ID: u64 = 7;

pub const STRING_REF: u64 = 8;

// A number that later fields look at: the properties, field attributes A, a count; the pointer word, with its test.
pub const WORD16: u64 = 9;

pub const WORD32: u64 = 10;

pub const POINTER_WORD: u64 = 11;

pub const GAP: u64 = 12;

pub const NUMERIC: u64 = 13;

pub const N: u64 = 14;

pub const S: u64 = 15;

pub const TYPES: u64 = 16;

pub const IDS: u64 = 17;

pub const SLOTS: u64 = 18;

pub const METHODS: u64 = 19;

// There if the word says so.
pub const S2: u64 = 20;

pub const MEMBER_O: u64 = 21;

pub const OFFSET: u64 = 22;

pub const MEMBERS: u64 = 23;

const MODIFIER: u64 = T | U16 << 5;

const POINTER: u64 = T | POINTER_WORD << 5 | MEMBER_O << 10;

const PROCEDURE: u64 = O | U16 << 5 | U16 << 10 | T << 15;

const MFUNCTION: u64 = T | T << 5 | O << 10 | U16 << 15 | U16 << 20 | T << 25 | U32 << 30;

const BITFIELD: u64 = T | U8 << 5 | U8 << 10;

const ARRAY: u64 = T | T << 5 | N << 10 | S << 15;

const CLASS: u64 = U16 | WORD16 << 5 | O << 10 | O << 15 | O << 20 | N << 25 | S << 30 | S2 << 35;

const UNION: u64 = U16 | WORD16 << 5 | T << 10 | N << 15 | S << 20 | S2 << 25;

const ENUM: u64 = U16 | WORD16 << 5 | T << 10 | T << 15 | S << 20 | S2 << 25;

const STRUCTURE19: u64 = WORD16
    | GAP << 5
    | O << 10
    | O << 15
    | O << 20
    | U16 << 25
    | N << 30
    | S << 35
    | S2 << 40;

const VTSHAPE: u64 = WORD16 | SLOTS << 5;

const ARGLIST: u64 = WORD32 | TYPES << 5;

const BCLASS: u64 = WORD16 | T << 5 | N << 10;

const VIRTUAL_BASE: u64 = WORD16 | T << 5 | T << 10 | N << 15 | N << 20;

const ALONE: u64 = GAP | T << 5;

const ENUMERATE: u64 = WORD16 | NUMERIC << 5 | S << 10;

const MEMBER: u64 = WORD16 | T << 5 | N << 10 | S << 15;

const NAMED: u64 = WORD16 | T << 5 | S << 10;

const METHOD: u64 = U16 | T << 5 | S << 10;

const ONEMETHOD: u64 = WORD16 | T << 5 | OFFSET << 10 | S << 15;

const FUNC_ID: u64 = OPTIONAL_ID | T << 5 | S << 10;

const MFUNC_ID: u64 = T | T << 5 | S << 10;

const BUILDINFO: u64 = WORD16 | IDS << 5;

const SUBSTR_LIST: u64 = WORD32 | TYPES << 5;

const STRING_ID: u64 = OPTIONAL_ID | S << 5;

const UDT_SRC_LINE: u64 = T | ID << 5 | U32 << 10;

const UDT_MOD_SRC_LINE: u64 = T | STRING_REF << 5 | U32 << 10 | U16 << 15;

const LIST_METHOD: u64 = WORD16 | GAP << 5 | T << 10 | OFFSET << 15;

// The layout of a type record; 0 for a leaf that the type reader does not take.
pub fn type_layout(leaf: u16) -> u64
    ensures { (layout_in result ≡ find leaf type_leaves) × (result ≡ code_in type_codes leaf) }
{
    match leaf {
        0x1001 => MODIFIER,
        0x1002 => POINTER,
        0x1008 => PROCEDURE,
        0x1009 => MFUNCTION,
        0x1205 => BITFIELD,
        0x1503 => ARRAY,
        0x1504 => CLASS,
        0x1505 => CLASS,
        0x1519 => CLASS,
        0x1506 => UNION,
        0x1507 => ENUM,
        0x1609 => STRUCTURE19,
        0x000a => VTSHAPE,
        0x1201 => ARGLIST,
        0x1206 => METHODS,
        0x1203 => MEMBERS,
        _ => 0,
    }
}

// The layout of a member of a field list; 0 for a leaf that is none.
pub fn member_layout(leaf: u16) -> u64
    ensures { (layout_in result ≡ find leaf member_leaves) × (result ≡ code_in member_codes leaf) }
{
    match leaf {
        0x1400 => BCLASS,
        0x1401 => VIRTUAL_BASE,
        0x1402 => VIRTUAL_BASE,
        0x1404 => ALONE,
        0x1409 => ALONE,
        0x1502 => ENUMERATE,
        0x150d => MEMBER,
        0x150e => NAMED,
        0x150f => METHOD,
        0x1510 => NAMED,
        0x1511 => ONEMETHOD,
        _ => 0,
    }
}

// The layout of a method of a method list.
pub fn method_layout() -> u64
    ensures { (layout_in result ≡ Some method) × (result ≡ method_code) }
{
    LIST_METHOD
}

// The layout of an id record; 0 for a leaf that the id reader does not take.
pub fn id_layout(leaf: u16) -> u64
    ensures { (layout_in result ≡ find leaf id_leaves) × (result ≡ code_in id_codes leaf) }
{
    match leaf {
        0x1601 => FUNC_ID,
        0x1602 => MFUNC_ID,
        0x1603 => BUILDINFO,
        0x1604 => SUBSTR_LIST,
        0x1605 => STRING_ID,
        0x1606 => UDT_SRC_LINE,
        0x1607 => UDT_MOD_SRC_LINE,
        _ => 0,
    }
}
