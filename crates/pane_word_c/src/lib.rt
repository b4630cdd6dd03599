// The functions of crates/pane_word that C and Rust link: each calls the library's of the same name, and has its clauses. Written by tools/exports.
#![tactic(auto)]

ghost use Rattle.std.specs.Prelude.{◌≡◌, leb};
ghost use Rattle.field.specs.Indices.{optional_of, no_type, no_id};
ghost use Rattle.field_text.specs.Texts.{string_of, padding_after};
ghost use Rattle.field_number.specs.Forms.{numeral_at, sized_at};
ghost use Rattle.pane_out.specs.Handed.{mark};
ghost use Rattle.pane_word.specs.Fields.{out_string, out_padding, out_size, out_number, present};
ghost use Rattle.pane_word.specs.Words.{out_properties, out_field, out_function, out_pointer};

// The string at a place, in a record of this leaf: up to 0x1500 by a length byte, above it up to a zero byte.
#[unsafe(no_mangle)]
pub extern "C" fn pdb_string(s: &[u8], leaf: u16, at: usize, out: &mut [u64; 5]) -> u32
    ensures { (result, out.new) ≡ out_string (string_of leaf s.now at) }
{
    pane_word::pdb_string(s, leaf, at, out)
}

// The place behind the padding at a place.
#[unsafe(no_mangle)]
pub extern "C" fn pdb_padding(s: &[u8], at: usize, out: &mut [u64; 3]) -> u32
    ensures { (result, out.new) ≡ out_padding (padding_after s.now at) }
{
    pane_word::pdb_padding(s, at, out)
}

// The numeric leaf at a place where a size or an offset is wanted.
#[unsafe(no_mangle)]
pub extern "C" fn pdb_size(s: &[u8], at: usize, out: &mut [u64; 6]) -> u32
    ensures { (result, out.new) ≡ out_size (sized_at s.now at) }
{
    pane_word::pdb_size(s, at, out)
}

// The numeric leaf at a place, which may be negative.
#[unsafe(no_mangle)]
pub extern "C" fn pdb_number(s: &[u8], at: usize, out: &mut [u64; 7]) -> u32
    ensures { (result, out.new) ≡ out_number (numeral_at s.now at) }
{
    pane_word::pdb_number(s, at, out)
}

// Is a type there, where an optional type field has this number?
#[unsafe(no_mangle)]
pub extern "C" fn pdb_optional_type(index: u32) -> u32
    ensures { result ≡ present (optional_of no_type index) }
{
    pane_word::pdb_optional_type(index)
}

// The same of an optional id field.
#[unsafe(no_mangle)]
pub extern "C" fn pdb_optional_id(index: u32) -> u32
    ensures { result ≡ present (optional_of no_id index) }
{
    pane_word::pdb_optional_id(index)
}

// Does a number of a type or an id name one of another module?
#[unsafe(no_mangle)]
pub extern "C" fn pdb_is_cross_module(index: u32) -> u32
    ensures { result ≡ mark (leb 0x80000000 index) }
{
    pane_word::pdb_is_cross_module(index)
}

// The word of a class, structure, interface, union or enumeration.
#[unsafe(no_mangle)]
pub extern "C" fn pdb_properties(word: u16, out: &mut [u64; 16]) -> u32
    ensures { (result, out.new) ≡ out_properties word }
{
    pane_word::pdb_properties(word, out)
}

// The word of a field or a method.
#[unsafe(no_mangle)]
pub extern "C" fn pdb_field_attributes(word: u16, out: &mut [u64; 8]) -> u32
    ensures { (result, out.new) ≡ out_field word }
{
    pane_word::pdb_field_attributes(word, out)
}

// The word of a function.
#[unsafe(no_mangle)]
pub extern "C" fn pdb_function_attributes(word: u16, out: &mut [u64; 6]) -> u32
    ensures { (result, out.new) ≡ out_function word }
{
    pane_word::pdb_function_attributes(word, out)
}

// The word of a pointer.
#[unsafe(no_mangle)]
pub extern "C" fn pdb_pointer_attributes(word: u32, out: &mut [u64; 16]) -> u32
    ensures { (result, out.new) ≡ out_pointer word }
{
    pane_word::pdb_pointer_attributes(word, out)
}
