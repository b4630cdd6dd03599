// The records of the TPI stream: the type leaves of document 01, by the names of the crate's data.rs, each read by its line of the table in
// record_layout/specs/Layouts.antt. The members inside a field list are in record_member, the elements of lists in record_list.
// tools/leaves writes the readers of plain records, and the tests of `type_data`.
#![tactic(auto, using(crate::proofs::Used::laws), unfolding(answer::specs::Tables::find, crate::specs::Said::class_kinds, crate::specs::Said::name_places, crate::specs::Said::type_data_name, record_layout::specs::Fields::read_field_by, record_layout::specs::Fields::read_fields_by, record_layout::specs::Layouts::leaf_of, record_layout::specs::Layouts::read_leaf, record_layout::specs::Layouts::record_of, record_layout::specs::Layouts::type_leaves))]

ghost use Rattle.std.specs.Prelude.{◌≡◌};
ghost use Rattle.field_text.specs.Texts.{part, string_at};
ghost use Rattle.field_number.specs.Forms.{size_told, sized_at};
ghost use Rattle.answer.specs.Tables.{find};
ghost use Rattle.record_layout.specs.Fields.{read_field};
ghost use Rattle.record_layout.specs.Layouts.{second_string, member_class, leaf_of, record_of, type_leaves};
ghost use Rattle.record_data.specs.Said.{kind_leaf, Plain, class_kinds, class_of, type_data_name, type_values, string_value, class_value};
ghost use Rattle.answer.specs.Refusals.{said_from, said};

use answer::Refusal;
use field::index::TypeIndex;
use field::reader::Reader;
use field_number::Size;
use field_text::RawString;
use record_layout::{
    LF_ARGLIST, LF_ARRAY, LF_BITFIELD, LF_CLASS, LF_ENUM, LF_FIELDLIST, LF_INTERFACE,
    LF_METHODLIST, LF_MFUNCTION, LF_MODIFIER, LF_POINTER, LF_PROCEDURE, LF_STRUCTURE,
    LF_STRUCTURE19, LF_UNION, LF_VTSHAPE,
};
use word_attributes::{FunctionAttributes, ModifierFlags, PointerAttributes, TypeProperties};

// What a class-like record is.
#[derive(Clone, Copy)]
pub enum ClassKind {
    // 0x1504
    Class,
    // 0x1505
    Struct,
    // 0x1519
    Interface,
    // 0x1609: a structure in another layout.
    Struct19,
}

// 0x1504, 0x1505, 0x1519 and 0x1609: a class, structure or interface.
#[derive(Clone, Copy)]
pub struct ClassType {
    pub kind: ClassKind,
    // How many elements its field list has.
    pub count: u16,
    pub properties: TypeProperties,
    pub fields: Option<TypeIndex>,
    pub derived_from: Option<TypeIndex>,
    pub vtable_shape: Option<TypeIndex>,
    pub size: Size,
    pub name: RawString,
    // The mangled name.
    pub unique_name: Option<RawString>,
}

// 0x1009: the type of a member function.
#[derive(Clone, Copy)]
pub struct MemberFunctionType {
    pub return_type: TypeIndex,
    pub class_type: TypeIndex,
    pub this_pointer_type: Option<TypeIndex>,
    pub attributes: FunctionAttributes,
    pub parameter_count: u16,
    pub argument_list: TypeIndex,
    pub this_adjustment: u32,
}

// 0x1008: the type of a function.
#[derive(Clone, Copy)]
pub struct ProcedureType {
    pub return_type: Option<TypeIndex>,
    pub attributes: FunctionAttributes,
    pub parameter_count: u16,
    pub argument_list: TypeIndex,
}

// 0x1002: a pointer or reference; to a member of the containing class in modes 2 and 3.
#[derive(Clone, Copy)]
pub struct PointerType {
    pub underlying_type: TypeIndex,
    pub attributes: PointerAttributes,
    pub containing_class: Option<TypeIndex>,
}

// 0x1001: a type with const, volatile or unaligned.
#[derive(Clone, Copy)]
pub struct ModifierType {
    pub underlying_type: TypeIndex,
    pub flags: ModifierFlags,
}

// 0x1507: an enumeration, whose values stand in its field list.
#[derive(Clone, Copy)]
pub struct EnumerationType {
    pub count: u16,
    pub properties: TypeProperties,
    pub underlying_type: TypeIndex,
    pub fields: TypeIndex,
    pub name: RawString,
    pub unique_name: Option<RawString>,
}

// 0x1503: an array and its size in bytes.
#[derive(Clone, Copy)]
pub struct ArrayType {
    pub element_type: TypeIndex,
    pub indexing_type: TypeIndex,
    pub size: Size,
    pub name: RawString,
}

// 0x1506: a union.
#[derive(Clone, Copy)]
pub struct UnionType {
    pub count: u16,
    pub properties: TypeProperties,
    pub fields: TypeIndex,
    pub size: Size,
    pub name: RawString,
    pub unique_name: Option<RawString>,
}

// 0x1205: a bit field: how many bits, and from which one up.
#[derive(Clone, Copy)]
pub struct BitfieldType {
    pub underlying_type: TypeIndex,
    pub length: u8,
    pub position: u8,
}

// 0x000a: the shape of a table of virtual functions, half a byte a slot: where it starts, and how many slots there are.
#[derive(Clone, Copy)]
pub struct VirtualTableShapeType {
    pub place: usize,
    pub count: u16,
}

// 0x1201: the types of a function's arguments: where the list starts, and how many there are.
#[derive(Clone, Copy)]
pub struct ArgumentList {
    pub place: usize,
    pub count: u32,
}

#[derive(Clone, Copy)]
pub enum TypeData {
    Class(ClassType),
    MemberFunction(MemberFunctionType),
    Procedure(ProcedureType),
    Pointer(PointerType),
    Modifier(ModifierType),
    Enumeration(EnumerationType),
    Array(ArrayType),
    Union(UnionType),
    Bitfield(BitfieldType),
    VirtualTableShape(VirtualTableShapeType),
    // 0x1203, its members unread.
    FieldList,
    ArgumentList(ArgumentList),
    // 0x1206, its methods unread.
    MethodList,
}

impl TypeData {
    // The name of a class, enumeration or union, as the crate gives it: that of an array is its record's own.
    pub fn name(self) -> Option<RawString>
        ensures { string_value result ≡ type_data_name (type_values self) }
    {
        match self {
            TypeData::Class(r) => Some(r.name),
            TypeData::Enumeration(r) => Some(r.name),
            TypeData::Union(r) => Some(r.name),
            _ => None,
        }
    }
}

// Parts that a word says are there --------------------------------------------------------------------------------------------

// The string and the size at a reader's place, as field_text and field_number read them; inlined, so that the reader stays in registers.

#[inline(always)]
fn read_string(r: &mut Reader<'_>) -> Result<RawString, Refusal>
    ensures value { said_from part result r.new.at ≡ string_at r.old.bytes.now r.old.at }
    ensures bytes { r.new.bytes ≡ r.old.bytes }
{
    let (t, at) = field_text::string_at(r.bytes, r.at)?;
    r.at = at;
    Ok(t)
}

#[inline(always)]
fn read_size(r: &mut Reader<'_>) -> Result<Size, Refusal>
    ensures value { said_from size_told result r.new.at ≡ sized_at r.old.bytes.now r.old.at }
    ensures bytes { r.new.bytes ≡ r.old.bytes }
{
    let (v, at) = field_number::size_at(r.bytes, r.at)?;
    r.at = at;
    Ok(v)
}

// The second string, where the properties have 0x0200.
#[inline(always)]
fn read_second_string(
    r: &mut Reader<'_>,
    properties: TypeProperties,
) -> Result<Option<RawString>, Refusal>
    ensures value { said_from string_value result r.new.at ≡ read_field second_string properties.0 r.old.bytes.now r.old.at }
    ensures bytes { r.new.bytes ≡ r.old.bytes }
{
    if properties.has_unique_name() {
        return Ok(Some(read_string(r)?));
    }
    Ok(None)
}

// The class of a pointer to member, in modes 2 and 3.
#[inline(always)]
fn read_containing_class(
    r: &mut Reader<'_>,
    word: PointerAttributes,
) -> Result<Option<TypeIndex>, Refusal>
    ensures value { said_from class_value result r.new.at ≡ read_field member_class word.0 r.old.bytes.now r.old.at }
    ensures bytes { r.new.bytes ≡ r.old.bytes }
{
    match word.pointer_to_member() {
        Ok(true) => r.optional(),
        _ => Ok(None),
    }
}

// The fields of each leaf, at the place after it ---------------------------------------------------------------------------

// Each is inlined where leaves are told apart: else their answers meet there, and are packed and taken apart again.

#[inline(always)]
fn read_modifier(r: &mut Reader<'_>) -> Result<TypeData, Refusal>
    ensures { said type_values result ≡ leaf_of type_leaves 0x1001 r.old.bytes.now r.old.at }
{
    let underlying_type = r.index()?;
    let flags = ModifierFlags(r.u16()?);
    Ok(TypeData::Modifier(ModifierType {
        underlying_type,
        flags,
    }))
}

// Kind and mode are needed right after the word, before the class is read.
#[inline(always)]
fn read_pointer(r: &mut Reader<'_>) -> Result<TypeData, Refusal>
    ensures { said type_values result ≡ leaf_of type_leaves 0x1002 r.old.bytes.now r.old.at }
{
    let underlying_type = r.index()?;
    let attributes = PointerAttributes(r.u32()?);
    attributes.pointer_kind()?;
    attributes.pointer_mode()?;
    let containing_class = read_containing_class(r, attributes)?;
    Ok(TypeData::Pointer(PointerType {
        underlying_type,
        attributes,
        containing_class,
    }))
}

#[inline(always)]
fn read_procedure(r: &mut Reader<'_>) -> Result<TypeData, Refusal>
    ensures { said type_values result ≡ leaf_of type_leaves 0x1008 r.old.bytes.now r.old.at }
{
    let return_type = r.optional()?;
    let attributes = FunctionAttributes(r.u16()?);
    let parameter_count = r.u16()?;
    let argument_list = r.index()?;
    Ok(TypeData::Procedure(ProcedureType {
        return_type,
        attributes,
        parameter_count,
        argument_list,
    }))
}

#[inline(always)]
fn read_member_function(r: &mut Reader<'_>) -> Result<TypeData, Refusal>
    ensures { said type_values result ≡ leaf_of type_leaves 0x1009 r.old.bytes.now r.old.at }
{
    let return_type = r.index()?;
    let class_type = r.index()?;
    let this_pointer_type = r.optional()?;
    let attributes = FunctionAttributes(r.u16()?);
    let parameter_count = r.u16()?;
    let argument_list = r.index()?;
    let this_adjustment = r.u32()?;
    Ok(TypeData::MemberFunction(MemberFunctionType {
        return_type,
        class_type,
        this_pointer_type,
        attributes,
        parameter_count,
        argument_list,
        this_adjustment,
    }))
}

#[inline(always)]
fn read_bitfield(r: &mut Reader<'_>) -> Result<TypeData, Refusal>
    ensures { said type_values result ≡ leaf_of type_leaves 0x1205 r.old.bytes.now r.old.at }
{
    let underlying_type = r.index()?;
    let length = r.u8()?;
    let position = r.u8()?;
    Ok(TypeData::Bitfield(BitfieldType {
        underlying_type,
        length,
        position,
    }))
}

#[inline(always)]
fn read_array(r: &mut Reader<'_>) -> Result<TypeData, Refusal>
    ensures { said type_values result ≡ leaf_of type_leaves 0x1503 r.old.bytes.now r.old.at }
{
    let element_type = r.index()?;
    let indexing_type = r.index()?;
    let size = read_size(r)?;
    let name = read_string(r)?;
    Ok(TypeData::Array(ArrayType {
        element_type,
        indexing_type,
        size,
        name,
    }))
}

// Class, structure and interface have one layout, and one reader: with one caller it is inlined, and a class is made where it is used.

fn class_kind(leaf: u16) -> Option<ClassKind>
    ensures { result ≡ find leaf class_kinds }
{
    match leaf {
        LF_CLASS => Some(ClassKind::Class),
        LF_STRUCTURE => Some(ClassKind::Struct),
        LF_INTERFACE => Some(ClassKind::Interface),
        _ => None,
    }
}

#[inline(always)]
fn read_class(r: &mut Reader<'_>, kind: ClassKind) -> Result<TypeData, Refusal>
    requires { Plain kind }
    ensures { said type_values result ≡ class_of (kind_leaf kind) r.old.bytes.now r.old.at }
{
    let count = r.u16()?;
    let properties = TypeProperties(r.u16()?);
    let fields = r.optional()?;
    let derived_from = r.optional()?;
    let vtable_shape = r.optional()?;
    let size = read_size(r)?;
    let name = read_string(r)?;
    let unique_name = read_second_string(r, properties)?;
    Ok(TypeData::Class(ClassType {
        kind,
        count,
        properties,
        fields,
        derived_from,
        vtable_shape,
        size,
        name,
        unique_name,
    }))
}

// The word of 0x1609 is a u32 whose low half is the properties.
#[inline(always)]
fn read_structure19(r: &mut Reader<'_>) -> Result<TypeData, Refusal>
    ensures { said type_values result ≡ leaf_of type_leaves 0x1609 r.old.bytes.now r.old.at }
{
    let properties = TypeProperties(r.u16()?);
    r.u16()?;
    let fields = r.optional()?;
    let derived_from = r.optional()?;
    let vtable_shape = r.optional()?;
    let count = r.u16()?;
    let size = read_size(r)?;
    let name = read_string(r)?;
    let unique_name = read_second_string(r, properties)?;
    Ok(TypeData::Class(ClassType {
        kind: ClassKind::Struct19,
        count,
        properties,
        fields,
        derived_from,
        vtable_shape,
        size,
        name,
        unique_name,
    }))
}

#[inline(always)]
fn read_union(r: &mut Reader<'_>) -> Result<TypeData, Refusal>
    ensures { said type_values result ≡ leaf_of type_leaves 0x1506 r.old.bytes.now r.old.at }
{
    let count = r.u16()?;
    let properties = TypeProperties(r.u16()?);
    let fields = r.index()?;
    let size = read_size(r)?;
    let name = read_string(r)?;
    let unique_name = read_second_string(r, properties)?;
    Ok(TypeData::Union(UnionType {
        count,
        properties,
        fields,
        size,
        name,
        unique_name,
    }))
}

#[inline(always)]
fn read_enumeration(r: &mut Reader<'_>) -> Result<TypeData, Refusal>
    ensures { said type_values result ≡ leaf_of type_leaves 0x1507 r.old.bytes.now r.old.at }
{
    let count = r.u16()?;
    let properties = TypeProperties(r.u16()?);
    let underlying_type = r.index()?;
    let fields = r.index()?;
    let name = read_string(r)?;
    let unique_name = read_second_string(r, properties)?;
    Ok(TypeData::Enumeration(EnumerationType {
        count,
        properties,
        underlying_type,
        fields,
        name,
        unique_name,
    }))
}

#[inline(always)]
fn read_shape(r: &mut Reader<'_>) -> Result<TypeData, Refusal>
    ensures { said type_values result ≡ leaf_of type_leaves 0x000a r.old.bytes.now r.old.at }
{
    let count = r.u16()?;
    let place = r.at;
    r.skip(((count as usize) + 1) / 2)?;
    Ok(TypeData::VirtualTableShape(VirtualTableShapeType { place, count }))
}

#[inline(always)]
fn read_arguments(r: &mut Reader<'_>) -> Result<TypeData, Refusal>
    ensures { said type_values result ≡ leaf_of type_leaves 0x1201 r.old.bytes.now r.old.at }
{
    let count = r.u32()?;
    let place = r.at;
    r.skip(4 * (count as usize))?;
    Ok(TypeData::ArgumentList(ArgumentList { place, count }))
}

// The type record that these bytes are, its leaf first.
pub fn type_data(s: &[u8]) -> Result<TypeData, Refusal>
    ensures { said type_values result ≡ record_of type_leaves s.now }
{
    let r = &mut Reader { bytes: s, at: 0 };
    let leaf = r.u16()?;
    if let Some(kind) = class_kind(leaf) {
        return read_class(r, kind);
    }
    match leaf {
        LF_MODIFIER => read_modifier(r),
        LF_POINTER => read_pointer(r),
        LF_PROCEDURE => read_procedure(r),
        LF_MFUNCTION => read_member_function(r),
        LF_BITFIELD => read_bitfield(r),
        LF_ARRAY => read_array(r),
        LF_UNION => read_union(r),
        LF_ENUM => read_enumeration(r),
        LF_STRUCTURE19 => read_structure19(r),
        LF_VTSHAPE => read_shape(r),
        LF_ARGLIST => read_arguments(r),
        LF_METHODLIST => Ok(TypeData::MethodList),
        LF_FIELDLIST => Ok(TypeData::FieldList),
        _ => Err(Refusal::LeafUnknown(leaf)),
    }
}
