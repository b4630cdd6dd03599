// The members inside a field list, 0x1203, and the method inside a method list, 0x1206, by the names of the crate's data.rs, each read by
// its line of the table in record_layout/specs/Layouts.antt.
#![tactic(auto, unfolding(answer::specs::Tables::among, answer::specs::Tables::find, record_layout::specs::Fields::read_field_by, record_layout::specs::Fields::read_fields_by, record_layout::specs::Layouts::member_leaves, record_layout::specs::Layouts::read_leaf, record_layout::specs::Layouts::read_record, crate::specs::Said::member_name, crate::specs::Said::named_leaves, crate::specs::Said::string_among))]

ghost use Rattle.std.specs.Prelude.{◌≡◌, Some};
ghost use Rattle.field_text.specs.Texts.{string_option};
ghost use Rattle.record_layout.specs.Fields.{read_field, read_fields};
ghost use Rattle.record_layout.specs.Layouts.{by_layout, read_leaf, read_record, member_leaves, virtual_base, method, offset};
ghost use Rattle.record_member.specs.Said.{virtual_leaf, member_values, offset_value, member_name, entry_values};
ghost use Rattle.answer.specs.Refusals.{said_from, said_read};

use answer::Refusal;
use field::index::TypeIndex;
use field::reader::Reader;
use field_number::{Size, Variant};
use field_text::RawString;
use record_layout::{
    LF_BCLASS, LF_ENUMERATE, LF_INDEX, LF_IVBCLASS, LF_MEMBER, LF_METHOD, LF_NESTTYPE,
    LF_ONEMETHOD, LF_STMEMBER, LF_VBCLASS, LF_VFUNCTAB,
};
use word_attributes::FieldAttributes;

// 0x1400: a base class and where it lies in the class. The crate's kind is left out: 01 takes no other leaf for a base class.
#[derive(Clone, Copy)]
pub struct BaseClassType {
    pub attributes: FieldAttributes,
    pub base_class: TypeIndex,
    pub offset: Size,
}

// 0x1401, direct, and 0x1402, indirect: a virtual base class.
#[derive(Clone, Copy)]
pub struct VirtualBaseClassType {
    pub direct: bool,
    pub attributes: FieldAttributes,
    pub base_class: TypeIndex,
    pub base_pointer: TypeIndex,
    pub base_pointer_offset: Size,
    pub virtual_base_offset: Size,
}

// 0x1409: the pointer to the table of virtual functions.
#[derive(Clone, Copy)]
pub struct VirtualFunctionTablePointerType {
    pub table: TypeIndex,
}

// 0x1502: one value of an enumeration, which may be negative.
#[derive(Clone, Copy)]
pub struct EnumerateType {
    pub attributes: FieldAttributes,
    pub value: Variant,
    pub name: RawString,
}

// 0x150d: a data member and where it lies in the class.
#[derive(Clone, Copy)]
pub struct MemberType {
    pub attributes: FieldAttributes,
    pub field_type: TypeIndex,
    pub offset: Size,
    pub name: RawString,
}

// 0x150e: a static data member.
#[derive(Clone, Copy)]
pub struct StaticMemberType {
    pub attributes: FieldAttributes,
    pub field_type: TypeIndex,
    pub name: RawString,
}

// 0x150f: the overloads of a method, which stand in a 0x1206 record.
#[derive(Clone, Copy)]
pub struct OverloadedMethodType {
    pub count: u16,
    pub method_list: TypeIndex,
    pub name: RawString,
}

// 0x1510: a type nested in the class.
#[derive(Clone, Copy)]
pub struct NestedType {
    pub attributes: FieldAttributes,
    pub nested_type: TypeIndex,
    pub name: RawString,
}

// 0x1511: a method with no overloads.
#[derive(Clone, Copy)]
pub struct MethodType {
    pub attributes: FieldAttributes,
    pub method_type: TypeIndex,
    pub vtable_offset: Option<u32>,
    pub name: RawString,
}

// An element of a field list.
#[derive(Clone, Copy)]
pub enum Member {
    BaseClass(BaseClassType),
    VirtualBaseClass(VirtualBaseClassType),
    // 0x1404: the list goes on in this record, and ends here.
    Continuation(TypeIndex),
    VirtualFunctionTablePointer(VirtualFunctionTablePointerType),
    Enumerate(EnumerateType),
    Member(MemberType),
    StaticMember(StaticMemberType),
    OverloadedMethod(OverloadedMethodType),
    Nested(NestedType),
    Method(MethodType),
}

// An element of a method list: one of a method's overloads.
#[derive(Clone, Copy)]
pub struct MethodListEntry {
    pub attributes: FieldAttributes,
    pub method_type: TypeIndex,
    pub vtable_offset: Option<u32>,
}

impl Member {
    // The name, where the crate's `name` gives one: a method's is not among them.
    pub fn name(self) -> Option<RawString>
        ensures { string_option result ≡ member_name (member_values self) }
    {
        match self {
            Member::Enumerate(m) => Some(m.name),
            Member::Member(m) => Some(m.name),
            Member::StaticMember(m) => Some(m.name),
            Member::OverloadedMethod(m) => Some(m.name),
            Member::Nested(m) => Some(m.name),
            _ => None,
        }
    }
}

// The offset of a method, which is there if its attributes say so.
fn read_offset(r: &mut Reader<'_>, attributes: FieldAttributes) -> Result<Option<u32>, Refusal>
    ensures value { said_from offset_value result r.new.at ≡ read_field offset attributes.0 r.old.bytes.now r.old.at }
    ensures bytes { r.new.bytes ≡ r.old.bytes }
{
    if attributes.is_intro_virtual() {
        return Ok(Some(r.u32()?));
    }
    Ok(None)
}

// The fields of each leaf, at the place after it.

fn read_base_class(r: &mut Reader<'_>) -> Result<Member, Refusal>
    ensures value { said_from member_values result r.new.at ≡ read_leaf member_leaves 0x1400 r.old.bytes.now r.old.at }
    ensures bytes { r.new.bytes ≡ r.old.bytes }
{
    let attributes = FieldAttributes(r.u16()?);
    let base_class = r.index()?;
    let offset = field_number::read_size(r)?;
    Ok(Member::BaseClass(BaseClassType {
        attributes,
        base_class,
        offset,
    }))
}

// 0x1401 if it is direct, else 0x1402.
fn read_virtual_base_class(r: &mut Reader<'_>, direct: bool) -> Result<Member, Refusal>
    ensures value { said_from member_values result r.new.at ≡ by_layout (Some virtual_base) (virtual_leaf direct) r.old.bytes.now r.old.at }
    ensures bytes { r.new.bytes ≡ r.old.bytes }
{
    let attributes = FieldAttributes(r.u16()?);
    let base_class = r.index()?;
    let base_pointer = r.index()?;
    let pointer_offset = field_number::read_size(r)?;
    let base_offset = field_number::read_size(r)?;
    Ok(Member::VirtualBaseClass(VirtualBaseClassType {
        direct,
        attributes,
        base_class,
        base_pointer,
        base_pointer_offset: pointer_offset,
        virtual_base_offset: base_offset,
    }))
}

fn read_continuation(r: &mut Reader<'_>) -> Result<Member, Refusal>
    ensures value { said_from member_values result r.new.at ≡ read_leaf member_leaves 0x1404 r.old.bytes.now r.old.at }
    ensures bytes { r.new.bytes ≡ r.old.bytes }
{
    r.u16()?;
    let record = r.index()?;
    Ok(Member::Continuation(record))
}

fn read_table_pointer(r: &mut Reader<'_>) -> Result<Member, Refusal>
    ensures value { said_from member_values result r.new.at ≡ read_leaf member_leaves 0x1409 r.old.bytes.now r.old.at }
    ensures bytes { r.new.bytes ≡ r.old.bytes }
{
    r.u16()?;
    let table = r.index()?;
    Ok(Member::VirtualFunctionTablePointer(VirtualFunctionTablePointerType { table }))
}

fn read_enumerate(r: &mut Reader<'_>) -> Result<Member, Refusal>
    ensures value { said_from member_values result r.new.at ≡ read_leaf member_leaves 0x1502 r.old.bytes.now r.old.at }
    ensures bytes { r.new.bytes ≡ r.old.bytes }
{
    let attributes = FieldAttributes(r.u16()?);
    let value = field_number::read_number(r)?;
    let name = field_text::read_string(r)?;
    Ok(Member::Enumerate(EnumerateType {
        attributes,
        value,
        name,
    }))
}

fn read_data_member(r: &mut Reader<'_>) -> Result<Member, Refusal>
    ensures value { said_from member_values result r.new.at ≡ read_leaf member_leaves 0x150d r.old.bytes.now r.old.at }
    ensures bytes { r.new.bytes ≡ r.old.bytes }
{
    let attributes = FieldAttributes(r.u16()?);
    let field_type = r.index()?;
    let offset = field_number::read_size(r)?;
    let name = field_text::read_string(r)?;
    Ok(Member::Member(MemberType {
        attributes,
        field_type,
        offset,
        name,
    }))
}

fn read_static_member(r: &mut Reader<'_>) -> Result<Member, Refusal>
    ensures value { said_from member_values result r.new.at ≡ read_leaf member_leaves 0x150e r.old.bytes.now r.old.at }
    ensures bytes { r.new.bytes ≡ r.old.bytes }
{
    let attributes = FieldAttributes(r.u16()?);
    let field_type = r.index()?;
    let name = field_text::read_string(r)?;
    Ok(Member::StaticMember(StaticMemberType {
        attributes,
        field_type,
        name,
    }))
}

fn read_overloaded_method(r: &mut Reader<'_>) -> Result<Member, Refusal>
    ensures value { said_from member_values result r.new.at ≡ read_leaf member_leaves 0x150f r.old.bytes.now r.old.at }
    ensures bytes { r.new.bytes ≡ r.old.bytes }
{
    let count = r.u16()?;
    let method_list = r.index()?;
    let name = field_text::read_string(r)?;
    Ok(Member::OverloadedMethod(OverloadedMethodType {
        count,
        method_list,
        name,
    }))
}

fn read_nested(r: &mut Reader<'_>) -> Result<Member, Refusal>
    ensures value { said_from member_values result r.new.at ≡ read_leaf member_leaves 0x1510 r.old.bytes.now r.old.at }
    ensures bytes { r.new.bytes ≡ r.old.bytes }
{
    let attributes = FieldAttributes(r.u16()?);
    let nested_type = r.index()?;
    let name = field_text::read_string(r)?;
    Ok(Member::Nested(NestedType {
        attributes,
        nested_type,
        name,
    }))
}

fn read_method(r: &mut Reader<'_>) -> Result<Member, Refusal>
    ensures value { said_from member_values result r.new.at ≡ read_leaf member_leaves 0x1511 r.old.bytes.now r.old.at }
    ensures bytes { r.new.bytes ≡ r.old.bytes }
{
    let attributes = FieldAttributes(r.u16()?);
    let method_type = r.index()?;
    let vtable_offset = read_offset(r, attributes)?;
    let name = field_text::read_string(r)?;
    Ok(Member::Method(MethodType {
        attributes,
        method_type,
        vtable_offset,
        name,
    }))
}

// The member at a reader's place, its leaf first.
fn read_member(r: &mut Reader<'_>) -> Result<Member, Refusal>
    ensures value { said_from member_values result r.new.at ≡ read_record member_leaves r.old.bytes.now r.old.at }
    ensures bytes { r.new.bytes ≡ r.old.bytes }
{
    let leaf = r.u16()?;
    match leaf {
        LF_BCLASS => read_base_class(r),
        LF_VBCLASS => read_virtual_base_class(r, true),
        LF_IVBCLASS => read_virtual_base_class(r, false),
        LF_INDEX => read_continuation(r),
        LF_VFUNCTAB => read_table_pointer(r),
        LF_ENUMERATE => read_enumerate(r),
        LF_MEMBER => read_data_member(r),
        LF_STMEMBER => read_static_member(r),
        LF_METHOD => read_overloaded_method(r),
        LF_NESTTYPE => read_nested(r),
        LF_ONEMETHOD => read_method(r),
        _ => Err(Refusal::LeafUnknown(leaf)),
    }
}

// The member at place p, its leaf first, and the place after it.
pub fn member_at(s: &[u8], p: usize) -> Result<(Member, usize), Refusal>
    ensures { said_read member_values result ≡ read_record member_leaves s.now p }
{
    let mut r = Reader { bytes: s, at: p };
    let m = read_member(&mut r)?;
    Ok((m, r.at))
}

// The method of a method list at place p, and the place after it.
pub fn method_entry_at(s: &[u8], p: usize) -> Result<(MethodListEntry, usize), Refusal>
    ensures { said_read entry_values result ≡ read_fields method 0 s.now p }
{
    let mut r = Reader { bytes: s, at: p };
    let attributes = FieldAttributes(r.u16()?);
    r.u16()?;
    let method_type = r.index()?;
    let vtable_offset = read_offset(&mut r, attributes)?;
    Ok((
        MethodListEntry {
            attributes,
            method_type,
            vtable_offset,
        },
        r.at,
    ))
}
