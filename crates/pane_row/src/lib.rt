// Parsed records and list elements as rows of numbers, for a caller that is written in C: each role has one place of the row for all leaves, 0 where there
// is none. The places are specs/TypePlaces.antt, IdPlaces.antt and ElementPlaces.antt, tables beside 01's table of layouts. Each row begins with two zeros,
// for the details of a refusal, so that what goes behind `out` is written by one store. tools/leaves writes the rows of plain type records.
#![tactic(auto, using(crate::proofs::Used::laws), unfolding(answer::specs::Tables::find, crate::specs::ElementPlaces::index_row, crate::specs::ElementPlaces::member_slots, crate::specs::ElementPlaces::method_row, crate::specs::IdPlaces::id_slots, crate::specs::Slots::puts, crate::specs::Slots::row_by, crate::specs::TypePlaces::type_slots))]

ghost use Rattle.std.specs.Prelude.{◌≡◌, [], ◌∷◌};
ghost use Rattle.field.specs.Indices.{type_option, id_option};
ghost use Rattle.field_number.specs.Numbers.{number_value};
ghost use Rattle.record_layout.specs.Fields.{number, or_absent};
ghost use Rattle.record_data.specs.Said.{string_value, kind_leaf, type_values};
ghost use Rattle.record_id.specs.Said.{id_values};
ghost use Rattle.record_member.specs.Said.{offset_option, virtual_leaf, member_values, entry_values};
ghost use Rattle.pane_out.specs.Handed.{bits64, negative};
ghost use Rattle.pane_row.specs.Slots.{form_in, first_of, second_of};
ghost use Rattle.pane_row.specs.TypePlaces.{type_row};
ghost use Rattle.pane_row.specs.IdPlaces.{id_row};
ghost use Rattle.pane_row.specs.ListPlaces.{cursor_row};
ghost use Rattle.pane_row.specs.ElementPlaces.{index_row, method_row, member_row};

use field::index::{IdIndex, TypeIndex};
use field_number::Number;
use field_text::RawString;
use pane_out::flag;
use record_data::{
    ArgumentList, ArrayType, BitfieldType, ClassKind, ClassType, EnumerationType,
    MemberFunctionType, ModifierType, PointerType, ProcedureType, TypeData, UnionType,
    VirtualTableShapeType,
};
use record_id::{
    BuildInfoId, FunctionId, IdData, MemberFunctionId, StringId, StringListId,
    UserDefinedTypeSourceFileRef, UserDefinedTypeSourceId,
};
use record_list::ListCursor;
use record_member::{
    BaseClassType, EnumerateType, Member, MemberType, MethodListEntry, MethodType, NestedType,
    OverloadedMethodType, StaticMemberType, VirtualBaseClassType, VirtualFunctionTablePointerType,
};

// What may be absent, as numbers.

fn index_or_0(o: Option<TypeIndex>) -> u64
    ensures { result ≡ first_of (or_absent (type_option o)) }
{
    match o {
        None => 0,
        Some(i) => i.0 as u64,
    }
}

fn id_or_0(o: Option<IdIndex>) -> u64
    ensures { result ≡ first_of (or_absent (id_option o)) }
{
    match o {
        None => 0,
        Some(i) => i.0 as u64,
    }
}

fn place_or_0(o: Option<RawString>) -> u64
    ensures { result ≡ first_of (string_value o) }
{
    match o {
        None => 0,
        Some(t) => t.place as u64,
    }
}

fn length_or_0(o: Option<RawString>) -> u64
    ensures { result ≡ second_of (string_value o) }
{
    match o {
        None => 0,
        Some(t) => t.length as u64,
    }
}

fn offset_or_0(o: Option<u32>) -> u64
    ensures { result ≡ first_of (or_absent (offset_option o)) }
{
    match o {
        None => 0,
        Some(x) => x as u64,
    }
}

fn is_there(o: Option<u32>) -> u64
    ensures { result ≡ second_of (or_absent (offset_option o)) }
{
    match o {
        None => 0,
        Some(_) => 1,
    }
}

// The 64 bits of a number, and 1 if it is negative.

fn bits(n: Number) -> u64
    ensures { result ≡ bits64 (number_value n) }
{
    match n {
        Number::Natural(x) => x,
        Number::Negative(x) => 0xffff_ffff_ffff_ffff - x,
    }
}

fn is_negative(n: Number) -> u64
    ensures { result ≡ negative (number_value n) }
{
    match n {
        Number::Natural(_) => 0,
        Number::Negative(_) => 1,
    }
}

// The form in which a numeric leaf stood: its bytes, and 256 more where a shorter form carries the number.
fn form(width: u8, shorter: bool) -> u64
    ensures { result ≡ form_in (record { width = width; shorter = shorter }) }
{
    if shorter {
        256 + width as u64
    } else {
        width as u64
    }
}

// The leaf of each kind.

fn leaf_of(k: ClassKind) -> u64
    ensures { result ≡ kind_leaf k }
{
    match k {
        ClassKind::Class => 0x1504,
        ClassKind::Struct => 0x1505,
        ClassKind::Interface => 0x1519,
        ClassKind::Struct19 => 0x1609,
    }
}

fn virtual_leaf(direct: bool) -> u64
    ensures { result ≡ virtual_leaf direct }
{
    if direct { 0x1401 } else { 0x1402 }
}

// The row of each type record.

fn class_row(d: ClassType) -> [u64; 15]
    ensures { result ≡ 0 ∷ 0 ∷ type_row (type_values (TypeData.Class d)) }
{
    [
        0,
        0,
        leaf_of(d.kind),
        d.count as u64,
        d.properties.0 as u64,
        0,
        index_or_0(d.fields),
        index_or_0(d.derived_from),
        index_or_0(d.vtable_shape),
        d.size.value,
        form(d.size.width, d.size.shorter),
        d.name.place as u64,
        d.name.length as u64,
        place_or_0(d.unique_name),
        length_or_0(d.unique_name),
    ]
}

fn member_function_row(d: MemberFunctionType) -> [u64; 15]
    ensures { result ≡ 0 ∷ 0 ∷ type_row (type_values (TypeData.MemberFunction d)) }
{
    [
        0,
        0,
        0x1009,
        d.parameter_count as u64,
        d.attributes.0 as u64,
        d.return_type.0 as u64,
        d.argument_list.0 as u64,
        d.class_type.0 as u64,
        index_or_0(d.this_pointer_type),
        d.this_adjustment as u64,
        0,
        0,
        0,
        0,
        0,
    ]
}

fn procedure_row(d: ProcedureType) -> [u64; 15]
    ensures { result ≡ 0 ∷ 0 ∷ type_row (type_values (TypeData.Procedure d)) }
{
    [
        0,
        0,
        0x1008,
        d.parameter_count as u64,
        d.attributes.0 as u64,
        index_or_0(d.return_type),
        d.argument_list.0 as u64,
        0,
        0,
        0,
        0,
        0,
        0,
        0,
        0,
    ]
}

fn pointer_row(d: PointerType) -> [u64; 15]
    ensures { result ≡ 0 ∷ 0 ∷ type_row (type_values (TypeData.Pointer d)) }
{
    [
        0,
        0,
        0x1002,
        0,
        d.attributes.0 as u64,
        d.underlying_type.0 as u64,
        0,
        index_or_0(d.containing_class),
        0,
        0,
        0,
        0,
        0,
        0,
        0,
    ]
}

fn modifier_row(d: ModifierType) -> [u64; 15]
    ensures { result ≡ 0 ∷ 0 ∷ type_row (type_values (TypeData.Modifier d)) }
{
    [
        0,
        0,
        0x1001,
        0,
        d.flags.0 as u64,
        d.underlying_type.0 as u64,
        0,
        0,
        0,
        0,
        0,
        0,
        0,
        0,
        0,
    ]
}

fn enumeration_row(d: EnumerationType) -> [u64; 15]
    ensures { result ≡ 0 ∷ 0 ∷ type_row (type_values (TypeData.Enumeration d)) }
{
    [
        0,
        0,
        0x1507,
        d.count as u64,
        d.properties.0 as u64,
        d.underlying_type.0 as u64,
        d.fields.0 as u64,
        0,
        0,
        0,
        0,
        d.name.place as u64,
        d.name.length as u64,
        place_or_0(d.unique_name),
        length_or_0(d.unique_name),
    ]
}

fn array_row(d: ArrayType) -> [u64; 15]
    ensures { result ≡ 0 ∷ 0 ∷ type_row (type_values (TypeData.Array d)) }
{
    [
        0,
        0,
        0x1503,
        0,
        0,
        d.element_type.0 as u64,
        0,
        d.indexing_type.0 as u64,
        0,
        d.size.value,
        form(d.size.width, d.size.shorter),
        d.name.place as u64,
        d.name.length as u64,
        0,
        0,
    ]
}

fn union_row(d: UnionType) -> [u64; 15]
    ensures { result ≡ 0 ∷ 0 ∷ type_row (type_values (TypeData.Union d)) }
{
    [
        0,
        0,
        0x1506,
        d.count as u64,
        d.properties.0 as u64,
        0,
        d.fields.0 as u64,
        0,
        0,
        d.size.value,
        form(d.size.width, d.size.shorter),
        d.name.place as u64,
        d.name.length as u64,
        place_or_0(d.unique_name),
        length_or_0(d.unique_name),
    ]
}

fn bitfield_row(d: BitfieldType) -> [u64; 15]
    ensures { result ≡ 0 ∷ 0 ∷ type_row (type_values (TypeData.Bitfield d)) }
{
    [
        0,
        0,
        0x1205,
        d.length as u64,
        0,
        d.underlying_type.0 as u64,
        0,
        0,
        0,
        d.position as u64,
        0,
        0,
        0,
        0,
        0,
    ]
}

fn shape_row(d: VirtualTableShapeType) -> [u64; 15]
    ensures { result ≡ 0 ∷ 0 ∷ type_row (type_values (TypeData.VirtualTableShape d)) }
{
    [
        0,
        0,
        0x000a,
        d.count as u64,
        0,
        0,
        0,
        0,
        0,
        0,
        0,
        d.place as u64,
        (((d.count as usize) + 1) / 2) as u64,
        0,
        0,
    ]
}

fn arguments_row(d: ArgumentList) -> [u64; 15]
    ensures { result ≡ 0 ∷ 0 ∷ type_row (type_values (TypeData.ArgumentList d)) }
{
    [
        0,
        0,
        0x1201,
        d.count as u64,
        0,
        0,
        0,
        0,
        0,
        0,
        0,
        d.place as u64,
        4 * (d.count as u64),
        0,
        0,
    ]
}

// The row of a type record: two zeros, leaf, count, word, type, list, other, last, size, form, name and its length, unique name and its length.
pub fn type_row(d: TypeData) -> [u64; 15]
    ensures { result ≡ 0 ∷ 0 ∷ type_row (type_values d) }
{
    match d {
        TypeData::Class(x) => class_row(x),
        TypeData::MemberFunction(x) => member_function_row(x),
        TypeData::Procedure(x) => procedure_row(x),
        TypeData::Pointer(x) => pointer_row(x),
        TypeData::Modifier(x) => modifier_row(x),
        TypeData::Enumeration(x) => enumeration_row(x),
        TypeData::Array(x) => array_row(x),
        TypeData::Union(x) => union_row(x),
        TypeData::Bitfield(x) => bitfield_row(x),
        TypeData::VirtualTableShape(x) => shape_row(x),
        TypeData::FieldList => [0, 0, 0x1203, 0, 0, 0, 0, 0, 0, 0, 0, 0, 0, 0, 0],
        TypeData::ArgumentList(x) => arguments_row(x),
        TypeData::MethodList => [0, 0, 0x1206, 0, 0, 0, 0, 0, 0, 0, 0, 0, 0, 0, 0],
    }
}

// The row of each id record.

fn function_id_row(d: FunctionId) -> [u64; 12]
    ensures { result ≡ 0 ∷ 0 ∷ id_row (id_values (IdData.Function d)) }
{
    [
        0,
        0,
        0x1601,
        0,
        d.function_type.0 as u64,
        0,
        id_or_0(d.scope),
        0,
        0,
        0,
        d.name.place as u64,
        d.name.length as u64,
    ]
}

fn member_function_id_row(d: MemberFunctionId) -> [u64; 12]
    ensures { result ≡ 0 ∷ 0 ∷ id_row (id_values (IdData.MemberFunction d)) }
{
    [
        0,
        0,
        0x1602,
        0,
        d.function_type.0 as u64,
        d.parent.0 as u64,
        0,
        0,
        0,
        0,
        d.name.place as u64,
        d.name.length as u64,
    ]
}

fn build_info_row(d: BuildInfoId) -> [u64; 12]
    ensures { result ≡ 0 ∷ 0 ∷ id_row (id_values (IdData.BuildInfo d)) }
{
    [
        0,
        0,
        0x1603,
        d.count as u64,
        0,
        0,
        0,
        0,
        0,
        0,
        d.place as u64,
        4 * (d.count as u64),
    ]
}

fn string_list_row(d: StringListId) -> [u64; 12]
    ensures { result ≡ 0 ∷ 0 ∷ id_row (id_values (IdData.StringList d)) }
{
    [
        0,
        0,
        0x1604,
        d.count as u64,
        0,
        0,
        0,
        0,
        0,
        0,
        d.place as u64,
        4 * (d.count as u64),
    ]
}

fn string_id_row(d: StringId) -> [u64; 12]
    ensures { result ≡ 0 ∷ 0 ∷ id_row (id_values (IdData.String d)) }
{
    [
        0,
        0,
        0x1605,
        0,
        0,
        0,
        id_or_0(d.substrings),
        0,
        0,
        0,
        d.name.place as u64,
        d.name.length as u64,
    ]
}

fn source_row(d: UserDefinedTypeSourceId) -> [u64; 12]
    ensures { result ≡ 0 ∷ 0 ∷ id_row (id_values (IdData.UserDefinedTypeSource d)) }
{
    match d.source_file {
        UserDefinedTypeSourceFileRef::Local(file) => [
            0,
            0,
            0x1606,
            0,
            d.udt.0 as u64,
            0,
            0,
            file.0 as u64,
            d.line as u64,
            0,
            0,
            0,
        ],
        UserDefinedTypeSourceFileRef::Remote(module, file) => [
            0,
            0,
            0x1607,
            0,
            d.udt.0 as u64,
            0,
            0,
            file.0 as u64,
            d.line as u64,
            module as u64,
            0,
            0,
        ],
    }
}

// The row of an id record: two zeros, leaf, count, type, parent, id, file, line, module, name and its length.
pub fn id_row(d: IdData) -> [u64; 12]
    ensures { result ≡ 0 ∷ 0 ∷ id_row (id_values d) }
{
    match d {
        IdData::Function(x) => function_id_row(x),
        IdData::MemberFunction(x) => member_function_id_row(x),
        IdData::BuildInfo(x) => build_info_row(x),
        IdData::StringList(x) => string_list_row(x),
        IdData::String(x) => string_id_row(x),
        IdData::UserDefinedTypeSource(x) => source_row(x),
    }
}

// The row of a list's cursor: two zeros, leaf, place, elements left, padded.
pub fn cursor_row(c: ListCursor) -> [u64; 6]
    ensures { result ≡ 0 ∷ 0 ∷ cursor_row c }
{
    [
        0,
        0,
        c.leaf as u64,
        c.at as u64,
        c.left as u64,
        flag(c.padded),
    ]
}

// The row of each member: two zeros, the cursor behind it, its place, elements left and padded, then leaf, word, type, other, value, more, form, more_form,
// name and its length.

fn base_class_row(at: u64, left: u64, padded: u64, m: BaseClassType) -> [u64; 15]
    ensures { result ≡ 0 ∷ 0 ∷ at ∷ left ∷ padded ∷ member_row (member_values (Member.BaseClass m)) }
{
    [
        0,
        0,
        at,
        left,
        padded,
        0x1400,
        m.attributes.0 as u64,
        m.base_class.0 as u64,
        0,
        m.offset.value,
        0,
        form(m.offset.width, m.offset.shorter),
        0,
        0,
        0,
    ]
}

fn virtual_base_row(at: u64, left: u64, padded: u64, m: VirtualBaseClassType) -> [u64; 15]
    ensures { result ≡ 0 ∷ 0 ∷ at ∷ left ∷ padded ∷ member_row (member_values (Member.VirtualBaseClass m)) }
{
    [
        0,
        0,
        at,
        left,
        padded,
        virtual_leaf(m.direct),
        m.attributes.0 as u64,
        m.base_class.0 as u64,
        m.base_pointer.0 as u64,
        m.base_pointer_offset.value,
        m.virtual_base_offset.value,
        form(m.base_pointer_offset.width, m.base_pointer_offset.shorter),
        form(m.virtual_base_offset.width, m.virtual_base_offset.shorter),
        0,
        0,
    ]
}

fn continuation_row(at: u64, left: u64, padded: u64, t: TypeIndex) -> [u64; 15]
    ensures { result ≡ 0 ∷ 0 ∷ at ∷ left ∷ padded ∷ member_row (member_values (Member.Continuation t)) }
{
    [
        0, 0, at, left, padded, 0x1404, 0, t.0 as u64, 0, 0, 0, 0, 0, 0, 0,
    ]
}

fn table_pointer_row(
    at: u64,
    left: u64,
    padded: u64,
    m: VirtualFunctionTablePointerType,
) -> [u64; 15]
    ensures { result ≡ 0 ∷ 0 ∷ at ∷ left ∷ padded ∷ member_row (member_values (Member.VirtualFunctionTablePointer m)) }
{
    [
        0,
        0,
        at,
        left,
        padded,
        0x1409,
        0,
        m.table.0 as u64,
        0,
        0,
        0,
        0,
        0,
        0,
        0,
    ]
}

fn enumerate_row(at: u64, left: u64, padded: u64, m: EnumerateType) -> [u64; 15]
    ensures { result ≡ 0 ∷ 0 ∷ at ∷ left ∷ padded ∷ member_row (member_values (Member.Enumerate m)) }
{
    [
        0,
        0,
        at,
        left,
        padded,
        0x1502,
        m.attributes.0 as u64,
        0,
        0,
        bits(m.value.value),
        is_negative(m.value.value),
        form(m.value.width, m.value.shorter),
        0,
        m.name.place as u64,
        m.name.length as u64,
    ]
}

fn data_member_row(at: u64, left: u64, padded: u64, m: MemberType) -> [u64; 15]
    ensures { result ≡ 0 ∷ 0 ∷ at ∷ left ∷ padded ∷ member_row (member_values (Member.Member m)) }
{
    [
        0,
        0,
        at,
        left,
        padded,
        0x150d,
        m.attributes.0 as u64,
        m.field_type.0 as u64,
        0,
        m.offset.value,
        0,
        form(m.offset.width, m.offset.shorter),
        0,
        m.name.place as u64,
        m.name.length as u64,
    ]
}

fn static_member_row(at: u64, left: u64, padded: u64, m: StaticMemberType) -> [u64; 15]
    ensures { result ≡ 0 ∷ 0 ∷ at ∷ left ∷ padded ∷ member_row (member_values (Member.StaticMember m)) }
{
    [
        0,
        0,
        at,
        left,
        padded,
        0x150e,
        m.attributes.0 as u64,
        m.field_type.0 as u64,
        0,
        0,
        0,
        0,
        0,
        m.name.place as u64,
        m.name.length as u64,
    ]
}

fn overloads_row(at: u64, left: u64, padded: u64, m: OverloadedMethodType) -> [u64; 15]
    ensures { result ≡ 0 ∷ 0 ∷ at ∷ left ∷ padded ∷ member_row (member_values (Member.OverloadedMethod m)) }
{
    [
        0,
        0,
        at,
        left,
        padded,
        0x150f,
        m.count as u64,
        m.method_list.0 as u64,
        0,
        0,
        0,
        0,
        0,
        m.name.place as u64,
        m.name.length as u64,
    ]
}

fn nested_row(at: u64, left: u64, padded: u64, m: NestedType) -> [u64; 15]
    ensures { result ≡ 0 ∷ 0 ∷ at ∷ left ∷ padded ∷ member_row (member_values (Member.Nested m)) }
{
    [
        0,
        0,
        at,
        left,
        padded,
        0x1510,
        m.attributes.0 as u64,
        m.nested_type.0 as u64,
        0,
        0,
        0,
        0,
        0,
        m.name.place as u64,
        m.name.length as u64,
    ]
}

fn method_row(at: u64, left: u64, padded: u64, m: MethodType) -> [u64; 15]
    ensures { result ≡ 0 ∷ 0 ∷ at ∷ left ∷ padded ∷ member_row (member_values (Member.Method m)) }
{
    [
        0,
        0,
        at,
        left,
        padded,
        0x1511,
        m.attributes.0 as u64,
        m.method_type.0 as u64,
        0,
        offset_or_0(m.vtable_offset),
        is_there(m.vtable_offset),
        0,
        0,
        m.name.place as u64,
        m.name.length as u64,
    ]
}

// The row of a member of 0x1203.
pub fn member_row(at: u64, left: u64, padded: u64, m: Member) -> [u64; 15]
    ensures { result ≡ 0 ∷ 0 ∷ at ∷ left ∷ padded ∷ member_row (member_values m) }
{
    match m {
        Member::BaseClass(x) => base_class_row(at, left, padded, x),
        Member::VirtualBaseClass(x) => virtual_base_row(at, left, padded, x),
        Member::Continuation(x) => continuation_row(at, left, padded, x),
        Member::VirtualFunctionTablePointer(x) => table_pointer_row(at, left, padded, x),
        Member::Enumerate(x) => enumerate_row(at, left, padded, x),
        Member::Member(x) => data_member_row(at, left, padded, x),
        Member::StaticMember(x) => static_member_row(at, left, padded, x),
        Member::OverloadedMethod(x) => overloads_row(at, left, padded, x),
        Member::Nested(x) => nested_row(at, left, padded, x),
        Member::Method(x) => method_row(at, left, padded, x),
    }
}

// The row of a method of 0x1206.
pub fn entry_row(at: u64, left: u64, padded: u64, m: MethodListEntry) -> [u64; 15]
    ensures { result ≡ 0 ∷ 0 ∷ at ∷ left ∷ padded ∷ method_row (entry_values m) }
{
    [
        0,
        0,
        at,
        left,
        padded,
        0,
        m.attributes.0 as u64,
        m.method_type.0 as u64,
        0,
        offset_or_0(m.vtable_offset),
        is_there(m.vtable_offset),
        0,
        0,
        0,
        0,
    ]
}

// The row of an index of a counted list.
pub fn index_row(at: u64, left: u64, padded: u64, i: u32) -> [u64; 15]
    ensures { result ≡ 0 ∷ 0 ∷ at ∷ left ∷ padded ∷ index_row (number i ∷ []) }
{
    [0, 0, at, left, padded, 0, 0, i as u64, 0, 0, 0, 0, 0, 0, 0]
}
