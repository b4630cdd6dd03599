// A member of a field list, and a method of a method list, as a row of numbers, as `write_field_list` and `write_method_list` take them: the language has no slice of
// structs, and a list is written in one call. What a row stands for is in specs/Rows.antt.
ghost use Rattle.std.specs.Prelude.{◌≡◌};
ghost use Rattle.write_list.specs.Rows.{row_of_member, row_of_method};

use field::index::TypeIndex;
use field_number::Number;
use record_member::{
    BaseClassType, EnumerateType, Member, MemberType, MethodListEntry, MethodType, NestedType,
    OverloadedMethodType, StaticMemberType, VirtualBaseClassType, VirtualFunctionTablePointerType,
};

fn base_class_row(m: BaseClassType) -> [u64; 8]
    ensures { result ≡ row_of_member (Member.BaseClass m) }
{
    [
        0x1400,
        m.attributes.0 as u64,
        m.base_class.0 as u64,
        m.offset.value,
        0,
        0,
        0,
        0,
    ]
}

fn table_pointer_row(m: VirtualFunctionTablePointerType) -> [u64; 8]
    ensures { result ≡ row_of_member (Member.VirtualFunctionTablePointer m) }
{
    [0x1409, m.table.0 as u64, 0, 0, 0, 0, 0, 0]
}

fn data_member_row(m: MemberType) -> [u64; 8]
    ensures { result ≡ row_of_member (Member.Member m) }
{
    [
        0x150d,
        m.attributes.0 as u64,
        m.field_type.0 as u64,
        m.offset.value,
        m.name.place as u64,
        m.name.length as u64,
        0,
        0,
    ]
}

fn static_member_row(m: StaticMemberType) -> [u64; 8]
    ensures { result ≡ row_of_member (Member.StaticMember m) }
{
    [
        0x150e,
        m.attributes.0 as u64,
        m.field_type.0 as u64,
        m.name.place as u64,
        m.name.length as u64,
        0,
        0,
        0,
    ]
}

fn overloads_row(m: OverloadedMethodType) -> [u64; 8]
    ensures { result ≡ row_of_member (Member.OverloadedMethod m) }
{
    [
        0x150f,
        m.count as u64,
        m.method_list.0 as u64,
        m.name.place as u64,
        m.name.length as u64,
        0,
        0,
        0,
    ]
}

fn nested_row(m: NestedType) -> [u64; 8]
    ensures { result ≡ row_of_member (Member.Nested m) }
{
    [
        0x1510,
        m.attributes.0 as u64,
        m.nested_type.0 as u64,
        m.name.place as u64,
        m.name.length as u64,
        0,
        0,
        0,
    ]
}

fn continuation_row(t: TypeIndex) -> [u64; 8]
    ensures { result ≡ row_of_member (Member.Continuation t) }
{
    [0x1404, t.0 as u64, 0, 0, 0, 0, 0, 0]
}

fn virtual_base_row(m: VirtualBaseClassType) -> [u64; 8]
    ensures { result ≡ row_of_member (Member.VirtualBaseClass m) }
{
    [
        if m.direct { 0x1401 } else { 0x1402 },
        m.attributes.0 as u64,
        m.base_class.0 as u64,
        m.base_pointer.0 as u64,
        m.base_pointer_offset.value,
        m.virtual_base_offset.value,
        0,
        0,
    ]
}

fn enumerate_row(m: EnumerateType) -> [u64; 8]
    ensures { result ≡ row_of_member (Member.Enumerate m) }
{
    match m.value.value {
        Number::Natural(n) => [
            0x1502,
            m.attributes.0 as u64,
            0,
            n,
            m.name.place as u64,
            m.name.length as u64,
            0,
            0,
        ],
        Number::Negative(n) => [
            0x1502,
            m.attributes.0 as u64,
            1,
            n,
            m.name.place as u64,
            m.name.length as u64,
            0,
            0,
        ],
    }
}

fn method_row(m: MethodType) -> [u64; 8]
    ensures { result ≡ row_of_member (Member.Method m) }
{
    match m.vtable_offset {
        None => [
            0x1511,
            m.attributes.0 as u64,
            m.method_type.0 as u64,
            0,
            0,
            m.name.place as u64,
            m.name.length as u64,
            0,
        ],
        Some(x) => [
            0x1511,
            m.attributes.0 as u64,
            m.method_type.0 as u64,
            1,
            x as u64,
            m.name.place as u64,
            m.name.length as u64,
            0,
        ],
    }
}

// The row of a member of a field list.
pub fn of_member(m: Member) -> [u64; 8]
    ensures { result ≡ row_of_member m }
{
    match m {
        Member::BaseClass(x) => base_class_row(x),
        Member::VirtualBaseClass(x) => virtual_base_row(x),
        Member::Continuation(x) => continuation_row(x),
        Member::VirtualFunctionTablePointer(x) => table_pointer_row(x),
        Member::Enumerate(x) => enumerate_row(x),
        Member::Member(x) => data_member_row(x),
        Member::StaticMember(x) => static_member_row(x),
        Member::OverloadedMethod(x) => overloads_row(x),
        Member::Nested(x) => nested_row(x),
        Member::Method(x) => method_row(x),
    }
}

// The row of a method of a method list.
pub fn of_method(m: MethodListEntry) -> [u64; 8]
    ensures { result ≡ row_of_method m }
{
    match m.vtable_offset {
        None => [
            m.attributes.0 as u64,
            m.method_type.0 as u64,
            0,
            0,
            0,
            0,
            0,
            0,
        ],
        Some(x) => [
            m.attributes.0 as u64,
            m.method_type.0 as u64,
            1,
            x as u64,
            0,
            0,
            0,
            0,
        ],
    }
}
