// What an answer adds to the checksum: its numbers, each once. compare/driver/speed_data.rs has the same sums for the crate's answers, so
// what only one of the two gives is left out: the shape of a table of virtual functions, the attributes of a nested type.
use field::index::{IdIndex, TypeIndex};
use field_number::{Number, Variant};
use field_text::RawString;
use record_data::{
    ArrayType, BitfieldType, ClassKind, ClassType, EnumerationType, MemberFunctionType,
    ModifierType, PointerType, ProcedureType, UnionType,
};
use record_id::{
    FunctionId, MemberFunctionId, StringId, UserDefinedTypeSourceFileRef, UserDefinedTypeSourceId,
};
use record_list::Element;
use record_member::{Member, MethodListEntry, MethodType, VirtualBaseClassType};
use stream_header::{Header, Slice};
use stream_item::Item;
use stream_report::Totals;
use word_attributes::FieldAttributes;
use word_primitive::{Indirection, PrimitiveKind, PrimitiveType};

// The sum of two numbers, from the start again past the largest.
pub fn add(a: u64, b: u64) -> u64 {
    a.wrapping_add(b)
}

pub fn wide(x: u32) -> u64 {
    x as u64
}

fn wide16(x: u16) -> u64 {
    x as u64
}

pub fn wide8(x: u8) -> u64 {
    x as u64
}

pub fn place(x: usize) -> u64 {
    x as u64
}

fn name(s: RawString) -> u64 {
    add(place(s.place), place(s.length))
}

fn opt_name(o: Option<RawString>) -> u64 {
    match o {
        None => 0,
        Some(s) => name(s),
    }
}

fn opt_type(o: Option<TypeIndex>) -> u64 {
    match o {
        None => 0,
        Some(i) => wide(i.0),
    }
}

fn opt_id(o: Option<IdIndex>) -> u64 {
    match o {
        None => 0,
        Some(i) => wide(i.0),
    }
}

fn opt_offset(o: Option<u32>) -> u64 {
    match o {
        None => 0,
        Some(x) => wide(x),
    }
}

// -1 - n in two's complement is all ones less n.
fn number(v: Variant) -> u64 {
    let n = v.value;
    match n {
        Number::Natural(x) => x,
        Number::Negative(x) => 18446744073709551615 - x,
    }
}

// 1 for a negative offset.
fn sign(x: i32) -> u64 {
    if x < 0 {
        return 1;
    }
    0
}

fn slice(s: Slice) -> u64 {
    add(sign(s.offset), wide(s.size))
}

pub fn header(h: Header) -> u64 {
    let a = add(wide(h.version), wide(h.header_size));
    let b = add(wide(h.minimum_index), wide(h.maximum_index));
    let c = add(wide(h.gprec_size), wide16(h.tpi_hash_stream));
    let d = add(wide16(h.tpi_hash_pad_stream), wide(h.hash_key_size));
    let values = h.hash_values;
    let offsets = h.ti_off;
    let adjusters = h.hash_adj;
    let e = add(wide(h.hash_bucket_size), slice(values));
    let f = add(slice(offsets), slice(adjusters));
    add(add(add(a, b), add(c, d)), add(e, f))
}

pub fn index(i: Item) -> u64 {
    let named = i.index;
    wide(named.number())
}

// The place behind an item.
pub fn end(i: Item) -> u64 {
    add(place(i.place), place(i.length))
}

pub fn item(i: Item) -> u64 {
    add(index(i), end(i))
}

fn kind(k: ClassKind) -> u64 {
    match k {
        ClassKind::Class => 0,
        ClassKind::Struct => 1,
        ClassKind::Interface => 2,
        ClassKind::Struct19 => 1,
    }
}

pub fn class(c: ClassType) -> u64 {
    let which = c.kind;
    let properties = c.properties;
    let fields = c.fields;
    let derived = c.derived_from;
    let shape = c.vtable_shape;
    let size = c.size;
    let first = c.name;
    let second = c.unique_name;
    let a = add(add(kind(which), wide16(c.count)), wide16(properties.0));
    let b = add(add(opt_type(fields), opt_type(derived)), opt_type(shape));
    add(
        add(a, b),
        add(size.value, add(name(first), opt_name(second))),
    )
}

pub fn member_function(f: MemberFunctionType) -> u64 {
    let returned = f.return_type;
    let owner = f.class_type;
    let this = f.this_pointer_type;
    let attributes = f.attributes;
    let arguments = f.argument_list;
    let a = add(add(wide(returned.0), wide(owner.0)), opt_type(this));
    let b = add(wide16(attributes.0), wide16(f.parameter_count));
    add(add(a, b), add(wide(arguments.0), wide(f.this_adjustment)))
}

pub fn procedure(f: ProcedureType) -> u64 {
    let returned = f.return_type;
    let attributes = f.attributes;
    let arguments = f.argument_list;
    add(
        add(opt_type(returned), wide16(attributes.0)),
        add(wide16(f.parameter_count), wide(arguments.0)),
    )
}

pub fn pointer(p: PointerType) -> u64 {
    let to = p.underlying_type;
    let attributes = p.attributes;
    let class = p.containing_class;
    add(add(wide(to.0), wide(attributes.0)), opt_type(class))
}

pub fn enumeration(e: EnumerationType) -> u64 {
    let properties = e.properties;
    let underlying = e.underlying_type;
    let fields = e.fields;
    let first = e.name;
    let second = e.unique_name;
    let a = add(wide16(e.count), wide16(properties.0));
    let b = add(wide(underlying.0), wide(fields.0));
    add(add(a, b), add(name(first), opt_name(second)))
}

// The crate reads an array's name as further sizes: the length of the name, which compilers leave empty, is all that is added.
pub fn array(a: ArrayType) -> u64 {
    let element = a.element_type;
    let indexing = a.indexing_type;
    let size = a.size;
    let named = a.name;
    add(
        add(wide(element.0), wide(indexing.0)),
        add(size.value, place(named.length)),
    )
}

pub fn union_type(u: UnionType) -> u64 {
    let properties = u.properties;
    let fields = u.fields;
    let size = u.size;
    let first = u.name;
    let second = u.unique_name;
    let a = add(add(wide16(u.count), wide16(properties.0)), wide(fields.0));
    add(add(a, size.value), add(name(first), opt_name(second)))
}

pub fn modifier(m: ModifierType) -> u64 {
    let to = m.underlying_type;
    let flags = m.flags;
    add(wide(to.0), wide16(flags.0 % 8))
}

pub fn bitfield(b: BitfieldType) -> u64 {
    let of = b.underlying_type;
    add(wide(of.0), add(wide8(b.length), wide8(b.position)))
}

pub fn source(u: UserDefinedTypeSourceId) -> u64 {
    let of = u.udt;
    let file = u.source_file;
    let a = add(wide(of.0), wide(u.line));
    match file {
        UserDefinedTypeSourceFileRef::Local(i) => add(a, wide(i.0)),
        UserDefinedTypeSourceFileRef::Remote(module, r) => add(a, add(wide16(module), wide(r.0))),
    }
}

pub fn function(f: FunctionId) -> u64 {
    let scope = f.scope;
    let of = f.function_type;
    let named = f.name;
    add(add(opt_id(scope), wide(of.0)), name(named))
}

pub fn member_function_id(f: MemberFunctionId) -> u64 {
    let parent = f.parent;
    let of = f.function_type;
    let named = f.name;
    add(add(wide(parent.0), wide(of.0)), name(named))
}

pub fn string(s: StringId) -> u64 {
    let parts = s.substrings;
    let named = s.name;
    add(opt_id(parts), name(named))
}

fn virtual_base(b: VirtualBaseClassType) -> u64 {
    let attributes = b.attributes;
    let base = b.base_class;
    let pointer = b.base_pointer;
    let first = b.base_pointer_offset;
    let second = b.virtual_base_offset;
    let a = add(wide16(attributes.0), add(wide(base.0), wide(pointer.0)));
    add(a, add(first.value, second.value))
}

fn attributed(a: FieldAttributes) -> u64 {
    wide16(a.0)
}

fn method(m: MethodType) -> u64 {
    let attributes = m.attributes;
    let of = m.method_type;
    let offset = m.vtable_offset;
    let named = m.name;
    add(
        add(attributed(attributes), wide(of.0)),
        add(opt_offset(offset), name(named)),
    )
}

fn entry(m: MethodListEntry) -> u64 {
    let attributes = m.attributes;
    let of = m.method_type;
    let offset = m.vtable_offset;
    add(add(attributed(attributes), wide(of.0)), opt_offset(offset))
}

fn member(m: Member) -> u64 {
    match m {
        Member::BaseClass(b) => {
            let attributes = b.attributes;
            let base = b.base_class;
            let offset = b.offset;
            add(add(attributed(attributes), wide(base.0)), offset.value)
        }
        Member::VirtualBaseClass(b) => virtual_base(b),
        Member::Continuation(i) => wide(i.0),
        Member::VirtualFunctionTablePointer(p) => {
            let table = p.table;
            wide(table.0)
        }
        Member::Enumerate(e) => {
            let attributes = e.attributes;
            let value = e.value;
            let named = e.name;
            add(add(attributed(attributes), number(value)), name(named))
        }
        Member::Member(d) => {
            let attributes = d.attributes;
            let of = d.field_type;
            let offset = d.offset;
            let named = d.name;
            add(
                add(attributed(attributes), wide(of.0)),
                add(offset.value, name(named)),
            )
        }
        Member::StaticMember(d) => {
            let attributes = d.attributes;
            let of = d.field_type;
            let named = d.name;
            add(add(attributed(attributes), wide(of.0)), name(named))
        }
        Member::OverloadedMethod(o) => {
            let list = o.method_list;
            let named = o.name;
            add(add(wide16(o.count), wide(list.0)), name(named))
        }
        Member::Nested(n) => {
            let of = n.nested_type;
            let named = n.name;
            add(wide(of.0), name(named))
        }
        Member::Method(o) => method(o),
    }
}

pub fn element(e: Element) -> u64 {
    match e {
        Element::Type(t) => wide(t.0),
        Element::Id(i) => wide(i.0),
        Element::Method(m) => entry(m),
        Element::Member(m) => member(m),
    }
}

pub fn totals(t: Totals) -> u64 {
    let l = t.largest;
    let a = add(add(t.taken, t.refused), add(t.headers, t.records));
    let b = add(add(t.bytes, l.length), add(l.stream, wide(l.index)));
    add(a, add(b, t.rows))
}

pub fn primitive(p: PrimitiveType) -> u64 {
    let kind = p.kind;
    let indirection = p.indirection;
    add(kind_number(kind), indirection_number(indirection))
}

// The kinds in the order in which the crate has them.
fn kind_number(k: PrimitiveKind) -> u64 {
    match k {
        PrimitiveKind::NoType => 0,
        PrimitiveKind::Void => 1,
        PrimitiveKind::Char => 2,
        PrimitiveKind::UChar => 3,
        PrimitiveKind::RChar => 4,
        PrimitiveKind::WChar => 5,
        PrimitiveKind::RChar16 => 6,
        PrimitiveKind::RChar32 => 7,
        PrimitiveKind::I8 => 8,
        PrimitiveKind::U8 => 9,
        PrimitiveKind::Short => 10,
        PrimitiveKind::UShort => 11,
        PrimitiveKind::I16 => 12,
        PrimitiveKind::U16 => 13,
        PrimitiveKind::Long => 14,
        PrimitiveKind::ULong => 15,
        PrimitiveKind::I32 => 16,
        PrimitiveKind::U32 => 17,
        PrimitiveKind::Quad => 18,
        PrimitiveKind::UQuad => 19,
        PrimitiveKind::I64 => 20,
        PrimitiveKind::U64 => 21,
        PrimitiveKind::Octa => 22,
        PrimitiveKind::UOcta => 23,
        PrimitiveKind::I128 => 24,
        PrimitiveKind::U128 => 25,
        PrimitiveKind::F16 => 26,
        PrimitiveKind::F32 => 27,
        PrimitiveKind::F32PP => 28,
        PrimitiveKind::F48 => 29,
        PrimitiveKind::F64 => 30,
        PrimitiveKind::F80 => 31,
        PrimitiveKind::F128 => 32,
        PrimitiveKind::Complex32 => 33,
        PrimitiveKind::Complex64 => 34,
        PrimitiveKind::Complex80 => 35,
        PrimitiveKind::Complex128 => 36,
        PrimitiveKind::Bool8 => 37,
        PrimitiveKind::Bool16 => 38,
        PrimitiveKind::Bool32 => 39,
        PrimitiveKind::Bool64 => 40,
        PrimitiveKind::HRESULT => 41,
    }
}

fn indirection_number(i: Indirection) -> u64 {
    match i {
        Indirection::Direct => 0,
        Indirection::Near16 => 1,
        Indirection::Far16 => 2,
        Indirection::Huge16 => 3,
        Indirection::Near32 => 4,
        Indirection::Far32 => 5,
        Indirection::Near64 => 6,
        Indirection::Near128 => 7,
    }
}
