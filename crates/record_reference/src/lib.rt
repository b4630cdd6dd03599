// The type references of a record and of a list element, from what the readers gave: document 02, R-9 and R-13. No byte is read twice, and
// which field refers is said by the table in record_layout/specs/Layouts.antt alone; specs/References.antt has the references of a whole payload.
// tools/leaves writes the arms of plain records.
#![tactic(auto, unfolding(answer::specs::Tables::find, record_layout::specs::Layouts::member_leaves, record_layout::specs::Layouts::type_leaves, crate::specs::References::refs_field, crate::specs::Values::element_refs, crate::specs::Values::refs_by, crate::specs::Values::refs_in, crate::specs::Values::slots, crate::specs::Values::slots_by, crate::specs::Values::slots_in))]

ghost use Rattle.std.specs.Prelude.{ℕ, true, ◌∷◌, [], ◌≡◌};
ghost use Rattle.field.specs.Indices.{type_option};
ghost use Rattle.record_data.specs.Said.{type_values};
ghost use Rattle.record_layout.specs.Fields.{or_absent};
ghost use Rattle.record_layout.specs.Layouts.{type_leaves, member_leaves};
ghost use Rattle.record_list.specs.Said.{element_values};
ghost use Rattle.record_member.specs.Said.{member_values};
ghost use Rattle.record_reference.specs.References.{of_value};
ghost use Rattle.record_reference.specs.Values.{refs_by, slots_by, slots, element_refs};
ghost use Rattle.record_reference.specs.Said.{said_reference, said_references, said_of_element};

use field::index::TypeIndex;
use record_data::TypeData;
use record_list::Element;
use record_member::Member;

// What a field may refer to: the place of the index in the payload, and the index.
#[derive(Clone, Copy)]
pub enum Reference {
    None,
    Type(usize, u32),
    Optional(usize, u32),
}

// Those of a record's fields that may refer, in the order of its layout; no record has more than four.
#[derive(Clone, Copy)]
pub struct References {
    pub first: Reference,
    pub second: Reference,
    pub third: Reference,
    pub fourth: Reference,
}

// Those of an element, none of them optional: how far behind the element's first field the first stands, and the indices, the second right
// behind the first. The first field of a member is the one behind its leaf.
#[derive(Clone, Copy)]
pub enum ElementReferences {
    None,
    One(usize, u32),
    Two(usize, u32, u32),
}

fn optional(place: usize, i: Option<TypeIndex>) -> Reference
    ensures { said_reference result ≡ of_value true place (or_absent (type_option i)) }
{
    match i {
        None => Reference::None,
        Some(t) => Reference::Optional(place, t.0),
    }
}

fn alone(first: Reference) -> References
    ensures { said_references result ≡ said_reference first ∷ [] ∷ [] ∷ [] ∷ [] }
{
    References {
        first,
        second: Reference::None,
        third: Reference::None,
        fourth: Reference::None,
    }
}

// The references of a record's own fields; those of its elements are not among them.
pub fn record_references(d: TypeData) -> References
    ensures { said_references result ≡ slots 4 (slots_by type_leaves (type_values d) 2) }
{
    match d {
        TypeData::Class(r) => References {
            first: optional(6, r.fields),
            second: optional(10, r.derived_from),
            third: optional(14, r.vtable_shape),
            fourth: Reference::None,
        },
        TypeData::MemberFunction(r) => References {
            first: Reference::Type(2, r.return_type.0),
            second: Reference::Type(6, r.class_type.0),
            third: optional(10, r.this_pointer_type),
            fourth: Reference::Type(18, r.argument_list.0),
        },
        TypeData::Procedure(r) => References {
            first: optional(2, r.return_type),
            second: Reference::Type(10, r.argument_list.0),
            third: Reference::None,
            fourth: Reference::None,
        },
        TypeData::Pointer(r) => References {
            first: Reference::Type(2, r.underlying_type.0),
            second: optional(10, r.containing_class),
            third: Reference::None,
            fourth: Reference::None,
        },
        TypeData::Modifier(r) => alone(Reference::Type(2, r.underlying_type.0)),
        TypeData::Enumeration(r) => References {
            first: Reference::Type(6, r.underlying_type.0),
            second: Reference::Type(10, r.fields.0),
            third: Reference::None,
            fourth: Reference::None,
        },
        TypeData::Array(r) => References {
            first: Reference::Type(2, r.element_type.0),
            second: Reference::Type(6, r.indexing_type.0),
            third: Reference::None,
            fourth: Reference::None,
        },
        TypeData::Union(r) => alone(Reference::Type(6, r.fields.0)),
        TypeData::Bitfield(r) => alone(Reference::Type(2, r.underlying_type.0)),
        TypeData::VirtualTableShape(_) => alone(Reference::None),
        TypeData::FieldList => alone(Reference::None),
        TypeData::ArgumentList(_) => alone(Reference::None),
        TypeData::MethodList => alone(Reference::None),
    }
}

fn member_references(m: Member) -> ElementReferences
    ensures { (p : ℕ) → said_of_element result p ≡ refs_by member_leaves (member_values m) p }
{
    match m {
        Member::BaseClass(r) => ElementReferences::One(2, r.base_class.0),
        Member::VirtualBaseClass(r) => ElementReferences::Two(2, r.base_class.0, r.base_pointer.0),
        Member::Continuation(t) => ElementReferences::One(2, t.0),
        Member::VirtualFunctionTablePointer(r) => ElementReferences::One(2, r.table.0),
        Member::Enumerate(_) => ElementReferences::None,
        Member::Member(r) => ElementReferences::One(2, r.field_type.0),
        Member::StaticMember(r) => ElementReferences::One(2, r.field_type.0),
        Member::OverloadedMethod(r) => ElementReferences::One(2, r.method_list.0),
        Member::Nested(r) => ElementReferences::One(2, r.nested_type.0),
        Member::Method(r) => ElementReferences::One(2, r.method_type.0),
    }
}

// The references of one element of any list; an id names no type.
pub fn element_references(e: Element) -> ElementReferences
    ensures { (p : ℕ) → said_of_element result p ≡ element_refs (element_values e) p }
{
    match e {
        Element::Type(t) => ElementReferences::One(0, t.0),
        Element::Id(_) => ElementReferences::None,
        Element::Method(m) => ElementReferences::One(4, m.method_type.0),
        Element::Member(m) => member_references(m),
    }
}
