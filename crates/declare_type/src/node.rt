// What a type index names, as far as its C declaration goes (R-5 of document 02): a primitive, or a record that is looked up and read;
// its size, where an array asks for it; and the argument list of a procedure. An index below 0x1000 is never looked up.
ghost use Rattle.std.specs.Prelude.{◌≡◌, ◌+◌, ◌≤◌, ◌<◌, length};
ghost use Rattle.answer.specs.Answer.{pick};
ghost use Rattle.answer.specs.Tables.{among};
ghost use Rattle.field.specs.Fields.{fixed_at};
ghost use Rattle.field.specs.Indices.{type_option};
ghost use Rattle.field_text.specs.Texts.{part};
ghost use Rattle.word_primitive.specs.Primitive.{primitive_of};
ghost use Rattle.stream_finder.specs.Finder.{state};
ghost use Rattle.record_layout.specs.Fields.{many, or_absent};
ghost use Rattle.record_layout.specs.Values.{number_in};
ghost use Rattle.record_data.specs.Said.{type_values};
ghost use Rattle.declare_type.specs.Looked.{declared_leaves, list_leaves, as_primitive, by_leaf, bytes_seen, held, said_looked, record_seen, type_seen};
ghost use Rattle.declare_type.specs.Nodes.{as_type_index, leaf_in, sized_in, sized_from, size_through, extent_of, name_in, pointer_quals, modifier_quals, node_in, node_of, list_by, list_of, index_at};
ghost use Rattle.declare_type.specs.Inside.{HeldAt, HeldInside, ListInside};

use answer::Refusal;
use declare_spelling::Quals;
use field::index::TypeIndex;
use field::{fixed, index};
use field_text::RawString;
use record_data::TypeData;
use record_layout::{
    LF_ARGLIST, LF_ARRAY, LF_CLASS, LF_ENUM, LF_INTERFACE, LF_MODIFIER, LF_POINTER, LF_PROCEDURE,
    LF_STRUCTURE, LF_STRUCTURE19, LF_UNION,
};
use stream_finder::ItemFinder;
use stream_item::Entry;
use word_attributes::{ModifierFlags, PointerAttributes};
use word_primitive::{Indirection, PrimitiveKind, PrimitiveType};

// From here up an index names a record.
const FIRST_RECORD: u32 = 0x1000;

// How many modifiers and enumerations a size is looked for through.
const THROUGH: u32 = 32;

// What a type is, as far as its declaration goes.
#[derive(Clone, Copy)]
pub enum Node {
    Primitive(PrimitiveKind, Indirection),
    // A tag name: place and length in the stream.
    Named(usize, usize),
    // To what, its mode from 0 to 4, and its qualifiers.
    Pointer(TypeIndex, u8, Quals),
    Modifier(TypeIndex, Quals),
    Array(TypeIndex, Option<u64>),
    // What it returns, and its argument list.
    Procedure(TypeIndex, TypeIndex),
    Refused(Refusal),
}

// A size, 0 where none is known; or the type whose size it is.
#[derive(Clone, Copy)]
enum Sized {
    Known(u64),
    Through(TypeIndex),
}

// A type index looked up and read: a primitive; a record by place and length; or why there is none.
#[derive(Clone, Copy)]
enum Looked {
    Numbered(PrimitiveType),
    Held(usize, usize, TypeData),
    Nothing(Refusal),
}

fn numbered(i: TypeIndex) -> Looked
    ensures { said_looked result ≡ as_primitive (primitive_of i.0) }
{
    match word_primitive::primitive(i) {
        Ok(p) => {
            return Looked::Numbered(p);
        }
        Err(e) => {
            return Looked::Nothing(e);
        }
    }
}

// Is it one of the leaves asked for?
fn is_taken(list: bool, leaf: u16) -> bool
    ensures { result ≡ among leaf (pick list list_leaves declared_leaves) }
{
    if list {
        return leaf == LF_ARGLIST;
    }
    if leaf == LF_MODIFIER {
        return true;
    }
    if leaf == LF_POINTER {
        return true;
    }
    if leaf == LF_PROCEDURE {
        return true;
    }
    if leaf == LF_ARRAY {
        return true;
    }
    if leaf == LF_CLASS {
        return true;
    }
    if leaf == LF_STRUCTURE {
        return true;
    }
    if leaf == LF_INTERFACE {
        return true;
    }
    if leaf == LF_UNION {
        return true;
    }
    if leaf == LF_ENUM {
        return true;
    }
    if leaf == LF_STRUCTURE19 {
        return true;
    }
    false
}

// The record of these bytes, which stand at place p.
fn record_in(list: bool, p: usize, b: &[u8]) -> Looked
    ensures { (said_looked result ≡ by_leaf (pick list list_leaves declared_leaves) p (length b.now) b.now (fixed_at 2 b.now 0)) × HeldAt p (length b.now) result }
{
    let Ok((leaf, _)) = fixed::u16_at(b, 0) else {
        return Looked::Nothing(Refusal::Ended);
    };
    if is_taken(list, leaf) {
        match record_data::type_data(b) {
            Ok(d) => {
                return Looked::Held(p, b.len(), d);
            }
            Err(e) => {
                return Looked::Nothing(e);
            }
        }
    }
    Looked::Nothing(Refusal::LeafNotPrinted)
}

// The record of n bytes at place p.
fn record_at(list: bool, s: &[u8], p: usize, n: usize) -> Looked
    ensures { (said_looked result ≡ bytes_seen (pick list list_leaves declared_leaves) s.now p n) × HeldInside s.now result }
{
    if p > s.len() {
        return Looked::Nothing(Refusal::Ended);
    }
    if n > s.len() - p {
        return Looked::Nothing(Refusal::Ended);
    }
    let end = p + n;
    record_in(list, p, &s[p..end])
}

// The record of index i: an argument list if told, else a type that has a declaration.
fn record_of(list: bool, s: &[u8], f: ItemFinder, t: &[u32], i: TypeIndex) -> Looked
    ensures { (said_looked result ≡ record_seen (pick list list_leaves declared_leaves) s.now (state f t.now) i.0) × HeldInside s.now result }
{
    match stream_finder::find_type(s, f, t, i) {
        Err(e) => {
            return Looked::Nothing(e);
        }
        Ok((entry, _)) => match entry {
            Entry::Record(item) => {
                let place = item.place;
                let length = item.length;
                return record_at(list, s, place, length);
            }
            Entry::Marker(_) => {
                return Looked::Nothing(Refusal::LeafNotPrinted);
            }
        },
    }
}

// Type i: a primitive, or a record that has a declaration.
fn look(s: &[u8], f: ItemFinder, t: &[u32], i: TypeIndex) -> Looked
    ensures { (said_looked result ≡ type_seen s.now (state f t.now) i.0) × HeldInside s.now result }
{
    let n = i.0;
    if n < FIRST_RECORD {
        return numbered(i);
    }
    record_of(false, s, f, t, i)
}

// The size that a record says.
fn sized_record(d: TypeData) -> Sized
    ensures { result ≡ sized_in (leaf_in (type_values d)) (type_values d) }
{
    match d {
        TypeData::Class(r) => {
            let z = r.size;
            return Sized::Known(z.value);
        }
        TypeData::Union(r) => {
            let z = r.size;
            return Sized::Known(z.value);
        }
        TypeData::Array(r) => {
            let z = r.size;
            return Sized::Known(z.value);
        }
        TypeData::Modifier(r) => {
            let i = r.underlying_type;
            return Sized::Through(i);
        }
        TypeData::Enumeration(r) => {
            let i = r.underlying_type;
            return Sized::Through(i);
        }
        TypeData::Pointer(r) => {
            let w = r.attributes;
            match w.size() {
                Ok(n) => {
                    return Sized::Known(n as u64);
                }
                Err(_) => {
                    return Sized::Known(0);
                }
            }
        }
        _ => {
            return Sized::Known(0);
        }
    }
}

fn size_in(l: Looked) -> Sized
    ensures { result ≡ sized_from (said_looked l) }
{
    match l {
        Looked::Numbered(p) => {
            let k = p.kind;
            let by = p.indirection;
            return Sized::Known(declare_spelling::kind::size(k, by));
        }
        Looked::Held(_, _, d) => {
            return sized_record(d);
        }
        Looked::Nothing(_) => {
            return Sized::Known(0);
        }
    }
}

// The size of type i, through at most k modifiers and enumerations; 0 where none is known.
fn size_of(s: &[u8], f: ItemFinder, t: &[u32], i: TypeIndex, k: u32) -> u64
    ensures { result ≡ size_through s.now (state f t.now) k i.0 }
{
    match size_in(look(s, f, t, i)) {
        Sized::Known(n) => {
            return n;
        }
        Sized::Through(j) => {
            if k == 0 {
                return 0;
            }
            return size_of(s, f, t, j, k - 1);
        }
    }
}

fn extent_of(all: u64, one: u64) -> Option<u64>
    ensures { result ≡ extent_of all one }
{
    if one == 0 {
        return None;
    }
    if all % one == 0 {
        return Some(all / one);
    }
    None
}

// The name of a record at p of n bytes.
fn name_at(p: usize, n: usize, x: RawString) -> Node
    requires { p + n < 9223372036854775808 }
    ensures { result ≡ name_in p n (many (part x)) }
{
    let place = x.place;
    let length = x.length;
    if place > n {
        return Node::Refused(Refusal::Ended);
    }
    if length > n - place {
        return Node::Refused(Refusal::Ended);
    }
    let at = p + place;
    Node::Named(at, length)
}

fn pointer_quals(w: PointerAttributes) -> Quals
    ensures { result ≡ pointer_quals w.0 }
{
    Quals {
        constant: w.is_const(),
        volatile: w.is_volatile(),
        unaligned: w.is_unaligned(),
        restrict: w.is_restrict(),
    }
}

fn modifier_quals(w: ModifierFlags) -> Quals
    ensures { result ≡ modifier_quals w.0 }
{
    Quals {
        constant: w.constant(),
        volatile: w.volatile(),
        unaligned: w.unaligned(),
        restrict: false,
    }
}

// An absent return is primitive 0.
fn or_none(o: Option<TypeIndex>) -> TypeIndex
    ensures { result ≡ as_type_index (number_in (or_absent (type_option o))) }
{
    match o {
        None => {
            return TypeIndex(0);
        }
        Some(i) => {
            return i;
        }
    }
}

// What the record d is, which stands at p and has n bytes.
fn node_in(s: &[u8], f: ItemFinder, t: &[u32], p: usize, n: usize, d: TypeData) -> Node
    requires { p + n ≤ length s.now }
    ensures { result ≡ node_in s.now (state f t.now) p n (leaf_in (type_values d)) (type_values d) }
{
    match d {
        TypeData::Modifier(r) => {
            let i = r.underlying_type;
            let g = r.flags;
            return Node::Modifier(i, modifier_quals(g));
        }
        TypeData::Pointer(r) => {
            let i = r.underlying_type;
            let a = r.attributes;
            let w = a.0;
            let mode = (w / 32 % 8) as u8;
            return Node::Pointer(i, mode, pointer_quals(a));
        }
        TypeData::Procedure(r) => {
            let o = r.return_type;
            let g = r.argument_list;
            return Node::Procedure(or_none(o), g);
        }
        TypeData::Array(r) => {
            let i = r.element_type;
            let z = r.size;
            let one = size_of(s, f, t, i, THROUGH);
            return Node::Array(i, extent_of(z.value, one));
        }
        TypeData::Class(r) => {
            let x = r.name;
            return name_at(p, n, x);
        }
        TypeData::Union(r) => {
            let x = r.name;
            return name_at(p, n, x);
        }
        TypeData::Enumeration(r) => {
            let x = r.name;
            return name_at(p, n, x);
        }
        _ => {
            return Node::Refused(Refusal::LeafNotPrinted);
        }
    }
}

// What type i is.
pub fn node_of(s: &[u8], f: ItemFinder, t: &[u32], i: TypeIndex) -> Node
    ensures { result ≡ node_of s.now (state f t.now) i.0 }
{
    match look(s, f, t, i) {
        Looked::Numbered(p) => {
            let k = p.kind;
            let by = p.indirection;
            return Node::Primitive(k, by);
        }
        Looked::Held(p, n, d) => {
            return node_in(s, f, t, p, n, d);
        }
        Looked::Nothing(w) => {
            return Node::Refused(w);
        }
    }
}

// The argument list that the record d is, which stands at p and has n bytes.
fn list_in(p: usize, n: usize, d: TypeData) -> Result<(usize, u32), Refusal>
    requires { p + n < 9223372036854775808 }
    ensures { result ≡ list_by (held p n (type_values d)) }
{
    let TypeData::ArgumentList(a) = d else {
        return Err(Refusal::LeafNotPrinted);
    };
    let place = a.place;
    let count = a.count;
    if place > n {
        return Err(Refusal::Ended);
    }
    if 4 * (count as usize) > n - place {
        return Err(Refusal::Ended);
    }
    let at = p + place;
    Ok((at, count))
}

// The argument list that index i names.
pub fn list_of(s: &[u8], f: ItemFinder, t: &[u32], i: TypeIndex) -> Result<(usize, u32), Refusal>
    ensures { (result ≡ list_of s.now (state f t.now) i.0) × ListInside s.now result }
{
    let n = i.0;
    if n < FIRST_RECORD {
        return Err(Refusal::LeafNotPrinted);
    }
    match record_of(true, s, f, t, i) {
        Looked::Numbered(_) => {
            return Err(Refusal::LeafNotPrinted);
        }
        Looked::Held(p, n, d) => {
            return list_in(p, n, d);
        }
        Looked::Nothing(w) => {
            return Err(w);
        }
    }
}

// The argument whose index stands at place p.
pub fn index_at(s: &[u8], p: usize) -> TypeIndex
    ensures { result ≡ index_at s.now p }
{
    match index::type_at(s, p) {
        Ok((i, _)) => i,
        Err(_) => TypeIndex(0),
    }
}
