// Indices into the TPI stream, indices into the IPI stream and string references: three kinds of number, so that the build refuses one
// given for another; and the tag that says in which of the two streams an item counts. An optional index is none at the numbers that document 01 names.
ghost use Rattle.std.specs.Prelude.{◌≡◌, leb, ℕ, List, refl, option_map};
ghost use Rattle.field.specs.Indices.{said_type, said_id, said_string_ref, optional_of, no_type, no_id, optional_at, type_option, id_option, index_in, stream_in, index_number};
ghost use Rattle.field.specs.Fields.{fixed_at};
ghost use Rattle.answer.specs.Refusals.{said_read};

use crate::fixed;
use answer::Refusal;

// A type: a primitive below 0x1000, and from there up a record of the TPI stream.
#[derive(Clone, Copy)]
pub struct TypeIndex(pub u32);

// A record of the IPI stream.
#[derive(Clone, Copy)]
pub struct IdIndex(pub u32);

// A string of the database's string table.
#[derive(Clone, Copy)]
pub struct StringRef(pub u32);

// The two streams of items: types (TPI) and ids (IPI).
#[derive(Clone, Copy)]
pub enum Stream {
    Types,
    Ids,
}

// An index that says by its type in which stream it counts: an item names its stream by it, and no caller gives or gets a bare number.
// Types and ids share every function over items, so the stream is this tag and not two kinds of item.
#[derive(Clone, Copy)]
pub enum ItemIndex {
    Types(TypeIndex),
    Ids(IdIndex),
}

// A number that counts in a stream or in the string table, by a type of its own.
pub trait Index: Copy {
    // The number of an index.
    ghost counts: { Self → ℕ };

    // The index of a number.
    ghost counted: { ℕ → Self };

    fn from_number(n: u32) -> Self
        ensures { result ≡ counted n };

    // An index is its number, and nothing else.
    ghost same: { (n : ℕ) → counts (counted n) ≡ n };

    ghost told: { (i : Self) → counted (counts i) ≡ i };
}

// An index that is none at some numbers.
pub trait OptionalIndex: Index {
    ghost nones: { List ℕ };

    fn or_none(self) -> Option<Self>
        ensures { option_map Self.counts result ≡ optional_of nones (Self.counts self) };
}

impl Index for TypeIndex {
    ghost counts = { λ i. i.0 };

    ghost counted = { λ n. record { 0 = n } };

    ghost same = { λ n. refl };

    ghost told = { λ i. refl };

    fn from_number(n: u32) -> TypeIndex {
        TypeIndex(n)
    }
}

impl Index for IdIndex {
    ghost counts = { λ i. i.0 };

    ghost counted = { λ n. record { 0 = n } };

    ghost same = { λ n. refl };

    ghost told = { λ i. refl };

    fn from_number(n: u32) -> IdIndex {
        IdIndex(n)
    }
}

impl Index for StringRef {
    ghost counts = { λ r. r.0 };

    ghost counted = { λ n. record { 0 = n } };

    ghost same = { λ n. refl };

    ghost told = { λ i. refl };

    fn from_number(n: u32) -> StringRef {
        StringRef(n)
    }
}

impl OptionalIndex for TypeIndex {
    ghost nones = { no_type };

    fn or_none(self) -> Option<TypeIndex> {
        self.optional()
    }
}

impl OptionalIndex for IdIndex {
    ghost nones = { no_id };

    fn or_none(self) -> Option<IdIndex> {
        self.optional()
    }
}

impl Stream {
    // The index n of this stream.
    pub fn index(self, n: u32) -> ItemIndex
        ensures { result ≡ index_in self n }
    {
        match self {
            Stream::Types => ItemIndex::Types(TypeIndex(n)),
            Stream::Ids => ItemIndex::Ids(IdIndex(n)),
        }
    }
}

impl ItemIndex {
    // The stream that the index counts in.
    pub fn stream(self) -> Stream
        ensures { result ≡ stream_in self }
    {
        match self {
            ItemIndex::Types(_) => Stream::Types,
            ItemIndex::Ids(_) => Stream::Ids,
        }
    }

    // The index as 01's table reports it.
    pub fn number(self) -> u32
        ensures { result ≡ index_number self }
    {
        match self {
            ItemIndex::Types(i) => i.0,
            ItemIndex::Ids(i) => i.0,
        }
    }
}

impl TypeIndex {
    // Whether the index refers to another module: its highest bit is set.
    pub fn is_cross_module(self) -> bool
        ensures { result ≡ leb 0x80000000 self.0 }
    {
        0x8000_0000 <= self.0
    }

    // None at 0 and 0xffff.
    pub fn optional(self) -> Option<TypeIndex>
        ensures { type_option result ≡ optional_of no_type self.0 }
    {
        let n = self.0;
        if n == 0 {
            return None;
        }
        if n == 0xffff {
            return None;
        }
        Some(self)
    }
}

impl IdIndex {
    // Whether the index refers to another module: its highest bit is set.
    pub fn is_cross_module(self) -> bool
        ensures { result ≡ leb 0x80000000 self.0 }
    {
        0x8000_0000 <= self.0
    }

    // None at 0 only.
    pub fn optional(self) -> Option<IdIndex>
        ensures { id_option result ≡ optional_of no_id self.0 }
    {
        let n = self.0;
        if n == 0 {
            return None;
        }
        Some(self)
    }
}

// The type index at place p.
pub fn type_at(s: &[u8], p: usize) -> Result<(TypeIndex, usize), Refusal>
    ensures { said_type result ≡ fixed_at 4 s.now p }
{
    let (n, q) = fixed::u32_at(s, p)?;
    Ok((TypeIndex(n), q))
}

// The id index at place p.
pub fn id_at(s: &[u8], p: usize) -> Result<(IdIndex, usize), Refusal>
    ensures { said_id result ≡ fixed_at 4 s.now p }
{
    let (n, q) = fixed::u32_at(s, p)?;
    Ok((IdIndex(n), q))
}

// The string reference at place p.
pub fn string_ref_at(s: &[u8], p: usize) -> Result<(StringRef, usize), Refusal>
    ensures { said_string_ref result ≡ fixed_at 4 s.now p }
{
    let (n, q) = fixed::u32_at(s, p)?;
    Ok((StringRef(n), q))
}

// The optional type index at place p.
pub fn optional_type_at(s: &[u8], p: usize) -> Result<(Option<TypeIndex>, usize), Refusal>
    ensures { said_read type_option result ≡ optional_at no_type s.now p }
{
    let (n, q) = fixed::u32_at(s, p)?;
    Ok((TypeIndex(n).optional(), q))
}

// The optional id index at place p.
pub fn optional_id_at(s: &[u8], p: usize) -> Result<(Option<IdIndex>, usize), Refusal>
    ensures { said_read id_option result ≡ optional_at no_id s.now p }
{
    let (n, q) = fixed::u32_at(s, p)?;
    Ok((IdIndex(n).optional(), q))
}
