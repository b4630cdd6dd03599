// The attribute words of document 01 (the crate's data.rs): each flag is a named constant of its word with the crate's mask, and a method says
// whether it is set. Three answers follow cvinfo.h where the crate does not (document 02, R-2; docs/DIFFERENCES.md): `intrinsic_type`, `mocom` and a
// pointer's `is_mocom`.
// specs/Bits.antt has what a bit and a field of bits are, specs/Pointers.antt what a pointer word answers.
#![tactic(auto, using(crate::proofs::Used::laws), unfolding(answer::specs::Tables::among, answer::specs::Tables::find, crate::specs::Pointers::kind_of, crate::specs::Pointers::mode_of, crate::specs::Pointers::pointer_kinds, crate::specs::Pointers::pointer_modes, crate::specs::Pointers::reference_of, crate::specs::Pointers::size_of, crate::specs::Pointers::to_member_of, crate::specs::Words::introducing))]

ghost use Rattle.std.specs.Prelude.{◌≡◌, eqb};
ghost use Rattle.word_attributes.specs.Bits.{bit, bits};
ghost use Rattle.word_attributes.specs.Words.{method_property, introducing};
ghost use Rattle.word_attributes.specs.Pointers.{kind_of, mode_of, to_member, is_reference, to_member_of, reference_of, pointer_kind_size, size_of};
ghost use Rattle.answer.specs.Refusals.{itself, said};

use answer::Refusal;

// The properties of a class, structure, interface, union or enumeration.
#[derive(Clone, Copy)]
pub struct TypeProperties(pub u16);

impl TypeProperties {
    pub const PACKED: u16 = 0x0001;

    pub const CONSTRUCTORS: u16 = 0x0002;

    pub const OVERLOADED_OPERATORS: u16 = 0x0004;

    pub const IS_NESTED_TYPE: u16 = 0x0008;

    pub const CONTAINS_NESTED_TYPES: u16 = 0x0010;

    pub const OVERLOADED_ASSIGNMENT: u16 = 0x0020;

    pub const OVERLOADED_CASTING: u16 = 0x0040;

    pub const FORWARD_REFERENCE: u16 = 0x0080;

    pub const SCOPED_DEFINITION: u16 = 0x0100;

    pub const HAS_UNIQUE_NAME: u16 = 0x0200;

    pub const SEALED: u16 = 0x0400;

    // cvinfo.h has bit 13; data.rs has 0x1000, the high bit of `hfa`.
    pub const INTRINSIC_TYPE: u16 = 0x2000;

    // data.rs has mask 0x1800, shift 11.
    pub const HFA_UNIT: u16 = 0x0800;

    pub const HFA_COUNT: u16 = 4;

    // cvinfo.h has bits 14 and 15, mask 0xc000, shift 14; data.rs has mask 0x6000, so that bit 14 alone is left.
    pub const MOCOM_UNIT: u16 = 0x4000;

    pub const MOCOM_COUNT: u16 = 4;

    // Is the type packed, via `#pragma pack` or similar?
    pub fn packed(self) -> bool
        ensures { result ≡ bit 0 self.0 }
    {
        self.0 / Self::PACKED % 2 == 1
    }

    // Has the type constructors or destructors?
    pub fn constructors(self) -> bool
        ensures { result ≡ bit 1 self.0 }
    {
        self.0 / Self::CONSTRUCTORS % 2 == 1
    }

    // Has the type overloaded operators?
    pub fn overloaded_operators(self) -> bool
        ensures { result ≡ bit 2 self.0 }
    {
        self.0 / Self::OVERLOADED_OPERATORS % 2 == 1
    }

    // Is the type nested, e.g. a union defined inside a class?
    pub fn is_nested_type(self) -> bool
        ensures { result ≡ bit 3 self.0 }
    {
        self.0 / Self::IS_NESTED_TYPE % 2 == 1
    }

    // Does the type contain nested types?
    pub fn contains_nested_types(self) -> bool
        ensures { result ≡ bit 4 self.0 }
    {
        self.0 / Self::CONTAINS_NESTED_TYPES % 2 == 1
    }

    // Has the class overloaded the assignment operator?
    pub fn overloaded_assignment(self) -> bool
        ensures { result ≡ bit 5 self.0 }
    {
        self.0 / Self::OVERLOADED_ASSIGNMENT % 2 == 1
    }

    // Has the class casting methods?
    pub fn overloaded_casting(self) -> bool
        ensures { result ≡ bit 6 self.0 }
    {
        self.0 / Self::OVERLOADED_CASTING % 2 == 1
    }

    // Is this a forward reference, a placeholder until the complete type is there?
    pub fn forward_reference(self) -> bool
        ensures { result ≡ bit 7 self.0 }
    {
        self.0 / Self::FORWARD_REFERENCE % 2 == 1
    }

    // Is the definition scoped?
    pub fn scoped_definition(self) -> bool
        ensures { result ≡ bit 8 self.0 }
    {
        self.0 / Self::SCOPED_DEFINITION % 2 == 1
    }

    // Does a decorated name follow the name?
    pub fn has_unique_name(self) -> bool
        ensures { result ≡ bit 9 self.0 }
    {
        self.0 / Self::HAS_UNIQUE_NAME % 2 == 1
    }

    // Is the class barred from being a base class?
    pub fn sealed(self) -> bool
        ensures { result ≡ bit 10 self.0 }
    {
        self.0 / Self::SEALED % 2 == 1
    }

    // Is the class an intrinsic type?
    pub fn intrinsic_type(self) -> bool
        ensures { result ≡ bit 13 self.0 }
    {
        self.0 / Self::INTRINSIC_TYPE % 2 == 1
    }

    // The kind of homogeneous floating-point aggregate.
    pub fn hfa(self) -> u8
        ensures { result ≡ bits 11 12 self.0 }
    {
        (self.0 / Self::HFA_UNIT % Self::HFA_COUNT) as u8
    }

    // The kind of MoCOM type.
    pub fn mocom(self) -> u8
        ensures { result ≡ bits 14 15 self.0 }
    {
        (self.0 / Self::MOCOM_UNIT % Self::MOCOM_COUNT) as u8
    }
}

// The attributes of a field or a method.
#[derive(Clone, Copy)]
pub struct FieldAttributes(pub u16);

impl FieldAttributes {
    // data.rs has mask 0x0003.
    pub const ACCESS_UNIT: u16 = 0x0001;

    pub const ACCESS_COUNT: u16 = 4;

    // data.rs has mask 0x001c, shift 2.
    pub const METHOD_PROPERTIES_UNIT: u16 = 0x0004;

    pub const METHOD_PROPERTIES_COUNT: u16 = 8;

    // The method properties that the methods below ask for.
    pub const VIRTUAL: u8 = 0x01;

    pub const STATIC: u8 = 0x02;

    pub const INTRO_VIRTUAL: u8 = 0x04;

    pub const PURE_VIRTUAL: u8 = 0x05;

    pub const PURE_INTRO_VIRTUAL: u8 = 0x06;

    // The access protection.
    pub fn access(self) -> u8
        ensures { result ≡ bits 0 1 self.0 }
    {
        (self.0 / Self::ACCESS_UNIT % Self::ACCESS_COUNT) as u8
    }

    // The method property.
    pub fn method_properties(self) -> u8
        ensures { result ≡ method_property self.0 }
    {
        (self.0 / Self::METHOD_PROPERTIES_UNIT % Self::METHOD_PROPERTIES_COUNT) as u8
    }

    // Is this the method property?
    fn has_property(self, property: u8) -> bool
        ensures { result ≡ eqb (method_property self.0) property }
    {
        self.method_properties() == property
    }

    // Is the method static?
    pub fn is_static(self) -> bool
        ensures { result ≡ eqb (method_property self.0) 2 }
    {
        self.has_property(Self::STATIC)
    }

    // Is the method virtual, and neither pure nor introducing?
    pub fn is_virtual(self) -> bool
        ensures { result ≡ eqb (method_property self.0) 1 }
    {
        self.has_property(Self::VIRTUAL)
    }

    // Is the method pure virtual, and not introducing?
    pub fn is_pure_virtual(self) -> bool
        ensures { result ≡ eqb (method_property self.0) 5 }
    {
        self.has_property(Self::PURE_VIRTUAL)
    }

    // Is the method introducing virtual, pure or not?
    pub fn is_intro_virtual(self) -> bool
        ensures { result ≡ introducing self.0 }
    {
        let property = self.method_properties();
        if property == Self::INTRO_VIRTUAL {
            return true;
        }
        if property == Self::PURE_INTRO_VIRTUAL {
            return true;
        }
        false
    }
}

// The attributes of a function, with its calling convention.
#[derive(Clone, Copy)]
pub struct FunctionAttributes(pub u16);

impl FunctionAttributes {
    pub const CXX_RETURN_UDT: u16 = 0x0100;

    pub const IS_CONSTRUCTOR: u16 = 0x0200;

    pub const IS_CONSTRUCTOR_WITH_VIRTUAL_BASES: u16 = 0x0400;

    // data.rs has mask 0xff.
    pub const CALLING_CONVENTION_UNIT: u16 = 0x0001;

    pub const CALLING_CONVENTION_COUNT: u16 = 256;

    // The calling convention.
    pub fn calling_convention(self) -> u8
        ensures { result ≡ bits 0 7 self.0 }
    {
        (self.0 / Self::CALLING_CONVENTION_UNIT % Self::CALLING_CONVENTION_COUNT) as u8
    }

    // Is the return value a user-defined type in the manner of C++?
    pub fn cxx_return_udt(self) -> bool
        ensures { result ≡ bit 8 self.0 }
    {
        self.0 / Self::CXX_RETURN_UDT % 2 == 1
    }

    // Is the function a constructor?
    pub fn is_constructor(self) -> bool
        ensures { result ≡ bit 9 self.0 }
    {
        self.0 / Self::IS_CONSTRUCTOR % 2 == 1
    }

    // Is it a constructor of a class with virtual bases?
    pub fn is_constructor_with_virtual_bases(self) -> bool
        ensures { result ≡ bit 10 self.0 }
    {
        self.0 / Self::IS_CONSTRUCTOR_WITH_VIRTUAL_BASES % 2 == 1
    }
}

// The flags of a modifier record.
#[derive(Clone, Copy)]
pub struct ModifierFlags(pub u16);

impl ModifierFlags {
    pub const CONSTANT: u16 = 0x0001;

    pub const VOLATILE: u16 = 0x0002;

    pub const UNALIGNED: u16 = 0x0004;

    // Is the type `const`?
    pub fn constant(self) -> bool
        ensures { result ≡ bit 0 self.0 }
    {
        self.0 / Self::CONSTANT % 2 == 1
    }

    // Is the type `volatile`?
    pub fn volatile(self) -> bool
        ensures { result ≡ bit 1 self.0 }
    {
        self.0 / Self::VOLATILE % 2 == 1
    }

    // Is the type unaligned?
    pub fn unaligned(self) -> bool
        ensures { result ≡ bit 2 self.0 }
    {
        self.0 / Self::UNALIGNED % 2 == 1
    }
}

// The kind of a pointer.
#[derive(Clone, Copy)]
pub enum PointerKind {
    // 16 bit pointer.
    Near16,
    // 16:16 far pointer.
    Far16,
    // 16:16 huge pointer.
    Huge16,
    // Based on segment.
    BaseSeg,
    // Based on value of base.
    BaseVal,
    // Based on segment value of base.
    BaseSegVal,
    // Based on address of base.
    BaseAddr,
    // Based on segment address of base.
    BaseSegAddr,
    // Based on type.
    BaseType,
    // Based on self.
    BaseSelf,
    // 32-bit pointer.
    Near32,
    // 48-bit 16:32 pointer.
    Far32,
    // 64-bit pointer.
    Ptr64,
}

impl PointerKind {
    // The size in bytes of a pointer of this kind whose word gives none.
    fn size(self) -> u8
        ensures { result ≡ pointer_kind_size self }
    {
        match self {
            PointerKind::Near16 => 0,
            PointerKind::Far16 => 0,
            PointerKind::Huge16 => 0,
            PointerKind::BaseSeg => 0,
            PointerKind::BaseVal => 0,
            PointerKind::BaseSegVal => 0,
            PointerKind::BaseAddr => 0,
            PointerKind::BaseSegAddr => 0,
            PointerKind::BaseType => 0,
            PointerKind::BaseSelf => 0,
            PointerKind::Near32 => 4,
            PointerKind::Far32 => 4,
            PointerKind::Ptr64 => 8,
        }
    }
}

// The mode of a pointer.
#[derive(Clone, Copy)]
pub enum PointerMode {
    // A regular pointer.
    Pointer,
    // L-Value reference.
    LValueReference,
    // Pointer to data member.
    Member,
    // Pointer to member function.
    MemberFunction,
    // R-Value reference.
    RValueReference,
}

impl PointerMode {
    // Is this a mode that points to a member?
    fn is_member(self) -> bool
        ensures { result ≡ to_member self }
    {
        match self {
            PointerMode::Pointer => false,
            PointerMode::LValueReference => false,
            PointerMode::Member => true,
            PointerMode::MemberFunction => true,
            PointerMode::RValueReference => false,
        }
    }

    // Is this a mode of a C++ reference?
    fn is_reference(self) -> bool
        ensures { result ≡ is_reference self }
    {
        match self {
            PointerMode::Pointer => false,
            PointerMode::LValueReference => true,
            PointerMode::Member => false,
            PointerMode::MemberFunction => false,
            PointerMode::RValueReference => true,
        }
    }
}

// The word of a pointer record.
#[derive(Clone, Copy)]
pub struct PointerAttributes(pub u32);

impl PointerAttributes {
    pub const IS_FLAT_32: u32 = 0x0100;

    pub const IS_VOLATILE: u32 = 0x0200;

    pub const IS_CONST: u32 = 0x0400;

    pub const IS_UNALIGNED: u32 = 0x0800;

    pub const IS_RESTRICT: u32 = 0x1000;

    // cvinfo.h has bit 19; data.rs has 0x40000, the high bit of the size.
    pub const IS_MOCOM: u32 = 0x80000;

    // data.rs has mask 0x1f.
    pub const KIND_UNIT: u32 = 0x0001;

    pub const KIND_COUNT: u32 = 32;

    // data.rs has shift 5, mask 0x7.
    pub const MODE_UNIT: u32 = 0x0020;

    pub const MODE_COUNT: u32 = 8;

    // data.rs has shift 13, mask 0x3f.
    pub const SIZE_UNIT: u32 = 0x2000;

    pub const SIZE_COUNT: u32 = 64;

    // The kind of the pointer; 12 for 13 to 31.
    pub fn pointer_kind(self) -> Result<PointerKind, Refusal>
        ensures { said itself result ≡ kind_of self.0 }
    {
        let kind = self.0 / Self::KIND_UNIT % Self::KIND_COUNT;
        match kind {
            0x00 => Ok(PointerKind::Near16),
            0x01 => Ok(PointerKind::Far16),
            0x02 => Ok(PointerKind::Huge16),
            0x03 => Ok(PointerKind::BaseSeg),
            0x04 => Ok(PointerKind::BaseVal),
            0x05 => Ok(PointerKind::BaseSegVal),
            0x06 => Ok(PointerKind::BaseAddr),
            0x07 => Ok(PointerKind::BaseSegAddr),
            0x08 => Ok(PointerKind::BaseType),
            0x09 => Ok(PointerKind::BaseSelf),
            0x0a => Ok(PointerKind::Near32),
            0x0b => Ok(PointerKind::Far32),
            0x0c => Ok(PointerKind::Ptr64),
            _ => Err(Refusal::PointerWord),
        }
    }

    // The mode of the pointer; 12 for 5 to 7.
    pub fn pointer_mode(self) -> Result<PointerMode, Refusal>
        ensures { said itself result ≡ mode_of self.0 }
    {
        let mode = self.0 / Self::MODE_UNIT % Self::MODE_COUNT;
        match mode {
            0x00 => Ok(PointerMode::Pointer),
            0x01 => Ok(PointerMode::LValueReference),
            0x02 => Ok(PointerMode::Member),
            0x03 => Ok(PointerMode::MemberFunction),
            0x04 => Ok(PointerMode::RValueReference),
            _ => Err(Refusal::PointerWord),
        }
    }

    // Does it point to a member, data or function? 12 for a bad mode.
    pub fn pointer_to_member(self) -> Result<bool, Refusal>
        ensures { said itself result ≡ to_member_of self.0 }
    {
        let mode = self.pointer_mode()?;
        Ok(mode.is_member())
    }

    // Is this a flat `0:32` pointer?
    pub fn is_flat_32(self) -> bool
        ensures { result ≡ bit 8 self.0 }
    {
        self.0 / Self::IS_FLAT_32 % 2 == 1
    }

    // Is the pointer `volatile`?
    pub fn is_volatile(self) -> bool
        ensures { result ≡ bit 9 self.0 }
    {
        self.0 / Self::IS_VOLATILE % 2 == 1
    }

    // Is the pointer `const`?
    pub fn is_const(self) -> bool
        ensures { result ≡ bit 10 self.0 }
    {
        self.0 / Self::IS_CONST % 2 == 1
    }

    // Is the pointer unaligned?
    pub fn is_unaligned(self) -> bool
        ensures { result ≡ bit 11 self.0 }
    {
        self.0 / Self::IS_UNALIGNED % 2 == 1
    }

    // Is the pointer restricted?
    pub fn is_restrict(self) -> bool
        ensures { result ≡ bit 12 self.0 }
    {
        self.0 / Self::IS_RESTRICT % 2 == 1
    }

    // Is it a C++ reference, and no C pointer? 12 for a bad mode.
    pub fn is_reference(self) -> Result<bool, Refusal>
        ensures { said itself result ≡ reference_of self.0 }
    {
        let mode = self.pointer_mode()?;
        Ok(mode.is_reference())
    }

    // The size of the pointer in bytes. Only a zero in the word asks for the kind, so only then a bad kind is 12.
    pub fn size(self) -> Result<u8, Refusal>
        ensures { said itself result ≡ size_of self.0 }
    {
        let size = self.0 / Self::SIZE_UNIT % Self::SIZE_COUNT;
        if size != 0 {
            return Ok(size as u8);
        }
        let kind = self.pointer_kind()?;
        Ok(kind.size())
    }

    // Is this a MoCOM pointer (`^` or `%`)?
    pub fn is_mocom(self) -> bool
        ensures { result ≡ bit 19 self.0 }
    {
        self.0 / Self::IS_MOCOM % 2 == 1
    }
}
