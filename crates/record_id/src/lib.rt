// The records of the IPI stream: the seven id leaves of document 01, by the names of the crate's id.rs, each read by its line of the table
// in record_layout/specs/Layouts.antt.
#![tactic(auto, unfolding(answer::specs::Tables::find, record_layout::specs::Fields::read_field_by, record_layout::specs::Fields::read_fields_by, record_layout::specs::Layouts::id_leaves, record_layout::specs::Layouts::leaf_of, record_layout::specs::Layouts::read_leaf, record_layout::specs::Layouts::record_of))]

ghost use Rattle.std.specs.Prelude.{◌≡◌};
ghost use Rattle.record_layout.specs.Layouts.{leaf_of, record_of, id_leaves};
ghost use Rattle.answer.specs.Refusals.{said};
ghost use Rattle.record_id.specs.Said.{id_values};

use answer::Refusal;
use field::index::{IdIndex, StringRef, TypeIndex};
use field::reader::Reader;
use field_text::RawString;
use record_layout::{
    LF_BUILDINFO, LF_FUNC_ID, LF_MFUNC_ID, LF_STRING_ID, LF_SUBSTR_LIST, LF_UDT_MOD_SRC_LINE,
    LF_UDT_SRC_LINE,
};

// 0x1601: a global function, usually inlined.
#[derive(Clone, Copy)]
pub struct FunctionId {
    pub scope: Option<IdIndex>,
    pub function_type: TypeIndex,
    pub name: RawString,
}

// 0x1602: a member function, usually inlined.
#[derive(Clone, Copy)]
pub struct MemberFunctionId {
    pub parent: TypeIndex,
    pub function_type: TypeIndex,
    pub name: RawString,
}

// 0x1603: tool, version and command line build information, a list of id indices: where it starts, and how many there are.
#[derive(Clone, Copy)]
pub struct BuildInfoId {
    pub place: usize,
    pub count: u16,
}

// 0x1604: a list of substrings, type indices as the crate has them: where it starts, and how many there are.
#[derive(Clone, Copy)]
pub struct StringListId {
    pub place: usize,
    pub count: u32,
}

// 0x1605: a string, usually the full namespace of a function.
#[derive(Clone, Copy)]
pub struct StringId {
    pub substrings: Option<IdIndex>,
    pub name: RawString,
}

// The source file of a type's definition.
#[derive(Clone, Copy)]
pub enum UserDefinedTypeSourceFileRef {
    // 0x1606: the file's name is a string id of the same stream.
    Local(IdIndex),
    // 0x1607: the module that contributes the definition, and the file's name in its string table.
    Remote(u16, StringRef),
}

// 0x1606 and 0x1607: source and line of the definition of a user defined type.
#[derive(Clone, Copy)]
pub struct UserDefinedTypeSourceId {
    pub udt: TypeIndex,
    pub source_file: UserDefinedTypeSourceFileRef,
    pub line: u32,
}

#[derive(Clone, Copy)]
pub enum IdData {
    Function(FunctionId),
    MemberFunction(MemberFunctionId),
    BuildInfo(BuildInfoId),
    StringList(StringListId),
    String(StringId),
    UserDefinedTypeSource(UserDefinedTypeSourceId),
}

// The fields of each leaf, at the place after it.
// Those without a name are inlined where leaves are told apart: else their answers meet there, and are packed and taken apart again.

fn read_function(r: &mut Reader<'_>) -> Result<IdData, Refusal>
    ensures { said id_values result ≡ leaf_of id_leaves 0x1601 r.old.bytes.now r.old.at }
{
    let scope = r.optional()?;
    let function_type = r.index()?;
    let name = field_text::read_string(r)?;
    Ok(IdData::Function(FunctionId {
        scope,
        function_type,
        name,
    }))
}

fn read_member_function(r: &mut Reader<'_>) -> Result<IdData, Refusal>
    ensures { said id_values result ≡ leaf_of id_leaves 0x1602 r.old.bytes.now r.old.at }
{
    let parent = r.index()?;
    let function_type = r.index()?;
    let name = field_text::read_string(r)?;
    Ok(IdData::MemberFunction(MemberFunctionId {
        parent,
        function_type,
        name,
    }))
}

#[inline(always)]
fn read_build_info(r: &mut Reader<'_>) -> Result<IdData, Refusal>
    ensures { said id_values result ≡ leaf_of id_leaves 0x1603 r.old.bytes.now r.old.at }
{
    let count = r.u16()?;
    let place = r.at;
    r.skip(4 * (count as usize))?;
    Ok(IdData::BuildInfo(BuildInfoId { place, count }))
}

#[inline(always)]
fn read_string_list(r: &mut Reader<'_>) -> Result<IdData, Refusal>
    ensures { said id_values result ≡ leaf_of id_leaves 0x1604 r.old.bytes.now r.old.at }
{
    let count = r.u32()?;
    let place = r.at;
    r.skip(4 * (count as usize))?;
    Ok(IdData::StringList(StringListId { place, count }))
}

fn read_string_id(r: &mut Reader<'_>) -> Result<IdData, Refusal>
    ensures { said id_values result ≡ leaf_of id_leaves 0x1605 r.old.bytes.now r.old.at }
{
    let substrings = r.optional()?;
    let name = field_text::read_string(r)?;
    Ok(IdData::String(StringId { substrings, name }))
}

#[inline(always)]
fn read_local_source(r: &mut Reader<'_>) -> Result<IdData, Refusal>
    ensures { said id_values result ≡ leaf_of id_leaves 0x1606 r.old.bytes.now r.old.at }
{
    let udt = r.index()?;
    let file = r.index()?;
    let line = r.u32()?;
    Ok(IdData::UserDefinedTypeSource(UserDefinedTypeSourceId {
        udt,
        source_file: UserDefinedTypeSourceFileRef::Local(file),
        line,
    }))
}

#[inline(always)]
fn read_remote_source(r: &mut Reader<'_>) -> Result<IdData, Refusal>
    ensures { said id_values result ≡ leaf_of id_leaves 0x1607 r.old.bytes.now r.old.at }
{
    let udt = r.index()?;
    let file = r.index()?;
    let line = r.u32()?;
    let module = r.u16()?;
    Ok(IdData::UserDefinedTypeSource(UserDefinedTypeSourceId {
        udt,
        source_file: UserDefinedTypeSourceFileRef::Remote(module, file),
        line,
    }))
}

// The id record that these bytes are, its leaf first.
pub fn id_data(s: &[u8]) -> Result<IdData, Refusal>
    ensures { said id_values result ≡ record_of id_leaves s.now }
{
    let r = &mut Reader { bytes: s, at: 0 };
    let leaf = r.u16()?;
    match leaf {
        LF_FUNC_ID => read_function(r),
        LF_MFUNC_ID => read_member_function(r),
        LF_BUILDINFO => read_build_info(r),
        LF_SUBSTR_LIST => read_string_list(r),
        LF_STRING_ID => read_string_id(r),
        LF_UDT_SRC_LINE => read_local_source(r),
        LF_UDT_MOD_SRC_LINE => read_remote_source(r),
        _ => Err(Refusal::LeafUnknown(leaf)),
    }
}
