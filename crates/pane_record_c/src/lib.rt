// The functions of crates/pane_record that C and Rust link: each calls the library's of the same name, and has its clauses. Written by tools/exports.
#![tactic(auto)]

ghost use Rattle.std.specs.Prelude.{◌≡◌};
ghost use Rattle.record_layout.specs.Layouts.{record_of, type_leaves, id_leaves};
ghost use Rattle.record_list.specs.Lists.{start_of, step_of};
ghost use Rattle.pane_record.specs.Out.{stream_at, list_cursor_at, out_type, out_id, out_list, out_step};

// The type record that these bytes are, its leaf first.
#[unsafe(no_mangle)]
pub extern "C" fn pdb_type(s: &[u8], out: &mut [u64; 15]) -> u32
    ensures { (result, out.new) ≡ out_type (record_of type_leaves s.now) }
{
    pane_record::pdb_type(s, out)
}

// The id record that these bytes are, its leaf first.
#[unsafe(no_mangle)]
pub extern "C" fn pdb_id(s: &[u8], out: &mut [u64; 12]) -> u32
    ensures { (result, out.new) ≡ out_id (record_of id_leaves s.now) }
{
    pane_record::pdb_id(s, out)
}

// The list of the record that these bytes are, at its first element.
#[unsafe(no_mangle)]
pub extern "C" fn pdb_list(s: &[u8], ids: u32, out: &mut [u64; 6]) -> u32
    ensures { (result, out.new) ≡ out_list (start_of (stream_at ids) s.now) }
{
    pane_record::pdb_list(s, ids, out)
}

// The element at a cursor of a list in these bytes, and the cursor behind it.
#[unsafe(no_mangle)]
pub extern "C" fn pdb_step(
    s: &[u8],
    leaf: u16,
    at: usize,
    left: u32,
    padded: u32,
    out: &mut [u64; 15],
) -> u32
    ensures { (result, out.new) ≡ out_step (step_of s.now (list_cursor_at leaf at left padded)) }
{
    pane_record::pdb_step(s, leaf, at, left, padded, out)
}
