// The functions of crates/pane_declare that C and Rust link: each calls the library's of the same name, and has its clauses. Written by tools/exports.
#![tactic(auto)]

ghost use Rattle.std.specs.Prelude.{◌≡◌, length};
ghost use Rattle.declare_type.specs.Declares.{declare_of};
ghost use Rattle.pane_state.specs.Given.{finder_at};
ghost use Rattle.pane_declare.specs.Out.{out_declare};

// The declaration of a type, in the first bytes of the buffer.
#[unsafe(no_mangle)]
pub extern "C" fn pdb_declare(
    s: &[u8],
    table: &[u32],
    minimum: u32,
    maximum: u32,
    held: usize,
    shift: u32,
    index: u32,
    buffer: &mut [u8],
    out: &mut [u64; 3],
) -> u32
    ensures { (result, out.new, buffer.new) ≡ out_declare buffer.old (declare_of s.now (finder_at minimum maximum held shift table.now) index (length buffer.old)) }
{
    pane_declare::pdb_declare(s, table, minimum, maximum, held, shift, index, buffer, out)
}
