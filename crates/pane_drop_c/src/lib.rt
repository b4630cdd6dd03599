// The functions of crates/pane_drop that C and Rust link: each calls the library's of the same name, and has its clauses. Written by tools/exports.
#![tactic(auto)]

ghost use Rattle.std.specs.Prelude.{◌≡◌, length};
ghost use Rattle.stream_drop.specs.Drop.{drop_of};
ghost use Rattle.pane_drop.specs.Out.{out_drop};

// The stream of the records that the roots reach, in the first bytes of the buffer; and old to new in the first entries of the table.
#[unsafe(no_mangle)]
pub extern "C" fn pdb_drop(
    s: &[u8],
    roots: &[u32],
    table: &mut [u32],
    buffer: &mut [u8],
    out: &mut [u64; 3],
) -> u32
    ensures { (result, out.new, table.new, buffer.new) ≡ out_drop table.old buffer.old (drop_of s.now roots.now (length table.old) (length buffer.old)) }
{
    pane_drop::pdb_drop(s, roots, table, buffer, out)
}
