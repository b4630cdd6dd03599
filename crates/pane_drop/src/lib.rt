// The stream of the records that some roots reach (R-13 of document 02), for C. A library of its own, since a record reader that two exports use is not
// inlined into either. What all exports have in common stands in pane_out.
#![tactic(auto)]

ghost use Rattle.std.specs.Prelude.{◌≡◌, length};
ghost use Rattle.stream_drop.specs.Drop.{drop_of};
ghost use Rattle.pane_drop.specs.Out.{out_drop};

// The stream of the records that the roots reach, in the first bytes of the buffer; and old to new in the first entries of the table. Behind `out`: the
// details, and how many bytes the stream has. At a refusal the buffer is as it was, and the table too but after 30 and 19.
#[unsafe(no_mangle)]
pub extern "C" fn pdb_drop(
    s: &[u8],
    roots: &[u32],
    table: &mut [u32],
    buffer: &mut [u8],
    out: &mut [u64; 3],
) -> u32
    ensures { (result, out.new, table.new, buffer.new) ≡ out_drop table.old buffer.old (drop_of s.now roots.now (length table.old) (length buffer.old)) }
{
    match stream_drop::drop(s, roots, table, buffer) {
        Ok(n) => {
            *out = [0, 0, n as u64];
            0
        }
        Err(e) => pane_out::refused(e, out),
    }
}
