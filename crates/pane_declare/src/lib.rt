// A type as a C declaration (R-5 of document 02), for C. What all exports have in common stands in pane_out, and what is said of a finder in pane_state.
#![tactic(auto)]

ghost use Rattle.std.specs.Prelude.{◌≡◌, length};
ghost use Rattle.declare_type.specs.Declares.{declare_of};
ghost use Rattle.pane_state.specs.Given.{finder_at};
ghost use Rattle.pane_declare.specs.Out.{out_declare};

use field::index::TypeIndex;
use pane_state::finder_given;

// The declaration of a type, in the first bytes of the buffer. Behind `out`: the details, and how many bytes it has. At a refusal the buffer is as it was.
#[unsafe(no_mangle)]
pub extern "C" fn pdb_declare(
    s: &[u8],
    table: &[u32],
    minimum: u32,
    maximum: u32,
    held: usize,
    shift: u32,
    index: u32,
    buffer: &mut [u8],
    out: &mut [u64; 3],
) -> u32
    ensures { (result, out.new, buffer.new) ≡ out_declare buffer.old (declare_of s.now (finder_at minimum maximum held shift table.now) index (length buffer.old)) }
{
    let f = finder_given(minimum, maximum, held, shift);
    match declare_type::declare(s, f, table, TypeIndex(index), buffer) {
        Ok(n) => {
            *out = [0, 0, n as u64];
            0
        }
        Err(e) => pane_out::refused(e, out),
    }
}
