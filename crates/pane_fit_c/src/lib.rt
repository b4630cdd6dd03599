// The functions of crates/pane_fit that C and Rust link: each calls the library's of the same name, and has its clauses. Written by tools/exports.
#![tactic(auto)]

ghost use Rattle.std.specs.Prelude.{◌≡◌};
ghost use Rattle.stream_fit.specs.Fit.{fit_of};
ghost use Rattle.pane_fit.specs.Out.{out_fit};

// Is a type stream fit to bind?
#[unsafe(no_mangle)]
pub extern "C" fn pdb_fit(s: &[u8], out: &mut [u64; 5]) -> u32
    ensures { (result, out.new) ≡ out_fit (fit_of s.now) }
{
    pane_fit::pdb_fit(s, out)
}
