// Whether a type stream is fit to bind (R-9 of document 02), for C. A library of its own, since a record reader that two exports use is not inlined into
// either. What all exports have in common stands in pane_out.
#![tactic(auto)]

ghost use Rattle.std.specs.Prelude.{◌≡◌};
ghost use Rattle.stream_fit.specs.Fit.{fit_of};
ghost use Rattle.pane_fit.specs.Out.{out_fit};

use stream_fit::Fitness;

// Is a type stream fit to bind? Behind `out`: the details; 1 for yes and 0 for no; the record at fault and the rule that it breaks, 0 where there is none.
#[unsafe(no_mangle)]
pub extern "C" fn pdb_fit(s: &[u8], out: &mut [u64; 5]) -> u32
    ensures { (result, out.new) ≡ out_fit (fit_of s.now) }
{
    match stream_fit::fit(s) {
        Ok(Fitness::Fit) => {
            *out = [0, 0, 1, 0, 0];
            0
        }
        Ok(Fitness::Unfit(record, rule)) => {
            *out = [0, 0, 0, record as u64, rule.number() as u64];
            0
        }
        Err(e) => pane_out::refused(e, out),
    }
}
