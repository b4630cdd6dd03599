// A report over streams (R-12 of document 02), for C. What all exports have in common stands in pane_out.
#![tactic(auto)]

ghost use Rattle.std.specs.Prelude.{◌≡◌};
ghost use Rattle.stream_report.specs.Report.{report_in, add_of};
ghost use Rattle.pane_report.specs.Out.{totals_at, out_report};

use stream_report::{Largest, Totals};

// A stream added to a report, which is nine numbers and a lent table of 64 rows of leaf, records and payload bytes. Behind `out`: the details, and the
// nine numbers after it, in the order that they are given. At a refusal the table is as it was, and so is the report that the caller has.
#[unsafe(no_mangle)]
pub extern "C" fn pdb_report(
    s: &[u8],
    taken: u64,
    refused: u64,
    headers: u64,
    records: u64,
    bytes: u64,
    length: u64,
    stream: u64,
    index: u32,
    rows: u64,
    table: &mut [u64; 192],
    out: &mut [u64; 11],
) -> u32
    ensures { (result, out.new, table.new) ≡ out_report table.old (add_of (report_in (totals_at taken refused headers records bytes length stream index rows) table.old) s.now) }
{
    let totals = Totals {
        taken,
        refused,
        headers,
        records,
        bytes,
        largest: Largest {
            length,
            stream,
            index,
        },
        rows,
    };
    match stream_report::add(totals, table, s) {
        Ok(t) => {
            let largest = t.largest;
            *out = [
                0,
                0,
                t.taken,
                t.refused,
                t.headers,
                t.records,
                t.bytes,
                largest.length,
                largest.stream,
                largest.index as u64,
                t.rows,
            ];
            0
        }
        Err(e) => pane_out::refused(e, out),
    }
}
