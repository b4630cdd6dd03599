// The functions of crates/pane_report that C and Rust link: each calls the library's of the same name, and has its clauses. Written by tools/exports.
#![tactic(auto)]

ghost use Rattle.std.specs.Prelude.{◌≡◌};
ghost use Rattle.stream_report.specs.Report.{report_in, add_of};
ghost use Rattle.pane_report.specs.Out.{totals_at, out_report};

// A stream added to a report, which is nine numbers and a lent table of 64 rows of leaf, records and payload bytes.
#[unsafe(no_mangle)]
pub extern "C" fn pdb_report(
    s: &[u8],
    taken: u64,
    refused: u64,
    headers: u64,
    records: u64,
    bytes: u64,
    length: u64,
    stream: u64,
    index: u32,
    rows: u64,
    table: &mut [u64; 192],
    out: &mut [u64; 11],
) -> u32
    ensures { (result, out.new, table.new) ≡ out_report table.old (add_of (report_in (totals_at taken refused headers records bytes length stream index rows) table.old) s.now) }
{
    pane_report::pdb_report(
        s, taken, refused, headers, records, bytes, length, stream, index, rows, table, out,
    )
}
