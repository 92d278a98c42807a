// Reports over many wires' drifts (02, 2026-05), as words.
ghost use Rattle.std.specs.Prelude.{◌≡◌, length};
ghost use Rattle.params.specs.Refusal.{answer, outcome, if_done};
ghost use Rattle.packing.specs.Packed.{packed};
ghost use Rattle.drift_report.specs.Report.{empty_report, report_of};
ghost use Rattle.drift_report.specs.Merge.{merged};
ghost use Rattle.drift_report.specs.Words.{report_words, report_from, empty_number, report_number, merge_number};

use packing::pack;

// The report of no wire.
#[unsafe(no_mangle)]
pub extern "C" fn egl_drift_report_empty(out: &mut [u32]) -> u64
    ensures said { result ≡ packed (outcome (answer (empty_number (length out.old)))) }
    ensures written { out.new ≡ if_done (empty_number (length out.old)) (report_words empty_report) out.old }
{
    pack(drift_report::as_words::empty_into(out))
}

// The report of drifts as a drift run leaves them.
#[unsafe(no_mangle)]
pub extern "C" fn egl_drift_report_of(drifts: &[u32], out: &mut [u32]) -> u64
    ensures said { result ≡ packed (outcome (answer (report_number (length drifts.now) (length out.old)))) }
    ensures written { out.new ≡ if_done (report_number (length drifts.now) (length out.old)) (report_words (report_of drifts.now)) out.old }
{
    pack(drift_report::as_words::report_into(drifts, out))
}

// The report of the first's wires followed by the second's.
#[unsafe(no_mangle)]
pub extern "C" fn egl_drift_report_merge(first: &[u32], second: &[u32], out: &mut [u32]) -> u64
    ensures said { result ≡ packed (outcome (answer (merge_number first.now second.now (length out.old)))) }
    ensures written { out.new ≡ if_done (merge_number first.now second.now (length out.old)) (report_words (merged (report_from first.now) (report_from second.now))) out.old }
{
    pack(drift_report::as_words::merge_into(first, second, out))
}
