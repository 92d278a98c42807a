// Reports as words, for callers that have no records: the counts, the largest drift, its wire, the total.
ghost use Rattle.std.specs.Prelude.{◌≡◌, length};
ghost use Rattle.params.specs.Refusal.{answer, outcome, if_done};
ghost use Rattle.drift_report.specs.Report.{empty_report, report_of};
ghost use Rattle.drift_report.specs.Merge.{merged};
ghost use Rattle.drift_report.specs.Words.{report_words, report_from, empty_number, report_number, merge_number};

use crate::Report;
use params::Refusal;
use utils::Torus;

// A report's words.
#[tactic(auto, unfolding(crate::specs::Words::report_words))]
fn put(report: Report, out: &mut [u32])
    requires { length out.old ≡ 36 }
    ensures { out.new ≡ report_words report }
{
    let last = [report.largest.0, report.wire, report.total];
    let (counts, rest) = out.split_at_mut(33);
    counts.copy_from_slice(&report.counts);
    rest.copy_from_slice(&last);
}

// The record of a report's words.
#[tactic(auto, unfolding(crate::specs::Words::report_from))]
fn from_words(lent: &[u32]) -> Report
    requires { length lent.now ≡ 36 }
    ensures { result ≡ report_from lent.now }
{
    let mut counts = [0; 33];
    counts.copy_from_slice(&lent[..33]);
    Report {
        counts,
        largest: Torus(lent[33]),
        wire: lent[34],
        total: lent[35],
    }
}

/// The empty report into a slice of 36 words. Refusals: 2.
pub fn empty_into(out: &mut [u32]) -> Result<(), Refusal>
    ensures said { result ≡ outcome (answer (empty_number (length out.old))) }
    ensures written { out.new ≡ if_done (empty_number (length out.old)) (report_words empty_report) out.old }
{
    Refusal::Length.unless(out.len() == 36)?;
    put(crate::empty(), out);
    Ok(())
}

/// The report of these drifts into a slice of 36 words. Refusals: 2, 13.
#[tactic(auto, unfolding(crate::specs::Report::told, crate::specs::Report::wires_number))]
pub fn report_into(drifts: &[u32], out: &mut [u32]) -> Result<(), Refusal>
    ensures said { result ≡ outcome (answer (report_number (length drifts.now) (length out.old))) }
    ensures written { out.new ≡ if_done (report_number (length drifts.now) (length out.old)) (report_words (report_of drifts.now)) out.old }
{
    Refusal::Length.unless(out.len() == 36)?;
    put(crate::report_of(drifts)?, out);
    Ok(())
}

/// The merge of two reports, lent as 36 words each, into a slice of 36 words. Refusals: 2, 13.
#[tactic(auto, unfolding(crate::specs::Report::told, crate::specs::Report::wires_number, crate::specs::Words::report_from))]
pub fn merge_into(first: &[u32], second: &[u32], out: &mut [u32]) -> Result<(), Refusal>
    ensures said { result ≡ outcome (answer (merge_number first.now second.now (length out.old))) }
    ensures written { out.new ≡ if_done (merge_number first.now second.now (length out.old)) (report_words (merged (report_from first.now) (report_from second.now))) out.old }
{
    Refusal::Length.unless(first.len() == 36)?;
    Refusal::Length.unless(second.len() == 36)?;
    Refusal::Length.unless(out.len() == 36)?;
    put(crate::merge(from_words(first), from_words(second))?, out);
    Ok(())
}
