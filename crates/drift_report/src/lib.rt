#![tactic(auto)]
// The drift report (02, 2026-05): over many wires, how many drifts had each size in bits, with the drift largest in absolute value, its wire and the total of wires. A
// report is one record by value, and two merge into one. As words, for callers that have no records: `as_words`.
ghost use Rattle.std.specs.Prelude.{◌≡◌, ◌+◌, length};
ghost use Rattle.drift_report.specs.Report.{empty_report, told, wires_number, report_of};
ghost use Rattle.drift_report.specs.Merge.{merged};

use params::Refusal;
use utils::Torus;

pub mod as_words;
mod leading;
mod merging;
mod one_pass;

/// A report. Its counts go by the bits of the drift's absolute value, 0 to 32; the largest drift is a word that is read as signed; its wire is its place, from 0.
#[derive(Clone, Copy)]
pub struct Report {
    pub counts: [u32; 33],
    pub largest: Torus,
    pub wire: u32,
    pub total: u32,
}

/// The report of no wire.
#[tactic(auto, unfolding(crate::specs::Report::empty_report, ring::specs::Sums::tab))]
pub fn empty() -> Report
    ensures { result ≡ empty_report }
{
    Report {
        counts: [0; 33],
        largest: Torus(0),
        wire: 0,
        total: 0,
    }
}

/// The report of these drifts, as a drift run leaves them. Refusals: 13.
#[tactic(auto, unfolding(crate::specs::Report::told, crate::specs::Report::wires_number))]
pub fn report_of(drifts: &[u32]) -> Result<Report, Refusal>
    ensures { result ≡ told (wires_number (length drifts.now)) (report_of drifts.now) }
{
    Refusal::Wires.unless(drifts.len() <= 65535)?;
    Ok(one_pass::counted(drifts))
}

/// The report of the first's wires followed by the second's, of any two records. Refusals: 13.
#[tactic(auto, unfolding(crate::specs::Report::told, crate::specs::Report::wires_number))]
pub fn merge(first: Report, second: Report) -> Result<Report, Refusal>
    ensures { result ≡ told (wires_number (first.total + second.total)) (merged first second) }
{
    let wires = u64::from(first.total) + u64::from(second.total);
    Refusal::Wires.unless(wires <= 65535)?;
    Ok(merging::merged(first, second))
}
