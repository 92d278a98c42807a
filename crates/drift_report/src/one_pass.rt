// The report of drifts that are not too many, in one pass over them.
ghost use Rattle.std.specs.Prelude.{◌≡◌, ◌≤◌, length};
ghost use Rattle.drift_report.specs.Size.{bits_of};
ghost use Rattle.drift_report.specs.Report.{report_of};

use crate::Report;
use crate::leading::{Leader, ahead};
use utils::Torus;

// The bits of a drift's absolute value.
#[tactic(auto, unfolding(crate::specs::Size::bits_of))]
fn bits_of(drift: u32) -> u32
    ensures value { result ≡ bits_of drift }
    ensures most { result ≤ 32 }
{
    32 - drift_size::absolute(drift).leading_zeros()
}

// The report.
pub(crate) fn counted(drifts: &[u32]) -> Report
    requires { length drifts.now ≤ 65535 }
    ensures { result ≡ report_of drifts.now }
{
    let mut counts = [0u32; 33];
    let mut leader = Leader { drift: 0, wire: 0 };
    for (i, drift) in drifts.iter().enumerate() {
        let bits = bits_of(*drift) as usize;
        counts[bits] += 1;
        let wire = i as u32;
        leader = ahead(
            leader,
            Leader {
                drift: *drift,
                wire,
            },
        );
    }
    Report {
        counts,
        largest: Torus(leader.drift),
        wire: leader.wire,
        total: drifts.len() as u32,
    }
}
