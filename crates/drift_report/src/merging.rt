// Two records merged: the first's wires, then the second's.
ghost use Rattle.std.specs.Prelude.{◌≡◌, ◌+◌, ◌≤◌};
ghost use Rattle.drift_report.specs.Merge.{merged};

use crate::Report;
use crate::leading::{Leader, lead_of};
use utils::Torus;

// The report of both.
pub(crate) fn merged(first: Report, second: Report) -> Report
    requires { first.total + second.total ≤ 65535 }
    ensures { result ≡ merged first second }
{
    let mut counts = first.counts;
    words::add(&second.counts, &mut counts);
    let moved = ring::add(first.total, second.wire);
    let lead = lead_of(
        Leader {
            drift: first.largest.0,
            wire: first.wire,
        },
        first.total,
        Leader {
            drift: second.largest.0,
            wire: moved,
        },
        second.total,
    );
    Report {
        counts,
        largest: Torus(lead.drift),
        wire: lead.wire,
        total: first.total + second.total,
    }
}
