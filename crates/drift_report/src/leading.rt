// Which drift leads: the one that is largest in absolute value, with its wire.
ghost use Rattle.std.specs.Prelude.{◌≡◌};
ghost use Rattle.drift_report.specs.Leader.{ahead, lead_of};

use drift_size::absolute;

// A drift and its wire.
#[derive(Clone, Copy)]
pub(crate) struct Leader {
    pub drift: u32,
    pub wire: u32,
}

// Of two the one whose drift is larger in absolute value, the first at a tie.
#[tactic(auto, unfolding(crate::specs::Leader::ahead))]
pub(crate) fn ahead(a: Leader, b: Leader) -> Leader
    ensures { result ≡ ahead a b }
{
    if absolute(a.drift) < absolute(b.drift) {
        return b;
    }
    a
}

// Of two that lead among so many wires each: the first where the second has no wires, the second where the first has none, else the one that is ahead.
#[tactic(auto, unfolding(crate::specs::Leader::lead_of))]
pub(crate) fn lead_of(a: Leader, wires: u32, b: Leader, more: u32) -> Leader
    ensures { result ≡ lead_of a wires b more }
{
    if more == 0 {
        a
    } else if wires == 0 {
        b
    } else {
        ahead(a, b)
    }
}
