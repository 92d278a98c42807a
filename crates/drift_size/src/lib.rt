#![tactic(auto)]
// How large a drift is (01, Drift): words read as signed, their absolute values, and whether they are inside. Below `drift_run`, a crate of its own for what its edit costs.
ghost use Rattle.std.specs.Prelude.{◌≡◌};
ghost use Rattle.drift_size.specs.Size.{magnitude, inside_word, worse_word};

/// The absolute value of a word that is read as signed.
#[tactic(auto, unfolding(ring::specs::Centre::centre, ring::specs::Centre::H, ring::specs::Word::Q))]
pub fn absolute(drift: u32) -> u32
    ensures { result ≡ magnitude drift }
{
    drift.cast_signed().unsigned_abs()
}

/// Inside: below an eighth of a turn in absolute value.
#[tactic(auto, unfolding(crate::specs::Size::inside_word))]
pub fn is_inside(drift: u32) -> bool
    ensures { result ≡ inside_word drift }
{
    absolute(drift) < 0x2000_0000
}

/// The one of two that is larger in absolute value, the first at a tie.
#[tactic(auto, unfolding(crate::specs::Size::worse_word))]
pub fn worse(x: u32, y: u32) -> u32
    ensures { result ≡ worse_word x y }
{
    if absolute(x) < absolute(y) { y } else { x }
}
