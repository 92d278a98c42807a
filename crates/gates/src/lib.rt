#![tactic(auto)]
// A two-input gate (src/gates.rs): its sample, switched back to level 0.
ghost use Rattle.std.specs.Prelude.{◌≡◌, length};
ghost use Rattle.params.specs.Refusal.{answer, outcome, given};
ghost use Rattle.gates.specs.Refusals.{gate_number};
ghost use Rattle.gates.specs.Gate.{gate_out};

use gate_sums::Kind;
use params::{Checked, Params, Refusal};

// The checks of a two-input gate.
#[tactic(auto, unfolding(crate::specs::Refusals::gate_number))]
fn gate_checks(
    p: Params,
    a: &[u32],
    b: &[u32],
    ksk: &[u32],
    bsk: &[u32],
    out: &[u32],
) -> Result<Checked, Refusal>
    ensures { result ≡ given (answer (gate_number p (length a.now) (length b.now) (length ksk.now) (length bsk.now) (length out.now))) p }
{
    let p = params::check(p)?;
    Refusal::Length.unless(a.len() == p.sizes.level0)?;
    Refusal::Length.unless(b.len() == p.sizes.level0)?;
    Refusal::Length.unless(ksk.len() == p.sizes.ksk)?;
    Refusal::Length.unless(bsk.len() == p.sizes.bsk)?;
    Refusal::Length.unless(out.len() == p.sizes.level0)?;
    Ok(p)
}

/// A two-input gate: its kind's sum of a and b, rotated, extracted at 0 and switched, with the sample of level 1 in scratch. Refusals: 1, 2.
pub fn gate(
    p: Params,
    kind: Kind,
    a: &[u32],
    b: &[u32],
    ksk: &[u32],
    bsk: &[u32],
    out: &mut [u32],
) -> Result<(), Refusal>
    ensures said { result ≡ outcome (answer (gate_number p (length a.now) (length b.now) (length ksk.now) (length bsk.now) (length out.old))) }
    ensures written { out.new ≡ gate_out p kind a.now b.now ksk.now bsk.now out.old }
{
    let words = gate_checks(p, a, b, ksk, bsk, out)?.sizes.level1;
    let mut scratch = [0u32; 1025];
    let sample = &mut scratch[..words];
    samples::sample(p, kind, a, b, bsk, sample)?;
    switching::identity_key_switching(p, sample, ksk, out)
}
