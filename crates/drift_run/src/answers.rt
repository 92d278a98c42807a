// The refusals of a drift run and of one gate of it, in document 01's order.
ghost use Rattle.std.specs.Prelude.{◌≡◌};
ghost use Rattle.params.specs.Refusal.{answer, given, outcome};
ghost use Rattle.drift_run.specs.Refusals.{secrets_number, drift_wires_number, lent_number, drift_answer, drift_gate_answer};

use params::{Checked, Params, Refusal};

// The parameters, the keys' lengths, then the secret keys' words.
#[tactic(auto, unfolding(crate::specs::Refusals::secrets_number))]
fn secrets_checks(
    p: Params,
    lk: usize,
    ls: usize,
    key: &[u32],
    z: &[u32],
) -> Result<Checked, Refusal>
    ensures { result ≡ given (answer (secrets_number p lk ls key.now z.now)) p }
{
    let c = params::check(p)?;
    let s = c.sizes;
    Refusal::Length.unless(lk == s.ksk)?;
    Refusal::Length.unless(ls == s.bsk)?;
    Refusal::Length.unless(key.len() == s.n)?;
    Refusal::Length.unless(z.len() == s.size)?;
    tlwe::keys::key_number(key)?;
    tlwe::keys::key_number(z)?;
    Ok(c)
}

// The lengths of the slices that depend on the circuit, for one gate.
#[tactic(auto, unfolding(crate::specs::Refusals::drift_wires_number, encrypted_run::specs::Refusals::lengths_of))]
fn gate_lengths(p: Params, bytes: &[u8], lw: usize, ld: usize) -> Result<(), Refusal>
    ensures { result ≡ outcome (answer (drift_wires_number p bytes.now lw ld)) }
{
    let t = encrypted_run::lengths_of(p, bytes);
    Refusal::Length.unless(lw == t.held)?;
    Refusal::Length.unless(ld == t.wires)
}

// The same for a run.
#[tactic(auto, unfolding(crate::specs::Refusals::lent_number, encrypted_run::specs::Refusals::lengths_of))]
fn run_lengths(
    p: Params,
    bytes: &[u8],
    li: usize,
    lp: usize,
    lw: usize,
    lo: usize,
    ld: usize,
) -> Result<(), Refusal>
    ensures { result ≡ outcome (answer (lent_number p bytes.now li lp lw lo ld)) }
{
    let t = encrypted_run::lengths_of(p, bytes);
    Refusal::Length.unless(li == t.ins)?;
    Refusal::Length.unless(lp == t.inputs)?;
    Refusal::Length.unless(lo == t.outs)?;
    Refusal::Length.unless(lw == t.held)?;
    Refusal::Length.unless(ld == t.wires)
}

// The refusals of one gate.
pub(crate) fn gate_checks(
    p: Params,
    lk: usize,
    ls: usize,
    key: &[u32],
    z: &[u32],
    bytes: &[u8],
    lw: usize,
    ld: usize,
) -> Result<Checked, Refusal>
    ensures { result ≡ given (drift_gate_answer p lk ls key.now z.now bytes.now lw ld) p }
{
    let c = secrets_checks(p, lk, ls, key, z)?;
    circuit::check(bytes)?;
    gate_lengths(p, bytes, lw, ld)?;
    Ok(c)
}

// The refusals of a run.
pub(crate) fn run_checks(
    p: Params,
    lk: usize,
    ls: usize,
    key: &[u32],
    z: &[u32],
    bytes: &[u8],
    li: usize,
    lp: usize,
    lw: usize,
    lo: usize,
    ld: usize,
) -> Result<Checked, Refusal>
    ensures { result ≡ given (drift_answer p lk ls key.now z.now bytes.now li lp lw lo ld) p }
{
    let c = secrets_checks(p, lk, ls, key, z)?;
    circuit::check(bytes)?;
    run_lengths(p, bytes, li, lp, lw, lo, ld)?;
    Ok(c)
}
