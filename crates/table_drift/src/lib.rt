#![tactic(auto)]
// A lookup with its drifts (02, 2026-07; 01, Drift), for whoever holds both secret keys: what is brought into its rotation, the result's drift, and whether both are inside. It goes the short way to a
// drift, as a drift run does: the result's phase less what the turns brought to the front.
ghost use Rattle.std.specs.Prelude.{true, ◌≡◌, length, ◌+◌, ◌%◌, Ok, IsOk};
ghost use Rattle.params.specs.Refusal.{answer, given};
ghost use Rattle.ring.specs.Word.{Q, at};
ghost use Rattle.ring.specs.Phase.{phase_of};
ghost use Rattle.table_drift.specs.Lookup.{message_brought, inside_margin, both_inside, Carries};
ghost use Rattle.table_drift.specs.Refusals.{lookup_drift_number, result_after, drifts_after};

use params::{Checked, Params, Refusal};

mod drifts;

// The refusals of a lookup with its drifts, in document 01's order.
#[tactic(auto, unfolding(crate::specs::Refusals::lookup_drift_number))]
fn lookup_drift_checks(
    p: Params,
    modulus: u64,
    lf: usize,
    results: u64,
    lk: usize,
    ls: usize,
    key: &[u32],
    z: &[u32],
    lc: usize,
    lo: usize,
    ld: usize,
) -> Result<Checked, Refusal>
    ensures { result ≡ given (answer (lookup_drift_number p modulus lf results lk ls key.now z.now lc lo ld)) p }
{
    let c = params::check(p)?;
    let s = c.sizes;
    Refusal::Length.unless(lf == modulus as usize)?;
    Refusal::Length.unless(lk == s.ksk)?;
    Refusal::Length.unless(ls == s.bsk)?;
    Refusal::Length.unless(key.len() == s.n)?;
    Refusal::Length.unless(z.len() == s.size)?;
    Refusal::Length.unless(lc == s.level0)?;
    Refusal::Length.unless(lo == s.level0)?;
    Refusal::Length.unless(ld == 2)?;
    tlwe::keys::key_number(key)?;
    tlwe::keys::key_number(z)?;
    Refusal::Modulus.unless(tables::fits(s.size, modulus))?;
    tlwe::plaintexts::modulus_number(results)?;
    Ok(c)
}

/// The lookup of the message value, whose ciphertext is c, into out, and into drifts what was brought into its rotation and the result's drift. results is the modulus of which the table's words are
/// messages. Refusals: 1, 2, 4, 5. It tells whether both drifts are inside. Where what is brought in is inside, the result carries the table's word for value modulo modulus, plus the drift told; where
/// both are, the result decrypts to the message of results, or to the bit, that the word is.
pub fn lookup_drift(
    p: Params,
    modulus: u64,
    table: &[u32],
    results: u64,
    value: u64,
    ksk: &[u32],
    bsk: &[u32],
    key: &[u32],
    z: &[u32],
    c: &[u32],
    out: &mut [u32],
    drifts: &mut [u32],
) -> Result<bool, Refusal>
    ensures said { result ≡ given (answer (lookup_drift_number p modulus (length table.now) results (length ksk.now) (length bsk.now) key.now z.now (length c.now) (length out.old) (length drifts.old))) (both_inside p key.now z.now ksk.now bsk.now modulus table.now results value c.now) }
    ensures written { out.new ≡ result_after p modulus table.now results ksk.now bsk.now key.now z.now c.now out.old drifts.old }
    ensures drifted { drifts.new ≡ drifts_after p modulus table.now results value ksk.now bsk.now key.now z.now c.now out.old drifts.old }
    ensures carried { IsOk result → inside_margin modulus (message_brought p key.now c.now value modulus) ≡ true → phase_of p.n key.now out.new ≡ (at table.now (value % modulus) + at drifts.new 1) % Q }
    ensures right { result ≡ Ok true → Carries p key.now modulus table.now results value out.new (at drifts.new 1) }
{
    let checked = lookup_drift_checks(
        p,
        modulus,
        table.len(),
        results,
        ksk.len(),
        bsk.len(),
        key,
        z,
        c.len(),
        out.len(),
        drifts.len(),
    )?;
    Ok(drifts::told_into(
        checked, modulus, table, results, value, ksk, bsk, key, c, out, drifts,
    ))
}
