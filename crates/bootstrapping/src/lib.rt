#![tactic(auto)]
// Generation of the bootstrapping key (`encrypt_torus` of src/trgsw.rs and `gen_bootstrapping_key` of src/key.rs), as coefficients and from lent masks
// and noise (01, key).
ghost use Rattle.std.specs.Prelude.{◌≡◌, length};
ghost use Rattle.params.specs.Refusal.{answer, outcome, if_done};
ghost use Rattle.bootstrapping.specs.Rows.{torus_rows, bootstrapping_key};
ghost use Rattle.bootstrapping.specs.Refusals.{torus_number, bootstrapping_number};

mod rows;

use params::{Params, Refusal};
use utils::Torus;

/// `encrypt_torus` with lent masks and noise: 2L rows of 2N words, each a then b, encryptions of zero to which m times the gadget is added.
/// Refusals: 1, 2, 4.
#[tactic(auto, unfolding(crate::specs::Refusals::torus_number))]
pub fn encrypt_torus(
    p: Params,
    m: Torus,
    masks: &[u32],
    noise: &[u32],
    key_lv1: &[u32],
    out: &mut [u32],
) -> Result<(), Refusal>
    ensures said { result ≡ outcome (answer (torus_number p (length masks.now) (length noise.now) key_lv1.now (length out.old))) }
    ensures written { out.new ≡ if_done (torus_number p (length masks.now) (length noise.now) key_lv1.now (length out.old)) (torus_rows p m.0 key_lv1.now masks.now noise.now) out.old }
{
    let p = params::check(p)?;
    let s = p.sizes;
    Refusal::Length.unless(masks.len() == s.bitmasks)?;
    Refusal::Length.unless(noise.len() == s.bitmasks)?;
    Refusal::Length.unless(key_lv1.len() == s.size)?;
    Refusal::Length.unless(out.len() == s.bit)?;
    Refusal::KeyWord.unless(tlwe::keys::is_binary(key_lv1))?;
    rows::rows_into(p, m.0, masks, noise, key_lv1, out);
    Ok(())
}

/// `gen_bootstrapping_key` with lent masks and noise, drawn in row order: `encrypt_torus` of each word of the level-0 key. Refusals: 1, 2, 4.
#[tactic(auto, unfolding(crate::specs::Refusals::bootstrapping_number))]
pub fn gen_bootstrapping_key(
    p: Params,
    key_lv0: &[u32],
    key_lv1: &[u32],
    masks: &[u32],
    noise: &[u32],
    out: &mut [u32],
) -> Result<(), Refusal>
    ensures said { result ≡ outcome (answer (bootstrapping_number p key_lv0.now key_lv1.now (length masks.now) (length noise.now) (length out.old))) }
    ensures written { out.new ≡ if_done (bootstrapping_number p key_lv0.now key_lv1.now (length masks.now) (length noise.now) (length out.old)) (bootstrapping_key p key_lv0.now key_lv1.now masks.now noise.now) out.old }
{
    let p = params::check(p)?;
    let s = p.sizes;
    Refusal::Length.unless(key_lv0.len() == s.n)?;
    Refusal::Length.unless(key_lv1.len() == s.size)?;
    Refusal::Length.unless(masks.len() == s.bskmasks)?;
    Refusal::Length.unless(noise.len() == s.bskmasks)?;
    Refusal::Length.unless(out.len() == s.bsk)?;
    Refusal::KeyWord.unless(tlwe::keys::is_binary(key_lv0) && tlwe::keys::is_binary(key_lv1))?;
    rows::bits_into(p, key_lv0, key_lv1, masks, noise, out);
    Ok(())
}
