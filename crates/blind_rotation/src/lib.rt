#![tactic(auto)]
// Blind rotation (src/trgsw.rs, `blind_rotate`): its step, which is a routine of its own, and the whole; that of a lent vector stands in vector.rt.
ghost use Rattle.std.specs.Prelude.{◌≡◌, ◌+◌, ◌*◌, ◌≤◌, ◌<◌, length};
ghost use Rattle.params.specs.Refusal.{answer, outcome};
ghost use Rattle.params.specs.Sizes.{size, bit_words, bootstrapping_words};
ghost use Rattle.trgsw.specs.External.{cmux_of};
ghost use Rattle.blind_rotation.specs.Blind.{turned, blind_step, steps_to, blind_rotated};
ghost use Rattle.blind_rotation.specs.Private.{Whole};
ghost use Rattle.blind_rotation.specs.Refusals.{step_number, step_out, blind_number, blind_out};
ghost use Rattle.key.specs.Testvec.{test_pair};

use params::{Checked, Params, Refusal};
use utils::{Amount, Torus};

pub mod vector;

// One step by the amount k, with one bit's rows: the turned accumulator less the accumulator, in the scratch (ta, tb), times the rows is added to it.
// Here and below the callees refuse nothing: the parameters are checked, and the lengths are those that they ask for.
// A pair of polynomials stays two slices, as `blind_rotate` is lent it and `trgsw::external_product_add` takes it: a struct would be filled and taken apart on the way.
fn step_by(
    p: Checked,
    rows: &[u32],
    k: Amount,
    ta: &mut [u32],
    tb: &mut [u32],
    a: &mut [u32],
    b: &mut [u32],
)
    requires amount { k.0 ≤ size p + size p }
    requires bit { length rows.now ≡ bit_words p }
    requires scratch { Whole p ta.old tb.old }
    requires accumulator { Whole p a.old b.old }
    ensures { record { a = a.new; b = b.new } ≡ cmux_of p rows.now (record { a = a.old; b = b.old }) (turned p k.0 (record { a = a.old; b = b.old })) }
{
    let _ = rotation::poly_mul_with_x_k(p.params, a, k, ta);
    let _ = rotation::poly_mul_with_x_k(p.params, b, k, tb);
    words::subtract(a, ta);
    words::subtract(b, tb);
    let _ = trgsw::external_product_add(p.params, rows, ta, tb, a, b);
}

// Step i: the amount of its mask, and its rows as that part of the lent key.
fn step_at(
    p: Checked,
    key: &[u32],
    i: usize,
    mask: Torus,
    ta: &mut [u32],
    tb: &mut [u32],
    a: &mut [u32],
    b: &mut [u32],
)
    requires index { i < p.n }
    requires rows { length key.now ≡ bootstrapping_words p }
    requires scratch { Whole p ta.old tb.old }
    requires accumulator { Whole p a.old b.old }
    ensures { record { a = a.new; b = b.new } ≡ blind_step p key.now i mask.0 (record { a = a.old; b = b.old }) }
{
    let k = rotation::mask_amount(p.params, mask).unwrap_or(Amount(0));
    let rows = key::bit_rows(p.params, key, i);
    step_by(p, rows, k, ta, tb, a, b);
}

// All n steps.
fn all_steps(
    p: Checked,
    src: &[u32],
    key: &[u32],
    ta: &mut [u32],
    tb: &mut [u32],
    a: &mut [u32],
    b: &mut [u32],
)
    requires source { length src.now ≡ p.n + 1 }
    requires rows { length key.now ≡ bootstrapping_words p }
    requires scratch { Whole p ta.old tb.old }
    requires accumulator { Whole p a.old b.old }
    ensures { record { a = a.new; b = b.new } ≡ steps_to p key.now src.now (record { a = a.old; b = b.old }) p.n }
{
    for i in 0..p.sizes.n {
        step_at(p, key, i, Torus(src[i]), ta, tb, a, b);
    }
}

// The vector that the scratch (ta, tb) holds, rotated by the ciphertext: its start turned by b's amount, then the steps. Every rotation, of the gates' vector and of a lent one, is this.
pub(crate) fn rotate_from(
    p: Checked,
    src: &[u32],
    key: &[u32],
    ta: &mut [u32],
    tb: &mut [u32],
    a: &mut [u32],
    b: &mut [u32],
)
    requires source { length src.now ≡ p.n + 1 }
    requires rows { length key.now ≡ bootstrapping_words p }
    requires scratch { Whole p ta.old tb.old }
    requires accumulator { Whole p a.old b.old }
    ensures { record { a = a.new; b = b.new } ≡ blind_rotated p key.now src.now (record { a = ta.old; b = tb.old }) }
{
    let k = rotation::body_amount(p.params, Torus(src[p.sizes.n])).unwrap_or(Amount(0));
    let _ = rotation::poly_mul_with_x_k(p.params, ta, k, a);
    let _ = rotation::poly_mul_with_x_k(p.params, tb, k, b);
    all_steps(p, src, key, ta, tb, a, b);
}

// The gates' vector rotated, with the scratch lent.
fn rotate_test(
    p: Checked,
    src: &[u32],
    key: &[u32],
    ta: &mut [u32],
    tb: &mut [u32],
    a: &mut [u32],
    b: &mut [u32],
)
    requires source { length src.now ≡ p.n + 1 }
    requires rows { length key.now ≡ bootstrapping_words p }
    requires scratch { Whole p ta.old tb.old }
    requires accumulator { Whole p a.old b.old }
    ensures { record { a = a.new; b = b.new } ≡ blind_rotated p key.now src.now (test_pair p) }
{
    let _ = key::gen_testvec(p.params, ta, tb);
    rotate_from(p, src, key, ta, tb, a, b);
}

// The same: the scratch is two polynomials, 8 KB. Below it the external product has one of 4 KB and the product one of 8 KB, so a rotation takes
// 20 KB of stack for its scratch.
#[tactic(auto, using(crate::proofs::Steps::room, crate::proofs::Steps::lent, crate::proofs::Steps::both_lent))]
fn put_rotated(p: Checked, src: &[u32], key: &[u32], a: &mut [u32], b: &mut [u32])
    requires source { length src.now ≡ p.n + 1 }
    requires rows { length key.now ≡ bootstrapping_words p }
    requires accumulator { Whole p a.old b.old }
    ensures { record { a = a.new; b = b.new } ≡ blind_rotated p key.now src.now (test_pair p) }
{
    let n = p.sizes.size;
    let mut ta = [0u32; 1024];
    let mut tb = [0u32; 1024];
    rotate_test(p, src, key, &mut ta[..n], &mut tb[..n], a, b);
}

// Step i with scratch of its own.
#[tactic(auto, using(crate::proofs::Steps::room, crate::proofs::Steps::lent, crate::proofs::Steps::both_lent))]
fn put_step(p: Checked, key: &[u32], i: usize, mask: Torus, a: &mut [u32], b: &mut [u32])
    requires index { i < p.n }
    requires rows { length key.now ≡ bootstrapping_words p }
    requires accumulator { Whole p a.old b.old }
    ensures { record { a = a.new; b = b.new } ≡ blind_step p key.now i mask.0 (record { a = a.old; b = b.old }) }
{
    let n = p.sizes.size;
    let mut ta = [0u32; 1024];
    let mut tb = [0u32; 1024];
    step_at(p, key, i, mask, &mut ta[..n], &mut tb[..n], a, b);
}

/// Step i of the blind rotation, i below n, by the ciphertext's mask i: what it makes of the accumulator (a, b). Refusals: 1, 2, 3.
#[tactic(auto, using(crate::proofs::Steps::first_is, crate::proofs::Steps::second_is), unfolding(crate::specs::Refusals::step_number))]
pub fn blind_rotate_step(
    p: Params,
    key: &[u32],
    i: usize,
    mask: Torus,
    a: &mut [u32],
    b: &mut [u32],
) -> Result<(), Refusal>
    ensures said { result ≡ outcome (answer (step_number p (length key.now) i (length a.old) (length b.old))) }
    ensures first { a.new ≡ (step_out p key.now i mask.0 (record { a = a.old; b = b.old })).a }
    ensures second { b.new ≡ (step_out p key.now i mask.0 (record { a = a.old; b = b.old })).b }
{
    let p = params::check(p)?;
    let s = p.sizes;
    Refusal::Length.unless(key.len() == s.bsk)?;
    Refusal::Length.unless(a.len() == s.size)?;
    Refusal::Length.unless(b.len() == s.size)?;
    Refusal::Index.unless(i < s.n)?;
    put_step(p, key, i, mask, a, b);
    Ok(())
}

/// The gates' start vector rotated by the level-0 ciphertext src, into (a, b): the fold of the steps. Refusals: 1, 2.
#[tactic(auto, using(crate::proofs::Steps::first_is, crate::proofs::Steps::second_is), unfolding(crate::specs::Refusals::blind_number))]
pub fn blind_rotate(
    p: Params,
    src: &[u32],
    key: &[u32],
    a: &mut [u32],
    b: &mut [u32],
) -> Result<(), Refusal>
    ensures said { result ≡ outcome (answer (blind_number p (length src.now) (length key.now) (length a.old) (length b.old))) }
    ensures first { a.new ≡ (blind_out p src.now key.now (record { a = a.old; b = b.old })).a }
    ensures second { b.new ≡ (blind_out p src.now key.now (record { a = a.old; b = b.old })).b }
{
    let p = params::check(p)?;
    let s = p.sizes;
    Refusal::Length.unless(src.len() == s.level0)?;
    Refusal::Length.unless(key.len() == s.bsk)?;
    Refusal::Length.unless(a.len() == s.size)?;
    Refusal::Length.unless(b.len() == s.size)?;
    put_rotated(p, src, key, a, b);
    Ok(())
}
