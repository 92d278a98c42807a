#![tactic(auto)]
// Multiplication by X^k and the rounding of words to amounts k (src/trgsw.rs: `poly_mul_with_x_k`, and the first lines of `blind_rotate`).
ghost use Rattle.std.specs.Prelude.{◌≡◌, ◌+◌, ◌≤◌, length};
ghost use Rattle.params.specs.Refusal.{answer, outcome, if_done};
ghost use Rattle.params.specs.Sizes.{size};
ghost use Rattle.ring.specs.Word.{at, comp};
ghost use Rattle.ring.specs.Sums.{tab};
ghost use Rattle.ring.specs.Turn.{rotated};
ghost use Rattle.rotation.specs.Amount.{mask_amount, body_amount, rounded_to};
ghost use Rattle.rotation.specs.Rotate.{rotate_number};

use params::{Checked, Params, Refusal};
use utils::{Amount, Torus};

// A coefficient that ends in the upper half: `Torus::MAX - a[i]`, the complement and not the negative.
fn turned(x: u32) -> u32
    ensures { result ≡ comp x }
{
    ring::complement(x)
}

// The words of a, in order, complemented.
#[tactic(auto, using(ring::proofs::Tab::tab_none, ring::proofs::Tab::tab_more))]
fn turn_over(a: &[u32], out: &mut [u32])
    requires { length out.old ≡ length a.now }
    ensures { out.new ≡ tab (length a.now) (λ i. comp (at a.now i)) }
{
    for (i, x) in a.iter().enumerate() {
        out[i] = turned(*x);
    }
}

// The amount k at most N: the last k words come to the front, complemented; the others are copied behind them.
fn rotate_low(a: &[u32], k: usize, out: &mut [u32])
    requires same { length out.old ≡ length a.now }
    requires within { k ≤ length a.now }
    ensures { out.new ≡ rotated (length a.now) k a.now }
{
    let (first, last) = a.split_at(a.len() - k);
    let (front, back) = out.split_at_mut(k);
    turn_over(last, front);
    words::copy(first, back);
}

// The amount N + k: the last k words come to the front, copied; the others are complemented behind them.
fn rotate_high(a: &[u32], k: usize, out: &mut [u32])
    requires same { length out.old ≡ length a.now }
    requires within { k ≤ length a.now }
    ensures { out.new ≡ rotated (length a.now) (length a.now + k) a.now }
{
    let (first, last) = a.split_at(a.len() - k);
    let (front, back) = out.split_at_mut(k);
    words::copy(last, front);
    turn_over(first, back);
}

// Either, by the amount.
fn rotate_into(a: &[u32], k: usize, out: &mut [u32])
    requires same { length out.old ≡ length a.now }
    requires within { k ≤ length a.now + length a.now }
    ensures { out.new ≡ rotated (length a.now) k a.now }
{
    if k <= a.len() {
        rotate_low(a, k, out);
    } else {
        rotate_high(a, k - a.len(), out);
    }
}

/// X^k · a: places move by k modulo 2N, and a coefficient that ends in the upper half is complemented. Refusals: 1, 2 where a or out has not N words, 3 for an amount above 2N.
#[tactic(auto, unfolding(crate::specs::Rotate::rotate_number))]
pub fn poly_mul_with_x_k(p: Params, a: &[u32], k: Amount, out: &mut [u32]) -> Result<(), Refusal>
    ensures said { result ≡ outcome (answer (rotate_number p (length a.now) (length out.old) k.0)) }
    ensures written { out.new ≡ if_done (rotate_number p (length a.now) (length out.old) k.0) (rotated (size p) k.0 a.now) out.old }
{
    let n = params::check(p)?.sizes.size;
    Refusal::Length.unless(a.len() == n)?;
    Refusal::Length.unless(out.len() == n)?;
    Refusal::Index.unless(k.0 as usize <= n + n)?;
    rotate_into(a, k.0 as usize, out);
    Ok(())
}

// The amount of a mask word, the parameters checked: the steps nearest to it, below 2N. The sum wraps.
#[tactic(auto, using(crate::proofs::Amounts::half_power, crate::proofs::Amounts::step_power, crate::proofs::Amounts::step_pos), unfolding(crate::specs::Amount::mask_amount))]
fn mask_amount_in(p: Checked, x: Torus) -> Amount
    ensures { result.0 ≡ mask_amount p x.0 }
{
    let nbit = p.params.nbit;
    Amount(ring::add(x.0, ring::power(30 - nbit)) / ring::power(31 - nbit))
}

// b and half a step: in 64 bits, so that the sum does not wrap.
fn body_sum(b: u32, half: u32) -> u64
    ensures { result ≡ b + half }
{
    b as u64 + half as u64
}

// The amount of the last word, b, the parameters checked: 2N less the steps nearest to it, from 0 to 2N.
#[tactic(auto, using(crate::proofs::Amounts::half_power, crate::proofs::Amounts::step_power, crate::proofs::Amounts::step_pos, crate::proofs::Amounts::turn_power), unfolding(crate::specs::Amount::body_amount))]
fn body_amount_in(p: Checked, b: Torus) -> Amount
    ensures { result.0 ≡ body_amount p b.0 }
{
    let nbit = p.params.nbit;
    let half = ring::power(30 - nbit);
    let step = ring::power(31 - nbit) as u64;
    let turn = ring::power(nbit + 1) as u64;
    let k = turn - body_sum(b.0, half) / step;
    Amount(k as u32)
}

/// The amount of a mask word: the steps nearest to it, below 2N. Refusal 1.
pub fn mask_amount(p: Params, x: Torus) -> Result<Amount, Refusal>
    ensures { result ≡ rounded_to p (mask_amount p x.0) }
{
    Ok(mask_amount_in(params::check(p)?, x))
}

/// The amount of the last word, b: 2N less the steps nearest to it, from 0 to 2N. Refusal 1.
pub fn body_amount(p: Params, b: Torus) -> Result<Amount, Refusal>
    ensures { result ≡ rounded_to p (body_amount p b.0) }
{
    Ok(body_amount_in(params::check(p)?, b))
}
