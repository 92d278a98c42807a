// Sums and multiples of ciphertexts, word by word, into a lent slice: `Add`, `Sub`, `Neg`, `AddMul` and `SubMul` of src/tlwe.rs, each one call of
// `combine`. `Mul` is not taken (01).
ghost use Rattle.std.specs.Prelude.{◌≡◌, ◌+◌, ◌-◌, ◌*◌, ◌%◌, ◌≤◌, ◌<◌, length};
ghost use Rattle.ring.specs.Word.{Q, at, neg};
ghost use Rattle.ring.specs.Sums.{tab};
ghost use Rattle.ring.specs.Poly.{plus, minus, scale};
ghost use Rattle.params.specs.Refusal.{answer, outcome};
ghost use Rattle.tlwe.specs.Level.{cipher_words};
ghost use Rattle.tlwe.specs.Linear.{linear_number, linear_out, negative};

use super::Level;
use params::{Params, Refusal};

// x · u + y · v, modulo 2^32.
#[tactic(auto, unfolding(ring::specs::Word::Q))]
fn weighted(u: u32, x: u32, v: u32, y: u32) -> u32
    ensures { result ≡ (x * u + y * v) % Q }
{
    ring::add(ring::mul(x, u), ring::mul(y, v))
}

// The loop of every operation here.
fn combine_into(a: &[u32], x: u32, b: &[u32], y: u32, out: &mut [u32])
    requires { (length a.now ≡ length out.old) × (length b.now ≡ length out.old) }
    ensures { out.new ≡ plus (length out.old) (scale (length out.old) x a.now) (scale (length out.old) y b.now) }
{
    for (i, o) in out.iter_mut().enumerate() {
        *o = weighted(a[i], x, b[i], y);
    }
}

/// x · a + y · b, word by word. Refused with 2 unless each slice has the words of a ciphertext, and then out stays as it was.
#[tactic(auto, unfolding(crate::specs::Linear::linear_number))]
pub fn combine(
    p: Params,
    level: Level,
    a: &[u32],
    x: u32,
    b: &[u32],
    y: u32,
    out: &mut [u32],
) -> Result<(), Refusal>
    ensures said { result ≡ outcome (answer (linear_number p level (length a.now) (length b.now) (length out.old))) }
    ensures written { out.new ≡ linear_out p level a.now b.now out.old (plus (cipher_words p level) (scale (cipher_words p level) x a.now) (scale (cipher_words p level) y b.now)) }
{
    let words = level.words(params::check(p)?);
    Refusal::Length.unless(a.len() == words)?;
    Refusal::Length.unless(b.len() == words)?;
    Refusal::Length.unless(out.len() == words)?;
    combine_into(a, x, b, y, out);
    Ok(())
}

/// a + b.
#[tactic(auto, using(crate::proofs::Sums::add_combined))]
pub fn add(p: Params, level: Level, a: &[u32], b: &[u32], out: &mut [u32]) -> Result<(), Refusal>
    ensures said { result ≡ outcome (answer (linear_number p level (length a.now) (length b.now) (length out.old))) }
    ensures written { out.new ≡ linear_out p level a.now b.now out.old (plus (cipher_words p level) a.now b.now) }
{
    combine(p, level, a, 1, b, 1, out)
}

/// a - b.
#[tactic(auto, using(crate::proofs::Sums::sub_combined))]
pub fn sub(p: Params, level: Level, a: &[u32], b: &[u32], out: &mut [u32]) -> Result<(), Refusal>
    ensures said { result ≡ outcome (answer (linear_number p level (length a.now) (length b.now) (length out.old))) }
    ensures written { out.new ≡ linear_out p level a.now b.now out.old (minus (cipher_words p level) a.now b.now) }
{
    combine(p, level, a, 1, b, u32::MAX, out)
}

/// -a: each word negated, not complemented.
#[tactic(auto, using(crate::proofs::Sums::neg_combined))]
pub fn neg(p: Params, level: Level, a: &[u32], out: &mut [u32]) -> Result<(), Refusal>
    ensures said { result ≡ outcome (answer (linear_number p level (length a.now) (length a.now) (length out.old))) }
    ensures written { out.new ≡ linear_out p level a.now a.now out.old (negative (cipher_words p level) a.now) }
{
    combine(p, level, a, u32::MAX, a, 0, out)
}

/// a + multiplier · b.
#[tactic(auto, using(crate::proofs::Sums::add_mul_combined))]
pub fn add_mul(
    p: Params,
    level: Level,
    a: &[u32],
    b: &[u32],
    multiplier: u32,
    out: &mut [u32],
) -> Result<(), Refusal>
    ensures said { result ≡ outcome (answer (linear_number p level (length a.now) (length b.now) (length out.old))) }
    ensures written { out.new ≡ linear_out p level a.now b.now out.old (plus (cipher_words p level) a.now (scale (cipher_words p level) multiplier b.now)) }
{
    combine(p, level, a, 1, b, multiplier, out)
}

/// a - multiplier · b.
#[tactic(auto, using(crate::proofs::Sums::sub_mul_combined))]
pub fn sub_mul(
    p: Params,
    level: Level,
    a: &[u32],
    b: &[u32],
    multiplier: u32,
    out: &mut [u32],
) -> Result<(), Refusal>
    ensures said { result ≡ outcome (answer (linear_number p level (length a.now) (length b.now) (length out.old))) }
    ensures written { out.new ≡ linear_out p level a.now b.now out.old (minus (cipher_words p level) a.now (scale (cipher_words p level) multiplier b.now)) }
{
    combine(p, level, a, 1, b, ring::negated(multiplier), out)
}
