// The gates that need no rotation: `not`, `copy` and `constant` of src/gates.rs.
ghost use Rattle.std.specs.Prelude.{◌≡◌, ◌+◌, ◌-◌, ◌<◌, length};
ghost use Rattle.ring.specs.Phase.{trivial};
ghost use Rattle.params.specs.Refusal.{answer, outcome, if_done};
ghost use Rattle.tlwe.specs.declared.Level.TheVariants.{Zero};
ghost use Rattle.tlwe.specs.Linear.{linear_number, negative};
ghost use Rattle.gate_sums.specs.Sum.{constant_word, constant_of, constant_number};

use crate::EIGHTH;
use params::{Params, Refusal};
use tlwe::Level;

/// Each word negated: `Neg` of src/tlwe.rs, so no rotation is needed. Refusals: 1, 2.
pub fn not(p: Params, a: &[u32], out: &mut [u32]) -> Result<(), Refusal>
    ensures said { result ≡ outcome (answer (linear_number p Zero (length a.now) (length a.now) (length out.old))) }
    ensures written { out.new ≡ if_done (linear_number p Zero (length a.now) (length a.now) (length out.old)) (negative (p.n + 1) a.now) out.old }
{
    tlwe::linear::neg(p, Level::Zero, a, out)
}

/// A copy of a ciphertext. Refusals: 1, 2.
#[tactic(auto, using(words::proofs::Loops::copied_all), unfolding(tlwe::specs::Linear::linear_number))]
pub fn copy(p: Params, a: &[u32], out: &mut [u32]) -> Result<(), Refusal>
    ensures said { result ≡ outcome (answer (linear_number p Zero (length a.now) (length a.now) (length out.old))) }
    ensures written { out.new ≡ if_done (linear_number p Zero (length a.now) (length a.now) (length out.old)) a.now out.old }
{
    let words = params::check(p)?.sizes.level0;
    Refusal::Length.unless(a.len() == words)?;
    Refusal::Length.unless(out.len() == words)?;
    words::copy(a, out);
    Ok(())
}

// The last word of a constant. False is 1 - 2^29, wrapping, and not -2^29.
#[tactic(auto, unfolding(ring::specs::Word::Q))]
fn constant_word(value: bool) -> u32
    ensures { result ≡ constant_word value }
{
    if value { EIGHTH } else { 0xE000_0001 }
}

// The trivial sample of c: masks zero, and c in the last place.
fn constant_into(c: u32, out: &mut [u32])
    requires { 0 < length out.old }
    ensures { out.new ≡ trivial (length out.old - 1) c }
{
    words::fill(0, out);
    let last = out.len() - 1;
    out[last] = c;
}

/// A ciphertext of a known bit, which any key decrypts. Refusals: 1, 2.
#[tactic(auto, unfolding(crate::specs::Sum::constant_number, crate::specs::Sum::constant_of))]
pub fn constant(p: Params, value: bool, out: &mut [u32]) -> Result<(), Refusal>
    ensures said { result ≡ outcome (answer (constant_number p (length out.old))) }
    ensures written { out.new ≡ if_done (constant_number p (length out.old)) (constant_of p value) out.old }
{
    Refusal::Length.unless(out.len() == params::check(p)?.sizes.level0)?;
    constant_into(constant_word(value), out);
    Ok(())
}
