#![tactic(auto)]
// Doubles and the torus (src/utils.rs): words of 32 bits that count 2^-32 of a turn.
ghost use Rattle.std.specs.Prelude.{◌≡◌, false, length};
ghost use Rattle.std.specs.Float.Ieee.Exact.{HasValue};
ghost use Rattle.ring.specs.Word.{Q};
ghost use Rattle.params.specs.Refusal.{answer, outcome, if_done};
ghost use Rattle.utils.specs.Torus.{word, words_of_doubles, vec_number};
ghost use Rattle.utils.specs.Private.{IsFraction, IsScaledFraction};

use params::Refusal;
use std::num::truncating_f64_to_u64;

/// A word: it counts 2^-32 of a turn (`Torus` of src/params.rs).
#[derive(Clone, Copy)]
pub struct Torus(pub u32);

/// A rotation amount: it counts steps of a 2N-th of a turn (`a_tilda` of src/trgsw.rs). Both are numbers of 32 bits, and one turn is 2^32 of the
/// first and 2N of the second, so they are two types: neither may stand where the other is wanted (01, params and utils).
#[derive(Clone, Copy)]
pub struct Amount(pub u32);

// d % 1.0: the fraction of d, with d's sign, and nothing is rounded. `%` itself would ask for a newer C library where Rattle's own compiler makes
// the program (fmod). `fract` gives 0 for a whole d of either sign, and so the sign is put back. A NaN has none that may be read.
fn fraction(d: f64) -> f64
    ensures { IsFraction d result }
{
    if d.is_nan() {
        return d;
    }
    d.fract().copysign(d)
}

// 2^32 times that fraction: nothing is rounded here either.
fn scaled_fraction(d: f64) -> f64
    ensures { IsScaledFraction d result }
{
    fraction(d) * 4294967296.0
}

/// The word of a double: the fraction of d, times 2^32, cut toward zero, modulo 2^32. A NaN and the infinities give 0.
/// The Rust cuts to a signed number. Here the size is cut and the word negated where d is negative, which is the same cut.
pub fn f64_to_torus(d: f64) -> Torus
    ensures { result.0 ≡ word d }
{
    let p = scaled_fraction(d);
    if p.is_nan() {
        Torus(0)
    } else if p < 0.0 {
        Torus(ring::negated(truncating_f64_to_u64(-p) as u32))
    } else {
        Torus(truncating_f64_to_u64(p) as u32)
    }
}

/// t / 2^32, exactly: the fraction of a turn that the word stands for.
pub fn torus_to_f64(t: Torus) -> f64
    ensures { HasValue result false t.0 Q }
{
    f64::from(t.0) / 4294967296.0
}

/// The word of each double of d into the same place of out. Refused with 2, and nothing is written, where their lengths differ.
#[tactic(auto, using(ring::proofs::Tab::tab_none, ring::proofs::Tab::tab_more))]
pub fn f64_to_torus_vec(d: &[f64], out: &mut [u32]) -> Result<(), Refusal>
    ensures said { result ≡ outcome (answer (vec_number (length d.now) (length out.old))) }
    ensures written { out.new ≡ if_done (vec_number (length d.now) (length out.old)) (words_of_doubles d.now) out.old }
{
    Refusal::Length.unless(d.len() == out.len())?;
    for (i, x) in d.iter().enumerate() {
        out[i] = f64_to_torus(*x).0;
    }
    Ok(())
}
