#![tactic(auto)]
// What the two-input gates sum before they rotate, and the gates that need no rotation (src/gates.rs).
ghost use Rattle.std.specs.Prelude.{◌≡◌, ◌-◌, ◌*◌, ◌%◌, ◌<◌, length};
ghost use Rattle.ring.specs.Word.{Q, eighth};
ghost use Rattle.ring.specs.Centre.{word_of};
ghost use Rattle.ring.specs.Poly.{plus};
ghost use Rattle.ring.specs.Phase.{trivial};
ghost use Rattle.params.specs.Refusal.{answer, outcome};
ghost use Rattle.tlwe.specs.declared.Level.TheVariants.{Zero, One};
ghost use Rattle.tlwe.specs.Linear.{linear_number, linear_out};
ghost use Rattle.gate_sums.specs.Weights.{weights_of};
ghost use Rattle.gate_sums.specs.Sum.{summed, mux_sum};

use params::{Params, Refusal};
use tlwe::Level;

pub mod wires;

/// The two-input gates. What each sums and means stands in one table, specs/Kind.antt.
#[derive(Clone, Copy, Debug, PartialEq, Eq)]
pub enum Kind {
    Nand,
    Or,
    And,
    Nor,
    AndNy,
    AndYn,
    OrNy,
    OrYn,
    Xor,
    Xnor,
}

/// A kind's sum, as words: its multiples of a and b, and what is added to the last word.
#[derive(Clone, Copy, Debug, PartialEq, Eq)]
pub struct Weights {
    pub a: u32,
    pub b: u32,
    pub added: u32,
}

// An eighth of a turn.
const EIGHTH: u32 = 0x2000_0000;

// A row of the table: so many times a and b and so many eighths of a turn.
#[tactic(auto, using(crate::proofs::Sums::as_word))]
fn row(a: i32, b: i32, eighths: i32) -> Weights
    ensures { result ≡ record { a = word_of a; b = word_of b; added = word_of eighths * eighth % Q } }
{
    Weights {
        a: a.cast_unsigned(),
        b: b.cast_unsigned(),
        added: ring::mul(eighths.cast_unsigned(), EIGHTH),
    }
}

/// The table's row of a kind, in words.
#[tactic(auto, unfolding(crate::specs::Weights::weights_of))]
pub fn weights_of(kind: Kind) -> Weights
    ensures { result ≡ weights_of kind }
{
    match kind {
        Kind::Nand => row(-1, -1, 1),
        Kind::Or => row(1, 1, 1),
        Kind::And => row(1, 1, -1),
        Kind::Nor => row(-1, -1, -1),
        Kind::AndNy => row(-1, 1, -1),
        Kind::AndYn => row(1, -1, -1),
        Kind::OrNy => row(-1, 1, 1),
        Kind::OrYn => row(1, -1, 1),
        Kind::Xor => row(1, 2, 2),
        Kind::Xnor => row(1, -2, -2),
    }
}

// c added to the last word: a trivial sample added.
fn add_last(c: u32, out: &mut [u32])
    requires { 0 < length out.old }
    ensures { out.new ≡ plus (length out.old) out.old (trivial (length out.old - 1) c) }
{
    let last = out.len() - 1;
    out[last] = ring::add(out[last], c);
}

/// The sum of a kind, of two ciphertexts of level 0. Refusals: 1, 2.
pub fn sum(p: Params, kind: Kind, a: &[u32], b: &[u32], out: &mut [u32]) -> Result<(), Refusal>
    ensures said { result ≡ outcome (answer (linear_number p Zero (length a.now) (length b.now) (length out.old))) }
    ensures written { out.new ≡ linear_out p Zero a.now b.now out.old (summed p kind a.now b.now) }
{
    let w = weights_of(kind);
    tlwe::linear::combine(p, Level::Zero, a, w.a, b, w.b, out)?;
    add_last(w.added, out);
    Ok(())
}

/// The sum of `mux`, of two samples of level 1. Refusals: 1, 2.
pub fn mux_sum(p: Params, u: &[u32], v: &[u32], out: &mut [u32]) -> Result<(), Refusal>
    ensures said { result ≡ outcome (answer (linear_number p One (length u.now) (length v.now) (length out.old))) }
    ensures written { out.new ≡ linear_out p One u.now v.now out.old (mux_sum p u.now v.now) }
{
    tlwe::linear::add(p, Level::One, u, v, out)?;
    add_last(EIGHTH, out);
    Ok(())
}
