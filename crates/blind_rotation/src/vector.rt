// The blind rotation of a lent test vector (src/trgsw.rs, `blind_rotate_with_testvec`), as lookup tables need it (02, 2026-07).
ghost use Rattle.std.specs.Prelude.{◌≡◌, ◌+◌, length};
ghost use Rattle.params.specs.Refusal.{answer, outcome};
ghost use Rattle.params.specs.Sizes.{size, bootstrapping_words};
ghost use Rattle.blind_rotation.specs.Blind.{blind_rotated};
ghost use Rattle.blind_rotation.specs.Private.{Whole};
ghost use Rattle.blind_rotation.specs.Refusals.{vector_number, vector_out};

use crate::rotate_from;
use params::{Checked, Params, Refusal};

// The lent vector rotated, with the scratch lent: its copy there is what is rotated.
#[tactic(auto, using(words::proofs::Loops::copied_all))]
fn rotate_copy(
    p: Checked,
    src: &[u32],
    va: &[u32],
    vb: &[u32],
    key: &[u32],
    ta: &mut [u32],
    tb: &mut [u32],
    a: &mut [u32],
    b: &mut [u32],
)
    requires source { length src.now ≡ p.n + 1 }
    requires vector { Whole p va.now vb.now }
    requires rows { length key.now ≡ bootstrapping_words p }
    requires scratch { Whole p ta.old tb.old }
    requires accumulator { Whole p a.old b.old }
    ensures { record { a = a.new; b = b.new } ≡ blind_rotated p key.now src.now (record { a = va.now; b = vb.now }) }
{
    words::copy(va, ta);
    words::copy(vb, tb);
    rotate_from(p, src, key, ta, tb, a, b);
}

// The same with its scratch, two polynomials, as for the gates' vector.
#[tactic(auto, using(crate::proofs::Steps::room, crate::proofs::Steps::lent, crate::proofs::Steps::both_lent))]
fn put_rotated(
    p: Checked,
    src: &[u32],
    va: &[u32],
    vb: &[u32],
    key: &[u32],
    a: &mut [u32],
    b: &mut [u32],
)
    requires source { length src.now ≡ p.n + 1 }
    requires vector { Whole p va.now vb.now }
    requires rows { length key.now ≡ bootstrapping_words p }
    requires accumulator { Whole p a.old b.old }
    ensures { record { a = a.new; b = b.new } ≡ blind_rotated p key.now src.now (record { a = va.now; b = vb.now }) }
{
    let n = p.sizes.size;
    let mut ta = [0u32; 1024];
    let mut tb = [0u32; 1024];
    rotate_copy(p, src, va, vb, key, &mut ta[..n], &mut tb[..n], a, b);
}

/// The lent vector (va, vb) rotated by the level-0 ciphertext src, into (a, b): what `blind_rotate` does to the gates' vector. Refusals: 1, 2.
#[tactic(auto, using(crate::proofs::Steps::first_is, crate::proofs::Steps::second_is), unfolding(crate::specs::Refusals::vector_number))]
pub fn blind_rotate_with_testvec(
    p: Params,
    src: &[u32],
    va: &[u32],
    vb: &[u32],
    key: &[u32],
    a: &mut [u32],
    b: &mut [u32],
) -> Result<(), Refusal>
    ensures said { result ≡ outcome (answer (vector_number p (length src.now) (length va.now) (length vb.now) (length key.now) (length a.old) (length b.old))) }
    ensures first { a.new ≡ (vector_out p src.now (record { a = va.now; b = vb.now }) key.now (record { a = a.old; b = b.old })).a }
    ensures second { b.new ≡ (vector_out p src.now (record { a = va.now; b = vb.now }) key.now (record { a = a.old; b = b.old })).b }
{
    let p = params::check(p)?;
    let s = p.sizes;
    Refusal::Length.unless(va.len() == s.size)?;
    Refusal::Length.unless(vb.len() == s.size)?;
    Refusal::Length.unless(src.len() == s.level0)?;
    Refusal::Length.unless(key.len() == s.bsk)?;
    Refusal::Length.unless(a.len() == s.size)?;
    Refusal::Length.unless(b.len() == s.size)?;
    put_rotated(p, src, va, vb, key, a, b);
    Ok(())
}
