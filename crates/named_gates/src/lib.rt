#![tactic(auto)]
// The ten gates by name, each `gates::gate` with its kind, and the choice a ? b : c (src/gates.rs).
ghost use Rattle.std.specs.Prelude.{◌≡◌, ◌+◌, length};
ghost use Rattle.params.specs.Refusal.{answer, outcome, given, if_done};
ghost use Rattle.params.specs.Ranges.{params_number};
ghost use Rattle.params.specs.Sizes.{size};
ghost use Rattle.gate_sums.specs.declared.Kind.TheVariants.{Nand, Or, And, Nor, AndNy, AndYn, OrNy, OrYn, Xor, Xnor};
ghost use Rattle.gate_sums.specs.Sum.{mux_sum};
ghost use Rattle.switching.specs.Switched.{switch_number, switched};
ghost use Rattle.gates.specs.Refusals.{gate_number, mux_number};
ghost use Rattle.gates.specs.Gate.{muxed, muxed_naive, gate_out, mux_out};

use gate_sums::Kind;
use params::{Checked, Params, Refusal};

// Each gate has a function of its own for `include/egl.h` and the Rust's callers; a macro writes no function with a contract.

/// Not (a and b). Refusals of this gate and of each below: 1, 2.
pub fn nand(
    p: Params,
    a: &[u32],
    b: &[u32],
    ksk: &[u32],
    bsk: &[u32],
    out: &mut [u32],
) -> Result<(), Refusal>
    ensures said { result ≡ outcome (answer (gate_number p (length a.now) (length b.now) (length ksk.now) (length bsk.now) (length out.old))) }
    ensures written { out.new ≡ gate_out p Nand a.now b.now ksk.now bsk.now out.old }
{
    gates::gate(p, Kind::Nand, a, b, ksk, bsk, out)
}

/// a or b.
pub fn or(
    p: Params,
    a: &[u32],
    b: &[u32],
    ksk: &[u32],
    bsk: &[u32],
    out: &mut [u32],
) -> Result<(), Refusal>
    ensures said { result ≡ outcome (answer (gate_number p (length a.now) (length b.now) (length ksk.now) (length bsk.now) (length out.old))) }
    ensures written { out.new ≡ gate_out p Or a.now b.now ksk.now bsk.now out.old }
{
    gates::gate(p, Kind::Or, a, b, ksk, bsk, out)
}

/// a and b.
pub fn and(
    p: Params,
    a: &[u32],
    b: &[u32],
    ksk: &[u32],
    bsk: &[u32],
    out: &mut [u32],
) -> Result<(), Refusal>
    ensures said { result ≡ outcome (answer (gate_number p (length a.now) (length b.now) (length ksk.now) (length bsk.now) (length out.old))) }
    ensures written { out.new ≡ gate_out p And a.now b.now ksk.now bsk.now out.old }
{
    gates::gate(p, Kind::And, a, b, ksk, bsk, out)
}

/// Not (a or b).
pub fn nor(
    p: Params,
    a: &[u32],
    b: &[u32],
    ksk: &[u32],
    bsk: &[u32],
    out: &mut [u32],
) -> Result<(), Refusal>
    ensures said { result ≡ outcome (answer (gate_number p (length a.now) (length b.now) (length ksk.now) (length bsk.now) (length out.old))) }
    ensures written { out.new ≡ gate_out p Nor a.now b.now ksk.now bsk.now out.old }
{
    gates::gate(p, Kind::Nor, a, b, ksk, bsk, out)
}

/// (not a) and b.
pub fn and_ny(
    p: Params,
    a: &[u32],
    b: &[u32],
    ksk: &[u32],
    bsk: &[u32],
    out: &mut [u32],
) -> Result<(), Refusal>
    ensures said { result ≡ outcome (answer (gate_number p (length a.now) (length b.now) (length ksk.now) (length bsk.now) (length out.old))) }
    ensures written { out.new ≡ gate_out p AndNy a.now b.now ksk.now bsk.now out.old }
{
    gates::gate(p, Kind::AndNy, a, b, ksk, bsk, out)
}

/// a and (not b).
pub fn and_yn(
    p: Params,
    a: &[u32],
    b: &[u32],
    ksk: &[u32],
    bsk: &[u32],
    out: &mut [u32],
) -> Result<(), Refusal>
    ensures said { result ≡ outcome (answer (gate_number p (length a.now) (length b.now) (length ksk.now) (length bsk.now) (length out.old))) }
    ensures written { out.new ≡ gate_out p AndYn a.now b.now ksk.now bsk.now out.old }
{
    gates::gate(p, Kind::AndYn, a, b, ksk, bsk, out)
}

/// (not a) or b.
pub fn or_ny(
    p: Params,
    a: &[u32],
    b: &[u32],
    ksk: &[u32],
    bsk: &[u32],
    out: &mut [u32],
) -> Result<(), Refusal>
    ensures said { result ≡ outcome (answer (gate_number p (length a.now) (length b.now) (length ksk.now) (length bsk.now) (length out.old))) }
    ensures written { out.new ≡ gate_out p OrNy a.now b.now ksk.now bsk.now out.old }
{
    gates::gate(p, Kind::OrNy, a, b, ksk, bsk, out)
}

/// a or (not b).
pub fn or_yn(
    p: Params,
    a: &[u32],
    b: &[u32],
    ksk: &[u32],
    bsk: &[u32],
    out: &mut [u32],
) -> Result<(), Refusal>
    ensures said { result ≡ outcome (answer (gate_number p (length a.now) (length b.now) (length ksk.now) (length bsk.now) (length out.old))) }
    ensures written { out.new ≡ gate_out p OrYn a.now b.now ksk.now bsk.now out.old }
{
    gates::gate(p, Kind::OrYn, a, b, ksk, bsk, out)
}

/// a xor b.
pub fn xor(
    p: Params,
    a: &[u32],
    b: &[u32],
    ksk: &[u32],
    bsk: &[u32],
    out: &mut [u32],
) -> Result<(), Refusal>
    ensures said { result ≡ outcome (answer (gate_number p (length a.now) (length b.now) (length ksk.now) (length bsk.now) (length out.old))) }
    ensures written { out.new ≡ gate_out p Xor a.now b.now ksk.now bsk.now out.old }
{
    gates::gate(p, Kind::Xor, a, b, ksk, bsk, out)
}

/// a xor b too, and not its negation: that is what the Rust's `xnor` computes (gate_sums, specs/Kind.antt).
pub fn xnor(
    p: Params,
    a: &[u32],
    b: &[u32],
    ksk: &[u32],
    bsk: &[u32],
    out: &mut [u32],
) -> Result<(), Refusal>
    ensures said { result ≡ outcome (answer (gate_number p (length a.now) (length b.now) (length ksk.now) (length bsk.now) (length out.old))) }
    ensures written { out.new ≡ gate_out p Xnor a.now b.now ksk.now bsk.now out.old }
{
    gates::gate(p, Kind::Xnor, a, b, ksk, bsk, out)
}

// The checks of `mux` and `mux_naive`.
#[tactic(auto, unfolding(gates::specs::Refusals::mux_number))]
fn mux_checks(
    p: Params,
    a: &[u32],
    b: &[u32],
    c: &[u32],
    ksk: &[u32],
    bsk: &[u32],
    out: &[u32],
) -> Result<Checked, Refusal>
    ensures { result ≡ given (answer (mux_number p (length a.now) (length b.now) (length c.now) (length ksk.now) (length bsk.now) (length out.now))) p }
{
    let p = params::check(p)?;
    Refusal::Length.unless(a.len() == p.sizes.level0)?;
    Refusal::Length.unless(b.len() == p.sizes.level0)?;
    Refusal::Length.unless(c.len() == p.sizes.level0)?;
    Refusal::Length.unless(ksk.len() == p.sizes.ksk)?;
    Refusal::Length.unless(bsk.len() == p.sizes.bsk)?;
    Refusal::Length.unless(out.len() == p.sizes.level0)?;
    Ok(p)
}

// The sum of two samples of level 1, switched. In a function of its own, so that its scratch is not there while the samples are made: they take the most stack.
#[inline(never)]
fn switch_sum(p: Params, u: &[u32], v: &[u32], ksk: &[u32], out: &mut [u32]) -> Result<(), Refusal>
    requires good { params_number p ≡ 0 }
    requires first { length u.now ≡ size p + 1 }
    requires second { length v.now ≡ size p + 1 }
    ensures said { result ≡ outcome (answer (switch_number p (size p + 1) (length ksk.now) (length out.old))) }
    ensures written { out.new ≡ if_done (switch_number p (size p + 1) (length ksk.now) (length out.old)) (switched p ksk.now (mux_sum p u.now v.now)) out.old }
{
    let mut sum = [0u32; 1025];
    let sum = &mut sum[..u.len()];
    gate_sums::mux_sum(p, u, v, sum)?;
    switching::identity_key_switching(p, sum, ksk, out)
}

/// a ? b : c, with two rotations and one key switching: two samples of level 1, their sum, and the switching of that. Refusals: 1, 2.
pub fn mux(
    p: Params,
    a: &[u32],
    b: &[u32],
    c: &[u32],
    ksk: &[u32],
    bsk: &[u32],
    out: &mut [u32],
) -> Result<(), Refusal>
    ensures said { result ≡ outcome (answer (mux_number p (length a.now) (length b.now) (length c.now) (length ksk.now) (length bsk.now) (length out.old))) }
    ensures written { out.new ≡ mux_out muxed p a.now b.now c.now ksk.now bsk.now out.old }
{
    let words = mux_checks(p, a, b, c, ksk, bsk, out)?.sizes.level1;
    let (mut u, mut v) = ([0u32; 1025], [0u32; 1025]);
    let (u, v) = (&mut u[..words], &mut v[..words]);
    samples::sample(p, Kind::And, a, b, bsk, u)?;
    samples::sample(p, Kind::AndNy, a, c, bsk, v)?;
    switch_sum(p, u, v, ksk, out)
}

/// a ? b : c by three gates, or(and(a, b), and(not a, c)). Refusals: 1, 2.
pub fn mux_naive(
    p: Params,
    a: &[u32],
    b: &[u32],
    c: &[u32],
    ksk: &[u32],
    bsk: &[u32],
    out: &mut [u32],
) -> Result<(), Refusal>
    ensures said { result ≡ outcome (answer (mux_number p (length a.now) (length b.now) (length c.now) (length ksk.now) (length bsk.now) (length out.old))) }
    ensures written { out.new ≡ mux_out muxed_naive p a.now b.now c.now ksk.now bsk.now out.old }
{
    mux_checks(p, a, b, c, ksk, bsk, out)?;
    let words = a.len();
    // not a, and then and(a, b) in its place
    let (mut u, mut v) = ([0u32; 1101], [0u32; 1101]);
    let (u, v) = (&mut u[..words], &mut v[..words]);
    gate_sums::wires::not(p, a, u)?;
    gates::gate(p, Kind::And, u, c, ksk, bsk, v)?;
    gates::gate(p, Kind::And, a, b, ksk, bsk, u)?;
    gates::gate(p, Kind::Or, u, v, ksk, bsk, out)
}
