#![tactic(auto)]
// What a gate switches (src/bootstrap/vanilla.rs, before the key switching): the sum of its ciphertexts, rotated, and extracted at 0. The decomposition offset
// and the test vector are worked out on the way and never lent (01, key).
ghost use Rattle.std.specs.Prelude.{◌≡◌, ◌+◌, length};
ghost use Rattle.params.specs.Refusal.{answer, outcome};
ghost use Rattle.params.specs.Sizes.{size, bootstrapping_words};
ghost use Rattle.gate_sums.specs.Sum.{summed};
ghost use Rattle.samples.specs.Sample.{rotated_sample, sample_number, sample_out};

use gate_sums::Kind;
use params::{Checked, Params, Refusal};

// The sum of a and b in the scratch sum, rotated into (ra, rb), and extracted at 0. The callees refuse nothing: the parameters are checked, and the lengths are theirs.
fn sample_on(
    p: Checked,
    kind: Kind,
    a: &[u32],
    b: &[u32],
    bsk: &[u32],
    sum: &mut [u32],
    ra: &mut [u32],
    rb: &mut [u32],
    out: &mut [u32],
)
    requires first { length a.now ≡ p.n + 1 }
    requires second { length b.now ≡ p.n + 1 }
    requires rows { length bsk.now ≡ bootstrapping_words p }
    requires scratch { (length sum.old ≡ p.n + 1) × (length ra.old ≡ size p) × (length rb.old ≡ size p) }
    requires into { length out.old ≡ size p + 1 }
    ensures { out.new ≡ rotated_sample p bsk.now (summed p kind a.now b.now) }
{
    let _ = gate_sums::sum(p.params, kind, a, b, sum);
    let _ = blind_rotation::blind_rotate(p.params, sum, bsk, ra, rb);
    let _ = trlwe::sample_extract_index(p.params, ra, rb, 0, out);
}

// The same with its scratch: 12.3 KB.
#[tactic(auto, using(crate::proofs::Chain::sum_room, crate::proofs::Chain::sum_lent, crate::proofs::Chain::all_lent, blind_rotation::proofs::Steps::room, blind_rotation::proofs::Steps::lent))]
fn put_sample(p: Checked, kind: Kind, a: &[u32], b: &[u32], bsk: &[u32], out: &mut [u32])
    requires first { length a.now ≡ p.n + 1 }
    requires second { length b.now ≡ p.n + 1 }
    requires rows { length bsk.now ≡ bootstrapping_words p }
    requires into { length out.old ≡ size p + 1 }
    ensures { out.new ≡ rotated_sample p bsk.now (summed p kind a.now b.now) }
{
    let words = p.sizes.level0;
    let n = p.sizes.size;
    let mut sum = [0u32; 1101];
    let mut ra = [0u32; 1024];
    let mut rb = [0u32; 1024];
    sample_on(
        p,
        kind,
        a,
        b,
        bsk,
        &mut sum[..words],
        &mut ra[..n],
        &mut rb[..n],
        out,
    );
}

/// What a gate switches, at level 1: its kind's sum of a and b, rotated and extracted at 0. `mux` adds two of them. Refusals: 1, 2.
#[tactic(auto, unfolding(crate::specs::Sample::sample_number))]
pub fn sample(
    p: Params,
    kind: Kind,
    a: &[u32],
    b: &[u32],
    bsk: &[u32],
    out: &mut [u32],
) -> Result<(), Refusal>
    ensures said { result ≡ outcome (answer (sample_number p (length a.now) (length b.now) (length bsk.now) (length out.old))) }
    ensures written { out.new ≡ sample_out p kind a.now b.now bsk.now out.old }
{
    let p = params::check(p)?;
    let s = p.sizes;
    Refusal::Length.unless(a.len() == s.level0)?;
    Refusal::Length.unless(b.len() == s.level0)?;
    Refusal::Length.unless(bsk.len() == s.bsk)?;
    Refusal::Length.unless(out.len() == s.level1)?;
    put_sample(p, kind, a, b, bsk, out);
    Ok(())
}
