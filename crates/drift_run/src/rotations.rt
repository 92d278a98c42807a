// What a rotation's turns tell of a gate (`turns`): on which side its rounded phase falls, and the drift that is brought into it.
ghost use Rattle.std.specs.Prelude.{◌≡◌, ◌+◌, ◌*◌, ◌%◌, length};
ghost use Rattle.ring.specs.Word.{Q};
ghost use Rattle.tlwe.specs.Plain.{bit_word};
ghost use Rattle.gate_sums.specs.Sum.{summed};
ghost use Rattle.drift.specs.PrivateWords.{rounding_word, brought_word};
ghost use Rattle.drift.specs.PrivateShort.{place_of, side_of};
ghost use Rattle.drift_run.specs.Private.{Secret};
ghost use Rattle.ring.specs.Phase.{phase_of};

use gate_sums::{Kind, Weights};
use params::Checked;
use tlwe::Level;
use turns::Rounded;

// The side of a rotation, and the drift brought into it.
#[derive(Clone, Copy)]
pub(crate) struct Turned {
    pub side: bool,
    pub brought: u32,
}

// ±0.125 of a turn.
#[tactic(auto, unfolding(ring::specs::Word::Q))]
pub(crate) fn bit_word(bit: bool) -> u32
    ensures { result ≡ bit_word bit }
{
    if bit { 0x2000_0000 } else { 0xE000_0000 }
}

// The multiples of x and y.
fn weighted(w: Weights, x: u32, y: u32) -> u32
    ensures { result ≡ (w.a * x + w.b * y) % Q }
{
    ring::add(ring::mul(w.a, x), ring::mul(w.b, y))
}

// The phase of a ciphertext under the secret key.
pub(crate) fn phase(p: Checked, key: &[u32], c: &[u32]) -> u32
    requires { Secret p key.now × (length c.now ≡ p.n + 1) }
    ensures { result ≡ phase_of p.n key.now c.now }
{
    tlwe::keys::phase_of(p.params, Level::Zero, c, key)
        .unwrap()
        .0
}

// What the turns of the rotation of a kind's sum of a and b tell, sum being scratch for it.
fn front_of(p: Checked, kind: Kind, key: &[u32], a: &[u32], b: &[u32], sum: &mut [u32]) -> Rounded
    requires { Secret p key.now × (length a.now ≡ p.n + 1) × (length b.now ≡ p.n + 1) × (length sum.old ≡ p.n + 1) }
    ensures place { result.place ≡ place_of p key.now (summed p kind a.now b.now) }
    ensures rounding { result.rounding.0 ≡ rounding_word p key.now (summed p kind a.now b.now) }
{
    gate_sums::sum(p.params, kind, a, b, sum).unwrap();
    turns::front(p.params, key, sum).unwrap()
}

// The rotation of a kind's sum of a and b, whose drifts are da and db. Scratch: 4.4 KB.
pub(crate) fn rotation(
    p: Checked,
    kind: Kind,
    key: &[u32],
    a: &[u32],
    b: &[u32],
    da: u32,
    db: u32,
) -> Turned
    requires { Secret p key.now × (length a.now ≡ p.n + 1) × (length b.now ≡ p.n + 1) }
    ensures side { result.side ≡ side_of p key.now (summed p kind a.now b.now) }
    ensures brought { result.brought ≡ brought_word p kind key.now (summed p kind a.now b.now) da db }
{
    let words = p.sizes.level0;
    let size = p.sizes.size;
    let mut sum = [0u32; 1101];
    let front = front_of(p, kind, key, a, b, &mut sum[..words]);
    let rounding = front.rounding;
    Turned {
        side: (front.place as usize) < size,
        brought: ring::add(weighted(gate_sums::weights_of(kind), da, db), rounding.0),
    }
}
