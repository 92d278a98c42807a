// A gate's drift by its way (`drift`, specs/PrivateShort.antt), and what is told of the drifts brought into its rotations.
ghost use Rattle.std.specs.Prelude.{◌≡◌, cond, [], ◌∷◌, ◌+◌, ◌%◌, length};
ghost use Rattle.ring.specs.Word.{Q, neg};
ghost use Rattle.tlwe.specs.Plain.{bit_word};
ghost use Rattle.gate_sums.specs.declared.Kind.TheVariants.{And, AndNy};
ghost use Rattle.gate_sums.specs.Sum.{summed};
ghost use Rattle.ways.specs.declared.Way.TheVariants.{Gate, NegatedGate, Choice};
ghost use Rattle.drift.specs.PrivateWords.{brought_word};
ghost use Rattle.drift.specs.PrivateCircuit.{way_brought_words};
ghost use Rattle.drift.specs.PrivateShort.{short_word};
ghost use Rattle.drift_run.specs.Private.{Secret, drifted};

use crate::rotations::{bit_word, phase, rotation};
use drift_size::{is_inside, worse};
use gate_sums::Kind;
use params::Checked;
use ways::Way;

// A gate's drift; whether all that is brought into its rotations is inside; and which of that is largest in absolute value.
#[derive(Clone, Copy)]
pub(crate) struct Drifted {
    pub drift: u32,
    pub inside: bool,
    pub worst: u32,
}

// A drift, and what was brought into the rotations on the way to it.
pub(crate) fn gathered(drift: u32, brought: &[u32]) -> Drifted
    ensures { result ≡ drifted drift brought.now }
{
    Drifted {
        drift,
        inside: brought.iter().all(|d| is_inside(*d)),
        worst: brought.iter().fold(0, |w, d| worse(w, *d)),
    }
}

// The drift of a known bit: false has 1, true 0.
fn known(bit: bool) -> u32
    ensures { result ≡ cond bit 0 1 }
{
    if bit { 0 } else { 1 }
}

// The word that a rotation puts into a two-input gate's ciphertext, by its side and by whether the gate's result is negated.
fn carried(side: bool, negated: bool) -> u32
    ensures { result ≡ cond negated (neg (bit_word side) % Q) (bit_word side) }
{
    if negated {
        return ring::negated(bit_word(side));
    }
    bit_word(side)
}

// The drift of a two-input gate whose ciphertext is own, its result negated or not.
fn one(
    p: Checked,
    kind: Kind,
    negated: bool,
    key: &[u32],
    a: &[u32],
    b: &[u32],
    own: &[u32],
    da: u32,
    db: u32,
) -> Drifted
    requires { Secret p key.now × (length a.now ≡ p.n + 1) × (length b.now ≡ p.n + 1) × (length own.now ≡ p.n + 1) }
    ensures { result ≡ drifted (short_word p key.now (cond negated (NegatedGate kind) (Gate kind)) a.now b.now b.now da own.now) (brought_word p kind key.now (summed p kind a.now b.now) da db ∷ []) }
{
    let t = rotation(p, kind, key, a, b, da, db);
    let drift = ring::sub(phase(p, key, own), carried(t.side, negated));
    gathered(drift, &[t.brought])
}

// The drift of `mux`, which carries both sides and an eighth of a turn.
fn choice(
    p: Checked,
    key: &[u32],
    a: &[u32],
    b: &[u32],
    c: &[u32],
    own: &[u32],
    da: u32,
    db: u32,
    dc: u32,
) -> Drifted
    requires { Secret p key.now × (length a.now ≡ p.n + 1) × (length b.now ≡ p.n + 1) × (length c.now ≡ p.n + 1) × (length own.now ≡ p.n + 1) }
    ensures { result ≡ drifted (short_word p key.now Choice a.now b.now c.now da own.now) (brought_word p And key.now (summed p And a.now b.now) da db ∷ brought_word p AndNy key.now (summed p AndNy a.now c.now) da dc ∷ []) }
{
    let t = rotation(p, Kind::And, key, a, b, da, db);
    let u = rotation(p, Kind::AndNy, key, a, c, da, dc);
    let sides = ring::add(bit_word(t.side), bit_word(u.side));
    let drift = ring::sub(phase(p, key, own), ring::add(sides, 0x2000_0000));
    gathered(drift, &[t.brought, u.brought])
}

// The drift of a way on operands a, b and c with their drifts, its ciphertext being own.
pub(crate) fn way_drift(
    p: Checked,
    way: Way,
    key: &[u32],
    a: &[u32],
    b: &[u32],
    c: &[u32],
    own: &[u32],
    da: u32,
    db: u32,
    dc: u32,
) -> Drifted
    requires { Secret p key.now × (length a.now ≡ p.n + 1) × (length b.now ≡ p.n + 1) × (length c.now ≡ p.n + 1) × (length own.now ≡ p.n + 1) }
    ensures { result ≡ drifted (short_word p key.now way a.now b.now c.now da own.now) (way_brought_words p key.now way a.now b.now c.now da db dc) }
{
    match way {
        Way::Known(bit) => gathered(known(bit), &[]),
        Way::Negated => gathered(ring::negated(da), &[]),
        Way::Gate(kind) => one(p, kind, false, key, a, b, own, da, db),
        Way::NegatedGate(kind) => one(p, kind, true, key, a, b, own, da, db),
        Way::Choice => choice(p, key, a, b, c, own, da, db, dc),
    }
}
