#![tactic(auto)]
// The drift run (01, Drift): an encrypted run whose secret keys and plain bits are lent too, so that each wire's drift is told and whether all that demand 3 names
// are inside. It stands above `encrypted_run`, and goes the short way to a drift (`drift`, specs/PrivateShort.antt): one phase a wire.
ghost use Rattle.std.specs.Prelude.{◌≡◌, true, ℕ, ◌<◌, length, Ok};
ghost use Rattle.circuit.specs.Form.{outputs};
ghost use Rattle.params.specs.Refusal.{answer, given};
ghost use Rattle.tlwe.specs.declared.Level.TheVariants.{Zero};
ghost use Rattle.tlwe.specs.Key.{keyed_number};
ghost use Rattle.ring.specs.Centre.{centre, word_of};
ghost use Rattle.drift.specs.Circuit.{all_inside};
ghost use Rattle.drift.specs.Whole.{inside, fresh_drift};
ghost use Rattle.drift_run.specs.Refusals.{drift_answer, drift_gate_answer};
ghost use Rattle.drift_run.specs.Run.{Decrypts, drift_wires_after, drift_outputs_after, drifts_after, gate_brought, brought_of, gate_wires_after, gate_drifts_after};

use params::{Params, Refusal};
use tlwe::Level;
use utils::Torus;

mod answers;
mod by_way;
mod gates_of;
mod rotations;

/// What is brought into the rotations of a gate: whether all of it is inside, and which of it is largest in absolute value.
#[derive(Clone, Copy)]
pub struct Brought {
    pub inside: bool,
    pub worst: Torus,
}

/// Is a drift inside: is its word, read as signed, below an eighth of a turn in absolute value?
#[tactic(auto, unfolding(drift::specs::Whole::inside, drift_size::specs::Size::inside_word))]
pub fn is_inside(drift: Torus) -> bool
    ensures { result ≡ inside (centre drift.0) }
{
    drift_size::is_inside(drift.0)
}

/// The fresh drift of the ciphertext c of a bit. Refusals: 1, 2, 4.
pub fn fresh_drift(p: Params, key: &[u32], c: &[u32], bit: bool) -> Result<Torus, Refusal>
    ensures { result ≡ given (answer (keyed_number p Zero (length c.now) key.now)) (record { 0 = word_of (fresh_drift p key.now c.now bit) }) }
{
    let phase = tlwe::keys::phase_of(p, Level::Zero, c, key)?;
    Ok(Torus(ring::sub(phase.0, rotations::bit_word(bit))))
}

/// Gate g of a drift run, the wires and drifts before it being there: its ciphertext and its drift into their places. Where the circuit has no gate g there is nothing to
/// do. Refusals: 1, 2, 4, 6 to 10, 2.
pub fn drift_gate(
    p: Params,
    ksk: &[u32],
    bsk: &[u32],
    key: &[u32],
    z: &[u32],
    bytes: &[u8],
    g: usize,
    wires: &mut [u32],
    drifts: &mut [u32],
) -> Result<Brought, Refusal>
    ensures said { result ≡ given (drift_gate_answer p (length ksk.now) (length bsk.now) key.now z.now bytes.now (length wires.old) (length drifts.old)) (brought_of (gate_brought p key.now bytes.now g wires.old drifts.old)) }
    ensures held { wires.new ≡ gate_wires_after p ksk.now bsk.now key.now z.now bytes.now g wires.old drifts.old }
    ensures written { drifts.new ≡ gate_drifts_after p ksk.now bsk.now key.now z.now bytes.now g wires.old drifts.old }
{
    let c = answers::gate_checks(
        p,
        ksk.len(),
        bsk.len(),
        key,
        z,
        bytes,
        wires.len(),
        drifts.len(),
    )?;
    let told = gates_of::one_or_none(c, ksk, bsk, key, bytes, g, wires, drifts);
    Ok(Brought {
        inside: told.inside,
        worst: Torus(told.worst),
    })
}

/// A circuit on ciphertexts with its drifts: afterwards wires holds every wire's ciphertext in wire order, out the outputs', and drifts each wire's drift. Refusals: 1, 2 for
/// both keys' material and both secret keys, 4 for each secret key, 6 to 10, 2 for the slices that depend on the circuit. It tells whether all that demand 3 names are
/// inside; then every output decrypts to the bit that the circuit gives on the plain bits (demand 3).
pub fn drift_run(
    p: Params,
    ksk: &[u32],
    bsk: &[u32],
    key: &[u32],
    z: &[u32],
    bytes: &[u8],
    ins: &[u32],
    plain: &[u8],
    wires: &mut [u32],
    out: &mut [u32],
    drifts: &mut [u32],
) -> Result<bool, Refusal>
    ensures said { result ≡ given (drift_answer p (length ksk.now) (length bsk.now) key.now z.now bytes.now (length ins.now) (length plain.now) (length wires.old) (length out.old) (length drifts.old)) (all_inside p key.now z.now ksk.now bsk.now bytes.now ins.now plain.now) }
    ensures held { wires.new ≡ drift_wires_after p ksk.now bsk.now key.now z.now bytes.now ins.now plain.now wires.old out.old drifts.old }
    ensures written { out.new ≡ drift_outputs_after p ksk.now bsk.now key.now z.now bytes.now ins.now plain.now wires.old out.old drifts.old }
    ensures drifted { drifts.new ≡ drifts_after p ksk.now bsk.now key.now z.now bytes.now ins.now plain.now wires.old out.old drifts.old }
    ensures right { result ≡ Ok true → (o : ℕ) → o < outputs bytes.now → Decrypts p key.now bytes.now plain.now out.new o }
{
    let c = answers::run_checks(
        p,
        ksk.len(),
        bsk.len(),
        key,
        z,
        bytes,
        ins.len(),
        plain.len(),
        wires.len(),
        out.len(),
        drifts.len(),
    )?;
    Ok(gates_of::run_into(c, ksk, bsk, key, bytes, ins, plain, wires, out, drifts))
}
