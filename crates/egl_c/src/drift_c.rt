// The drift run of a circuit, for whoever holds both secret keys.
ghost use Rattle.std.specs.Prelude.{◌≡◌, true, ℕ, ◌<◌, length};
ghost use Rattle.ring.specs.Centre.{centre, word_of};
ghost use Rattle.params.specs.Refusal.{answer, given};
ghost use Rattle.tlwe.specs.declared.Level.TheVariants.{Zero};
ghost use Rattle.tlwe.specs.Key.{keyed_number};
ghost use Rattle.circuit.specs.Form.{outputs};
ghost use Rattle.drift.specs.Circuit.{all_inside, worst_of};
ghost use Rattle.drift.specs.Whole.{inside, fresh_drift};
ghost use Rattle.drift_run.specs.Refusals.{drift_answer, drift_gate_answer};
ghost use Rattle.drift_run.specs.Run.{Decrypts, inside_after, drift_wires_after, drift_outputs_after, drifts_after, gate_brought, gate_wires_after, gate_drifts_after};
ghost use Rattle.packing.specs.Packed.{packed_value};
ghost use Rattle.params.specs.Published.{numbers};
ghost use Rattle.ring.specs.Bit.{bit_number, truth};

use packing::{bit_number, numbers, pack_value};
use utils::Torus;

// 1 where a drift is inside, else 0.
#[unsafe(no_mangle)]
pub extern "C" fn egl_drift_inside(drift: u32) -> u32
    ensures { result ≡ bit_number (inside (centre drift)) }
{
    bit_number(drift_run::is_inside(Torus(drift)))
}

// The fresh drift of a ciphertext of a bit, 0 or not 0, as the value.
#[unsafe(no_mangle)]
pub extern "C" fn egl_fresh_drift(
    n: u32,
    nbit: u32,
    bgbit: u32,
    l: u32,
    basebit: u32,
    t: u32,
    key: &[u32],
    c: &[u32],
    bit: u8,
) -> u64
    ensures { result ≡ packed_value (given (answer (keyed_number (numbers n nbit bgbit l basebit t) Zero (length c.now) key.now)) (word_of (fresh_drift (numbers n nbit bgbit l basebit t) key.now c.now (truth bit)))) }
{
    pack_value(drift_run::fresh_drift(numbers(n, nbit, bgbit, l, basebit, t), key, c, bit != 0).map(
        |drift| drift.0,
    ))
}

// Gate g of a drift run; the value is what is largest, in absolute value, of the drifts brought into its rotations.
#[unsafe(no_mangle)]
pub extern "C" fn egl_drift_gate(
    n: u32,
    nbit: u32,
    bgbit: u32,
    l: u32,
    basebit: u32,
    t: u32,
    ksk: &[u32],
    bsk: &[u32],
    key: &[u32],
    z: &[u32],
    bytes: &[u8],
    g: usize,
    wires: &mut [u32],
    drifts: &mut [u32],
) -> u64
    ensures said { result ≡ packed_value (given (drift_gate_answer (numbers n nbit bgbit l basebit t) (length ksk.now) (length bsk.now) key.now z.now bytes.now (length wires.old) (length drifts.old)) (word_of (worst_of (gate_brought (numbers n nbit bgbit l basebit t) key.now bytes.now g wires.old drifts.old)))) }
    ensures held { wires.new ≡ gate_wires_after (numbers n nbit bgbit l basebit t) ksk.now bsk.now key.now z.now bytes.now g wires.old drifts.old }
    ensures written { drifts.new ≡ gate_drifts_after (numbers n nbit bgbit l basebit t) ksk.now bsk.now key.now z.now bytes.now g wires.old drifts.old }
{
    pack_value(drift_run::drift_gate(
        numbers(n, nbit, bgbit, l, basebit, t),
        ksk,
        bsk,
        key,
        z,
        bytes,
        g,
        wires,
        drifts,
    )
    .map(|brought| brought.worst.0))
}

// A drift run; the value is 1 where all that demand 3 names are inside, else 0.
#[unsafe(no_mangle)]
pub extern "C" fn egl_drift_run(
    n: u32,
    nbit: u32,
    bgbit: u32,
    l: u32,
    basebit: u32,
    t: u32,
    ksk: &[u32],
    bsk: &[u32],
    key: &[u32],
    z: &[u32],
    bytes: &[u8],
    ins: &[u32],
    plain: &[u8],
    wires: &mut [u32],
    out: &mut [u32],
    drifts: &mut [u32],
) -> u64
    ensures said { result ≡ packed_value (given (drift_answer (numbers n nbit bgbit l basebit t) (length ksk.now) (length bsk.now) key.now z.now bytes.now (length ins.now) (length plain.now) (length wires.old) (length out.old) (length drifts.old)) (bit_number (all_inside (numbers n nbit bgbit l basebit t) key.now z.now ksk.now bsk.now bytes.now ins.now plain.now))) }
    ensures held { wires.new ≡ drift_wires_after (numbers n nbit bgbit l basebit t) ksk.now bsk.now key.now z.now bytes.now ins.now plain.now wires.old out.old drifts.old }
    ensures written { out.new ≡ drift_outputs_after (numbers n nbit bgbit l basebit t) ksk.now bsk.now key.now z.now bytes.now ins.now plain.now wires.old out.old drifts.old }
    ensures drifted { drifts.new ≡ drifts_after (numbers n nbit bgbit l basebit t) ksk.now bsk.now key.now z.now bytes.now ins.now plain.now wires.old out.old drifts.old }
    ensures right { inside_after (numbers n nbit bgbit l basebit t) ksk.now bsk.now key.now z.now bytes.now ins.now plain.now wires.old out.old drifts.old ≡ true → (o : ℕ) → o < outputs bytes.now → Decrypts (numbers n nbit bgbit l basebit t) key.now bytes.now plain.now out.new o }
{
    pack_value(drift_run::drift_run(
        numbers(n, nbit, bgbit, l, basebit, t),
        ksk,
        bsk,
        key,
        z,
        bytes,
        ins,
        plain,
        wires,
        out,
        drifts,
    )
    .map(bit_number))
}
