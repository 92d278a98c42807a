// The drifts of a circuit's wires, from finished wires: the inputs' fresh drifts, each gate's behind them, and the outputs' looked at.
ghost use Rattle.std.specs.Prelude.{◌≡◌, cond, [], ◌++◌, ◌+◌, ◌*◌, ◌≤◌, ◌<◌, ltb, length, take, drop};
ghost use Rattle.ring.specs.Word.{at};
ghost use Rattle.circuit.specs.Form.{inputs, gates, outputs};
ghost use Rattle.circuit.specs.Valid.{Valid};
ghost use Rattle.encrypted_run.specs.Run.{ciphers_of, output_ciphers, stepped};
ghost use Rattle.drift.specs.PrivateWords.{fresh_word};
ghost use Rattle.drift.specs.PrivateCircuit.{gate_brought_words, fresh_words, all_words, output_words};
ghost use Rattle.drift.specs.PrivateShort.{short_gate, short_to, short_brought_to};
ghost use Rattle.drift_run.specs.Private.{Secret, Finished, Passing, DriftGate, DriftRun, drifted, put_short, told_short, short_drifts, short_inside};
ghost use Rattle.ring.specs.Bit.{truth};

use crate::by_way::{Drifted, gathered, way_drift};
use crate::rotations::{bit_word, phase};
use drift_size::is_inside;
use params::Checked;
use ways::ciphertext;

// The drift of wire w among these; 0 for any other.
fn drift_at(drifts: &[u32], w: usize) -> u32
    ensures { result ≡ at drifts.now w }
{
    drifts.get(w).copied().unwrap_or(0)
}

// What is told of gate g, before being the drifts of the wires before it.
fn gate_told(
    p: Checked,
    key: &[u32],
    bytes: &[u8],
    g: usize,
    wires: &[u32],
    before: &[u32],
) -> Drifted
    requires { Finished p key.now bytes.now (length wires.now) × (g < gates bytes.now) }
    ensures { result ≡ drifted (short_gate p key.now bytes.now wires.now before.now g) (gate_brought_words p key.now bytes.now wires.now before.now g) }
{
    let shape = circuit::counts(bytes);
    let way = ways::way_of(circuit::kind_at(bytes, g));
    let x = circuit::operand_at(bytes, g, 0);
    let y = circuit::operand_at(bytes, g, 1);
    let z = circuit::operand_at(bytes, g, 2);
    let own = shape.inputs + g;
    way_drift(
        p,
        way,
        key,
        ciphertext(p.params, wires, x),
        ciphertext(p.params, wires, y),
        ciphertext(p.params, wires, z),
        ciphertext(p.params, wires, own),
        drift_at(before, x),
        drift_at(before, y),
        drift_at(before, z),
    )
}

// Gate g's drift into its place.
fn put_drift(
    p: Checked,
    key: &[u32],
    bytes: &[u8],
    g: usize,
    wires: &[u32],
    drifts: &mut [u32],
) -> Drifted
    requires { Passing p key.now bytes.now (length wires.now) (length drifts.old) × (g < gates bytes.now) }
    ensures told { result ≡ told_short p key.now bytes.now wires.now drifts.old g }
    ensures written { drifts.new ≡ put_short p key.now bytes.now wires.now drifts.old g }
{
    let shape = circuit::counts(bytes);
    let own = shape.inputs + g;
    let told = gate_told(p, key, bytes, g, wires, &drifts[..own]);
    drifts[own] = told.drift;
    told
}

// Every gate's drift, one after the other; are all that is brought into their rotations inside?
fn gates_into(p: Checked, key: &[u32], bytes: &[u8], wires: &[u32], drifts: &mut [u32]) -> bool
    requires { Passing p key.now bytes.now (length wires.now) (length drifts.old) }
    ensures told { result ≡ all_words (short_brought_to p key.now bytes.now wires.now (take (inputs bytes.now) drifts.old) (gates bytes.now)) }
    ensures written { drifts.new ≡ short_to p key.now bytes.now wires.now (take (inputs bytes.now) drifts.old) (gates bytes.now) }
{
    let shape = circuit::counts(bytes);
    let mut inside = true;
    for g in 0..shape.gates {
        let told = put_drift(p, key, bytes, g, wires, drifts);
        inside &= told.inside;
    }
    inside
}

// The fresh drift of a ciphertext.
fn fresh(p: Checked, key: &[u32], c: &[u32], bit: bool) -> u32
    requires { Secret p key.now × (length c.now ≡ p.n + 1) }
    ensures { result ≡ fresh_word p key.now c.now bit }
{
    ring::sub(phase(p, key, c), bit_word(bit))
}

// The inputs' fresh drifts, in front of the others.
fn inputs_into(p: Checked, key: &[u32], ins: &[u32], plain: &[u8], drifts: &mut [u32])
    requires { Secret p key.now × (length ins.now ≡ length plain.now * (p.n + 1)) × (length plain.now ≤ length drifts.old) }
    ensures { drifts.new ≡ fresh_words p key.now ins.now plain.now (length plain.now) ++ drop (length plain.now) drifts.old }
{
    let params = p.params;
    for (i, bit) in plain.iter().enumerate() {
        drifts[i] = fresh(p, key, ciphertext(params, ins, i), *bit != 0);
    }
}

// Are the drifts of all outputs inside?
fn outputs_inside(bytes: &[u8], drifts: &[u32]) -> bool
    requires { Valid bytes.now }
    ensures { result ≡ all_words (output_words bytes.now drifts.now) }
{
    let shape = circuit::counts(bytes);
    let mut inside = true;
    for o in 0..shape.outputs {
        let drift = drift_at(drifts, circuit::output_at(bytes, o));
        inside &= is_inside(drift);
    }
    inside
}

// A pass over finished wires: every wire's drift; are all that demand 3 names inside?
fn pass(
    p: Checked,
    key: &[u32],
    bytes: &[u8],
    ins: &[u32],
    plain: &[u8],
    wires: &[u32],
    drifts: &mut [u32],
) -> bool
    requires { Passing p key.now bytes.now (length wires.now) (length drifts.old) × (length ins.now ≡ inputs bytes.now * (p.n + 1)) × (length plain.now ≡ inputs bytes.now) }
    ensures told { result ≡ short_inside p key.now bytes.now ins.now plain.now wires.now }
    ensures written { drifts.new ≡ short_drifts p key.now bytes.now ins.now plain.now wires.now }
{
    inputs_into(p, key, ins, plain, drifts);
    let turned = gates_into(p, key, bytes, wires, drifts);
    turned && outputs_inside(bytes, drifts)
}

// The drift run of a circuit that is not refused.
pub(crate) fn run_into(
    p: Checked,
    ksk: &[u32],
    bsk: &[u32],
    key: &[u32],
    bytes: &[u8],
    ins: &[u32],
    plain: &[u8],
    wires: &mut [u32],
    out: &mut [u32],
    drifts: &mut [u32],
) -> bool
    requires { DriftRun p (length ksk.now) (length bsk.now) key.now bytes.now (length ins.now) (length plain.now) (length wires.old) (length out.old) (length drifts.old) }
    ensures told { result ≡ short_inside p key.now bytes.now ins.now plain.now (ciphers_of p ksk.now bsk.now bytes.now ins.now) }
    ensures held { wires.new ≡ ciphers_of p ksk.now bsk.now bytes.now ins.now }
    ensures written { out.new ≡ output_ciphers p bytes.now (ciphers_of p ksk.now bsk.now bytes.now ins.now) }
    ensures drifted { drifts.new ≡ short_drifts p key.now bytes.now ins.now plain.now (ciphers_of p ksk.now bsk.now bytes.now ins.now) }
{
    encrypted_run::run_encrypted(p.params, ksk, bsk, bytes, ins, wires, out).unwrap();
    pass(p, key, bytes, ins, plain, wires, drifts)
}

// Gate g of a drift run: its ciphertext, and then its drift.
fn one(
    p: Checked,
    ksk: &[u32],
    bsk: &[u32],
    key: &[u32],
    bytes: &[u8],
    g: usize,
    wires: &mut [u32],
    drifts: &mut [u32],
) -> Drifted
    requires { DriftGate p (length ksk.now) (length bsk.now) key.now bytes.now (length wires.old) (length drifts.old) × (g < gates bytes.now) }
    ensures told { result ≡ told_short p key.now bytes.now (stepped p ksk.now bsk.now bytes.now g wires.old) drifts.old g }
    ensures held { wires.new ≡ stepped p ksk.now bsk.now bytes.now g wires.old }
    ensures written { drifts.new ≡ put_short p key.now bytes.now (stepped p ksk.now bsk.now bytes.now g wires.old) drifts.old g }
{
    encrypted_run::run_gate(p.params, ksk, bsk, bytes, g, wires).unwrap();
    put_drift(p, key, bytes, g, wires, drifts)
}

// The same where there is a gate g.
pub(crate) fn one_or_none(
    p: Checked,
    ksk: &[u32],
    bsk: &[u32],
    key: &[u32],
    bytes: &[u8],
    g: usize,
    wires: &mut [u32],
    drifts: &mut [u32],
) -> Drifted
    requires { DriftGate p (length ksk.now) (length bsk.now) key.now bytes.now (length wires.old) (length drifts.old) }
    ensures told { result ≡ cond (ltb g (gates bytes.now)) (told_short p key.now bytes.now (stepped p ksk.now bsk.now bytes.now g wires.old) drifts.old g) (drifted 0 []) }
    ensures held { wires.new ≡ cond (ltb g (gates bytes.now)) (stepped p ksk.now bsk.now bytes.now g wires.old) wires.old }
    ensures written { drifts.new ≡ cond (ltb g (gates bytes.now)) (put_short p key.now bytes.now (stepped p ksk.now bsk.now bytes.now g wires.old) drifts.old g) drifts.old }
{
    if g >= circuit::counts(bytes).gates {
        return gathered(0, &[]);
    }
    one(p, ksk, bsk, key, bytes, g, wires, drifts)
}
