// The run, step by step: the inputs' ciphertexts, each gate's behind them, then the outputs'.
ghost use Rattle.std.specs.Prelude.{◌≡◌, ◌++◌, ◌+◌, ◌*◌, ◌<◌, ltb, length, take, drop, cond};
ghost use Rattle.circuit.specs.Form.{inputs, gates, outputs};
ghost use Rattle.circuit.specs.Valid.{Valid};
ghost use Rattle.ways.specs.Private.{Within};
ghost use Rattle.encrypted_run.specs.Private.{StepGood, RunGood};
ghost use Rattle.encrypted_run.specs.Run.{gate_cipher, ciphers_of, output_ciphers, wires_before, stepped};

use params::Params;
use ways::ciphertext;

// The ciphertext c in the place of wire w.
fn put_at(p: Params, c: &[u32], w: usize, into: &mut [u32])
    requires { (length c.now ≡ p.n + 1) × Within p w (length into.old) }
    ensures { into.new ≡ take (w * (p.n + 1)) into.old ++ c.now ++ drop ((w + 1) * (p.n + 1)) into.old }
{
    let words = p.n as usize + 1;
    let from = w * words;
    let to = from + words;
    words::copy(c, &mut into[from..to]);
}

// Gate g's ciphertext, from those of the wires before it.
fn gate_into(
    p: Params,
    ksk: &[u32],
    bsk: &[u32],
    bytes: &[u8],
    g: usize,
    wires: &[u32],
    out: &mut [u32],
)
    requires { StepGood p (length ksk.now) (length bsk.now) bytes.now (length wires.now) × (g < gates bytes.now) × (length out.old ≡ p.n + 1) }
    ensures { out.new ≡ gate_cipher p ksk.now bsk.now bytes.now (wires_before p bytes.now g wires.now) g }
{
    let shape = circuit::counts(bytes);
    let end = (shape.inputs + g) * out.len();
    let before = &wires[..end];
    let way = ways::way_of(circuit::kind_at(bytes, g));
    let x = ciphertext(p, before, circuit::operand_at(bytes, g, 0));
    let y = ciphertext(p, before, circuit::operand_at(bytes, g, 1));
    let z = ciphertext(p, before, circuit::operand_at(bytes, g, 2));
    // neither the lengths nor the parameters are at fault here
    let _ = ways::run_way(p, way, x, y, z, ksk, bsk, out);
}

// Gate g's ciphertext in the scratch c, and then in its place.
fn one_on(
    p: Params,
    ksk: &[u32],
    bsk: &[u32],
    bytes: &[u8],
    g: usize,
    c: &mut [u32],
    wires: &mut [u32],
)
    requires { StepGood p (length ksk.now) (length bsk.now) bytes.now (length wires.old) × (g < gates bytes.now) × (length c.old ≡ p.n + 1) }
    ensures { wires.new ≡ stepped p ksk.now bsk.now bytes.now g wires.old }
{
    let shape = circuit::counts(bytes);
    let own = shape.inputs + g;
    gate_into(p, ksk, bsk, bytes, g, wires, c);
    put_at(p, c, own, wires);
}

// The same with its scratch.
fn one(p: Params, ksk: &[u32], bsk: &[u32], bytes: &[u8], g: usize, wires: &mut [u32])
    requires { StepGood p (length ksk.now) (length bsk.now) bytes.now (length wires.old) × (g < gates bytes.now) }
    ensures { wires.new ≡ stepped p ksk.now bsk.now bytes.now g wires.old }
{
    let words = p.n as usize + 1;
    let mut c = [0u32; 1101];
    one_on(p, ksk, bsk, bytes, g, &mut c[..words], wires);
}

// The same where there is a gate g.
pub(crate) fn one_or_none(
    p: Params,
    ksk: &[u32],
    bsk: &[u32],
    bytes: &[u8],
    g: usize,
    wires: &mut [u32],
)
    requires { StepGood p (length ksk.now) (length bsk.now) bytes.now (length wires.old) }
    ensures { wires.new ≡ cond (ltb g (gates bytes.now)) (stepped p ksk.now bsk.now bytes.now g wires.old) wires.old }
{
    let shape = circuit::counts(bytes);
    if g < shape.gates {
        one(p, ksk, bsk, bytes, g, wires);
    }
}

// Every gate, one after the other.
fn all_into(p: Params, ksk: &[u32], bsk: &[u32], bytes: &[u8], wires: &mut [u32])
    requires { StepGood p (length ksk.now) (length bsk.now) bytes.now (length wires.old) }
    ensures { wires.new ≡ ciphers_of p ksk.now bsk.now bytes.now (take (inputs bytes.now * (p.n + 1)) wires.old) }
{
    let shape = circuit::counts(bytes);
    for g in 0..shape.gates {
        one(p, ksk, bsk, bytes, g, wires);
    }
}

// The outputs' ciphertexts, from the wires'.
fn outputs_into(p: Params, bytes: &[u8], wires: &[u32], out: &mut [u32])
    requires { Valid bytes.now × (length wires.now ≡ (inputs bytes.now + gates bytes.now) * (p.n + 1)) × (length out.old ≡ outputs bytes.now * (p.n + 1)) }
    ensures { out.new ≡ output_ciphers p bytes.now wires.now }
{
    let shape = circuit::counts(bytes);
    for o in 0..shape.outputs {
        let w = circuit::output_at(bytes, o);
        put_at(p, ciphertext(p, wires, w), o, out);
    }
}

// The run of a circuit that is not refused.
pub(crate) fn run_into(
    p: Params,
    ksk: &[u32],
    bsk: &[u32],
    bytes: &[u8],
    ins: &[u32],
    wires: &mut [u32],
    out: &mut [u32],
)
    requires { RunGood p (length ksk.now) (length bsk.now) bytes.now (length ins.now) (length wires.old) (length out.old) }
    ensures held { wires.new ≡ ciphers_of p ksk.now bsk.now bytes.now ins.now }
    ensures written { out.new ≡ output_ciphers p bytes.now (ciphers_of p ksk.now bsk.now bytes.now ins.now) }
{
    words::copy(ins, wires);
    all_into(p, ksk, bsk, bytes, wires);
    outputs_into(p, bytes, wires, out);
}
