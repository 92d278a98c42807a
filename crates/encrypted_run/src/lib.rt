#![tactic(auto)]
// The encrypted run of a circuit (01, 'Circuits'): every wire's ciphertext, gate after gate, and then the outputs'. It stands above `ways` and
// `circuit`; one gate of a run is a routine of its own, since a run of 1,024 gates takes long.
ghost use Rattle.std.specs.Prelude.{◌≡◌, length};
ghost use Rattle.params.specs.Refusal.{answer, given, outcome};
ghost use Rattle.circuit.specs.Form.{answer_of, or_else};
ghost use Rattle.encrypted_run.specs.Refusals.{around, lengths_of, material_number, encrypted_answer, step_answer};
ghost use Rattle.encrypted_run.specs.Run.{wires_after, outputs_after, step_after};

use params::{Params, Refusal};

mod steps;

/// The numbers of a circuit's inputs and wires, and the words of the inputs', the wires' and the outputs' ciphertexts.
#[derive(Clone, Copy)]
pub struct Lengths {
    pub inputs: usize,
    pub wires: usize,
    pub ins: usize,
    pub held: usize,
    pub outs: usize,
}

/// What a circuit's counts ask of the slices of a run, whatever the parameters and the bytes.
pub fn lengths_of(p: Params, bytes: &[u8]) -> Lengths
    ensures { result ≡ lengths_of p bytes.now }
{
    let shape = circuit::counts(bytes);
    let words = p.n as usize + 1;
    let wires = shape.inputs + shape.gates;
    Lengths {
        inputs: shape.inputs,
        wires,
        ins: shape.inputs * words,
        held: wires * words,
        outs: shape.outputs * words,
    }
}

/// The number and the place of a call on a circuit, from the numbers of what does not depend on the circuit and of what does: the circuit's own go between. It takes any numbers, also
/// those of no row of the table, so it hands back numbers in place of a refusal.
pub fn around(before: u32, bytes: &[u8], after: u32) -> (u32, usize)
    ensures number { result.0 ≡ (around before bytes.now after).number }
    ensures place { result.1 ≡ (around before bytes.now after).place }
{
    if before != 0 {
        return (before, 0);
    }
    match circuit::check(bytes) {
        Err(refusal) => (refusal.number(), refusal.place()),
        Ok(()) => (after, 0),
    }
}

// What comes before the lengths that depend on the circuit: the parameters, both keys' lengths, and the circuit itself.
#[tactic(auto, unfolding(crate::specs::Refusals::material_number))]
fn read(p: Params, lk: usize, ls: usize, bytes: &[u8]) -> Result<Lengths, Refusal>
    ensures { result ≡ given (or_else (answer (material_number p lk ls)) (answer_of bytes.now)) (lengths_of p bytes.now) }
{
    let s = params::check(p)?.sizes;
    Refusal::Length.unless(lk == s.ksk)?;
    Refusal::Length.unless(ls == s.bsk)?;
    circuit::check(bytes)?;
    Ok(lengths_of(p, bytes))
}

/// Gate g of a run, from the wires before it into its own. Where the circuit has no gate g there is nothing to do. Refusals: 1, 2 for the keys, 6 to 10, 2 for the wires.
#[tactic(auto, unfolding(crate::specs::Refusals::lengths_of, crate::specs::Refusals::step_answer, crate::specs::Run::step_after))]
pub fn run_gate(
    p: Params,
    ksk: &[u32],
    bsk: &[u32],
    bytes: &[u8],
    g: usize,
    wires: &mut [u32],
) -> Result<(), Refusal>
    ensures said { result ≡ outcome (step_answer p (length ksk.now) (length bsk.now) bytes.now (length wires.old)) }
    ensures written { wires.new ≡ step_after p ksk.now bsk.now bytes.now g wires.old }
{
    let held = read(p, ksk.len(), bsk.len(), bytes)?.held;
    Refusal::Length.unless(wires.len() == held)?;
    steps::one_or_none(p, ksk, bsk, bytes, g, wires);
    Ok(())
}

/// A circuit on ciphertexts: afterwards wires holds every wire's ciphertext in wire order, and out the outputs'. Refusals: 1, 2 for the keys, 6 to 10,
/// 2 for the slices that depend on the circuit.
#[tactic(auto, unfolding(crate::specs::Refusals::lengths_of, crate::specs::Refusals::encrypted_answer, crate::specs::Run::wires_after, crate::specs::Run::outputs_after))]
pub fn run_encrypted(
    p: Params,
    ksk: &[u32],
    bsk: &[u32],
    bytes: &[u8],
    ins: &[u32],
    wires: &mut [u32],
    out: &mut [u32],
) -> Result<(), Refusal>
    ensures said { result ≡ outcome (encrypted_answer p (length ksk.now) (length bsk.now) bytes.now (length ins.now) (length wires.old) (length out.old)) }
    ensures held { wires.new ≡ wires_after p ksk.now bsk.now bytes.now ins.now wires.old out.old }
    ensures written { out.new ≡ outputs_after p ksk.now bsk.now bytes.now ins.now wires.old out.old }
{
    let t = read(p, ksk.len(), bsk.len(), bytes)?;
    Refusal::Length.unless(ins.len() == t.ins)?;
    Refusal::Length.unless(out.len() == t.outs)?;
    Refusal::Length.unless(wires.len() == t.held)?;
    steps::run_into(p, ksk, bsk, bytes, ins, wires, out);
    Ok(())
}
