// A circuit run on plain bits: lent bits are bytes, 0 false and any other true; the outputs are bytes 0 or 1.
ghost use Rattle.std.specs.Prelude.{◌≡◌, ◌++◌, ◌+◌, ◌≤◌, ◌<◌, length, take, drop, set};
ghost use Rattle.ring.specs.Word.{at};
ghost use Rattle.ring.specs.Sums.{tab};
ghost use Rattle.params.specs.Refusal.{outcome};
ghost use Rattle.circuit.specs.Form.{inputs, gates, outputs, wires, output_at};
ghost use Rattle.circuit.specs.Plain.{gate_bit, wires_to, output_bits, run_answer, run_out};
ghost use Rattle.ring.specs.Bit.{truth, bit_number};

use crate::fields::{byte, field};
use crate::form::check;
use kinds::meaning;
use params::Refusal;

// The bit of wire w among the first of the wires; 0 for any other.
fn wire(bits: &[u8], first: usize, w: usize) -> u8
    requires { first ≤ length bits.now }
    ensures { result ≡ at (take first bits.now) w }
{
    if w < first { bits[w] } else { 0 }
}

// The bit of gate g, the first wires' bits being there.
fn gate_bit(bytes: &[u8], g: usize, bits: &[u8], first: usize) -> u8
    requires { (g < 65536) × (first ≤ length bits.now) }
    ensures { result ≡ gate_bit bytes.now (take first bits.now) g }
{
    let at = 11 + 8 * g;
    let a = wire(bits, first, field(bytes, at + 2));
    let b = wire(bits, first, field(bytes, at + 4));
    let c = wire(bits, first, field(bytes, at + 6));
    meaning(byte(bytes, at), a, b, c)
}

// The inputs' bits, as the first wires.
#[tactic(auto, using(ring::proofs::Tab::tab_none, ring::proofs::Tab::tab_more, kinds::proofs::Columns::bit_byte))]
fn put_inputs(ins: &[u8], bits: &mut [u8])
    requires { length ins.now ≤ length bits.old }
    ensures { bits.new ≡ tab (length ins.now) (λ i. bit_number (truth (at ins.now i))) ++ drop (length ins.now) bits.old }
{
    for (i, x) in ins.iter().enumerate() {
        bits[i] = (*x != 0) as u8;
    }
}

// The gates' bits, one after the other, behind the inputs'.
fn put_gates(bytes: &[u8], bits: &mut [u8])
    requires { wires bytes.now ≤ length bits.old }
    ensures { bits.new ≡ wires_to bytes.now (take (inputs bytes.now) bits.old) (gates bytes.now) ++ drop (wires bytes.now) bits.old }
{
    let first = field(bytes, 5);
    for g in 0..field(bytes, 7) {
        let own = first + g;
        bits[own] = gate_bit(bytes, g, bits, own);
    }
}

// The outputs' bits, from the wires'.
#[tactic(auto, using(ring::proofs::Tab::tab_none, ring::proofs::Tab::tab_more))]
fn put_outputs(bytes: &[u8], bits: &[u8], out: &mut [u8])
    requires bytes_in_bounds { wires bytes.now ≤ length bits.now }
    requires out_len { length out.old ≡ outputs bytes.now }
    ensures { out.new ≡ tab (outputs bytes.now) (λ o. at (take (wires bytes.now) bits.now) (output_at bytes.now o)) }
{
    let gates = field(bytes, 7);
    let first = field(bytes, 5) + gates;
    for o in 0..field(bytes, 9) {
        out[o] = wire(bits, first, field(bytes, 11 + 8 * gates + 2 * o));
    }
}

// The run of a circuit that is not refused, over bits for every wire.
pub(crate) fn run_into(bytes: &[u8], ins: &[u8], out: &mut [u8])
    requires bytes_bound { (inputs bytes.now ≤ 256) × (gates bytes.now ≤ 1024) }
    requires ins_len { (length ins.now ≡ inputs bytes.now) × (length out.old ≡ outputs bytes.now) }
    ensures { out.new ≡ output_bits bytes.now ins.now }
{
    let mut bits = [0u8; 1280];
    put_inputs(ins, &mut bits);
    put_gates(bytes, &mut bits);
    put_outputs(bytes, &bits, out);
}

/// The circuit's outputs on the bits of its inputs. Refusals: 6 to 10, then 2 for the lengths.
#[tactic(auto, using(crate::proofs::Accept::accepted), unfolding(crate::specs::Plain::run_answer, crate::specs::Plain::run_out))]
pub fn run_plain(bytes: &[u8], ins: &[u8], out: &mut [u8]) -> Result<(), Refusal>
    ensures said { result ≡ outcome (run_answer bytes.now (length ins.now) (length out.old)) }
    ensures written { out.new ≡ run_out bytes.now ins.now out.old }
{
    check(bytes)?;
    Refusal::Length.unless(ins.len() == field(bytes, 5))?;
    Refusal::Length.unless(out.len() == field(bytes, 9))?;
    run_into(bytes, ins, out);
    Ok(())
}
