// The whole text: the head, the gates' lines, the outputs' lines.
ghost use Rattle.std.specs.Prelude.{cond, ◌≡◌, ◌+◌, ◌-◌, ◌≤◌, ◌<◌, ltb, length};
ghost use Rattle.ring.specs.Word.{at};
ghost use Rattle.ring.specs.Lists.{joined};
ghost use Rattle.circuit.specs.Form.{inputs, gates, outputs};
ghost use Rattle.circuit.specs.Valid.{Valid};
ghost use Rattle.bristol_export.specs.Private.{laid, Wired};
ghost use Rattle.bristol_export.specs.Text.{lines_to, first_wire, head_text, gate_text, output_text, exported};

use crate::gate::{count_of, put_steps};
use crate::text::{put_ended, put_line};

// The text's wire of each gate's bit, and how many lines the gates have.
fn last_wires(bytes: &[u8], last: &mut [usize]) -> usize
    requires valid { Valid bytes.now }
    requires bytes_in_bounds { gates bytes.now ≤ length last.old }
    ensures value { result ≡ lines_to bytes.now (gates bytes.now) }
    ensures wired { Wired bytes.now last.new }
{
    let counts = circuit::counts(bytes);
    let mut lines = 0;
    for g in 0..counts.gates {
        lines += count_of(circuit::kind_at(bytes, g));
        last[g] = counts.inputs + lines - 1;
    }
    lines
}

// The text's wire of the circuit's wire v.
fn wire_of(inputs: usize, last: &[usize], v: usize) -> usize
    ensures { result ≡ cond (ltb v inputs) v (at last.now (v - inputs)) }
{
    if v < inputs {
        return v;
    }
    let g = v - inputs;
    if g < last.len() { last[g] } else { 0 }
}

// The counts and an empty line.
fn put_head(bytes: &[u8], lines: usize, out: &mut [u8]) -> usize
    requires valid { Valid bytes.now }
    requires lines_value { lines ≡ lines_to bytes.now (gates bytes.now) }
    ensures value { result ≡ length (head_text bytes.now) }
    ensures out_after { out.new ≡ laid out.old 0 (head_text bytes.now) }
{
    let counts = circuit::counts(bytes);
    let all = lines + counts.outputs;
    let a = put_ended(out, 0, all, b" ");
    let b = put_ended(out, a, counts.inputs + all, b"\n1 ");
    let c = put_ended(out, b, counts.inputs, b"\n1 ");
    put_ended(out, c, counts.outputs, b"\n\n")
}

// The lines of gate g.
fn put_gate(bytes: &[u8], last: &[usize], g: usize, n: usize, out: &mut [u8], at: usize) -> usize
    requires valid { Valid bytes.now }
    requires wired { Wired bytes.now last.now }
    requires g_bound { (g < gates bytes.now) × (n ≡ first_wire bytes.now g) × (at ≤ 99900) }
    ensures value { result ≡ at + length (gate_text bytes.now g) }
    ensures out_after { out.new ≡ laid out.old at (gate_text bytes.now g) }
{
    let counts = circuit::counts(bytes);
    let inputs = counts.inputs;
    let a = wire_of(inputs, last, circuit::operand_at(bytes, g, 0));
    let b = wire_of(inputs, last, circuit::operand_at(bytes, g, 1));
    let c = wire_of(inputs, last, circuit::operand_at(bytes, g, 2));
    put_steps(out, at, circuit::kind_at(bytes, g), a, b, c, n)
}

// The lines of the gates.
fn put_gates(bytes: &[u8], last: &[usize], out: &mut [u8], at: usize) -> usize
    requires valid { Valid bytes.now }
    requires wired { Wired bytes.now last.now }
    requires at_bound { at ≤ 22 }
    ensures value { result ≡ at + length (joined (gates bytes.now) (gate_text bytes.now)) }
    ensures out_after { out.new ≡ laid out.old at (joined (gates bytes.now) (gate_text bytes.now)) }
{
    let counts = circuit::counts(bytes);
    let mut n = counts.inputs;
    let mut to = at;
    for g in 0..counts.gates {
        to = put_gate(bytes, last, g, n, out, to);
        n += count_of(circuit::kind_at(bytes, g));
    }
    to
}

// The lines of the outputs, behind so many lines of the gates.
fn put_outputs(bytes: &[u8], last: &[usize], lines: usize, out: &mut [u8], at: usize) -> usize
    requires valid { Valid bytes.now }
    requires wired { Wired bytes.now last.now }
    requires lines_value { (lines ≡ lines_to bytes.now (gates bytes.now)) × (at ≤ 80000) }
    ensures value { result ≡ at + length (joined (outputs bytes.now) (output_text bytes.now)) }
    ensures out_after { out.new ≡ laid out.old at (joined (outputs bytes.now) (output_text bytes.now)) }
{
    let counts = circuit::counts(bytes);
    let mut to = at;
    for o in 0..counts.outputs {
        let w = wire_of(counts.inputs, last, circuit::output_at(bytes, o));
        to = put_line(out, to, 5, w, 0, counts.inputs + lines + o);
    }
    to
}

// All of it, over a slice for the gates' wires.
fn put_over(bytes: &[u8], last: &mut [usize], out: &mut [u8]) -> usize
    requires valid { Valid bytes.now }
    requires bytes_in_bounds { gates bytes.now ≤ length last.old }
    ensures value { result ≡ length (exported bytes.now) }
    ensures out_after { out.new ≡ laid out.old 0 (exported bytes.now) }
{
    let lines = last_wires(bytes, last);
    let a = put_head(bytes, lines, out);
    let b = put_gates(bytes, last, out, a);
    put_outputs(bytes, last, lines, out, b)
}

// All of it; the text's length comes back.
pub(crate) fn put_text(bytes: &[u8], out: &mut [u8]) -> usize
    requires { Valid bytes.now }
    ensures value { result ≡ length (exported bytes.now) }
    ensures out_after { out.new ≡ laid out.old 0 (exported bytes.now) }
{
    let mut last = [0usize; 1024];
    put_over(bytes, &mut last, out)
}
