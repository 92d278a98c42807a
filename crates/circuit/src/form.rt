// Reading a circuit: the answer to its bytes.
ghost use Rattle.std.specs.Prelude.{◌≡◌, ◌+◌, ◌*◌, ◌≤◌, ◌<◌, ltb, length};
ghost use Rattle.kinds.specs.Kinds.{kind_of};
ghost use Rattle.params.specs.Refusal.{outcome, unless, done};
ghost use Rattle.params.specs.declared.refusal.Refusal.TheVariants.{Gate};
ghost use Rattle.circuit.specs.Form.{inputs, gates, outputs, gate_place, kind_at, operand_good, output_answer, first, answer_of};
ghost use Rattle.circuit.specs.Private.{counts_answer, gate_answer, head_answer};
ghost use Rattle.circuit.specs.Valid.{Head};

use crate::fields::{byte_there, field, field_there};
use params::Refusal;

// The counts in order, then the length.
#[tactic(auto, unfolding(crate::specs::Form::head_fields, crate::specs::Private::counts_answer))]
fn counts(bytes: &[u8]) -> Result<(), Refusal>
    ensures { result ≡ outcome (counts_answer bytes.now) }
{
    let inputs = field(bytes, 5);
    let gates = field(bytes, 7);
    let outputs = field(bytes, 9);
    Refusal::Count(5).unless(inputs <= 256)?;
    Refusal::Count(7).unless(gates <= 1024)?;
    Refusal::Count(9).unless(1 <= outputs)?;
    Refusal::Count(9).unless(outputs <= 64)?;
    Refusal::Count(11).unless(bytes.len() == 11 + 8 * gates + 2 * outputs)
}

// The shortest length, the mark, the version, and the counts.
#[tactic(auto, unfolding(crate::specs::Form::head_fields, crate::specs::Private::counts_answer))]
fn head(bytes: &[u8]) -> Result<(), Refusal>
    ensures { result ≡ outcome (head_answer bytes.now) }
{
    Refusal::Count(0).unless(11 <= bytes.len())?;
    Refusal::Mark.unless(bytes[0] == b'E')?;
    Refusal::Mark.unless(bytes[1] == b'G')?;
    Refusal::Mark.unless(bytes[2] == b'L')?;
    Refusal::Version.unless(field(bytes, 3) == 1)?;
    counts(bytes)
}

// Operand x of gate g: one that its kind needs is below the gate's own wire, inputs + g, another is 0, and so below 1.
#[tactic(auto, using(crate::proofs::Fits::below), unfolding(crate::specs::Form::operand_good))]
fn operand(bytes: &[u8], g: usize, own: usize, needed: bool, x: usize) -> Result<(), Refusal>
    requires there { (g < 65536) × (x < 3) × (19 + 8 * g ≤ length bytes.now) }
    requires read { (own ≡ inputs bytes.now + g) × (needed ≡ ltb x (kind_of (kind_at bytes.now g)).operands) }
    ensures { result ≡ unless (operand_good bytes.now g x) (Gate (gate_place g + (2 + 2 * x))) done }
{
    let at = 11 + 8 * g + (2 + 2 * x);
    let bound = if needed { own } else { 1 };
    Refusal::Gate(at as u32).unless(field_there(bytes, at) < bound)
}

// Gate g, field by field; its own wire is inputs + g. Kinds from 2 on need one operand, from 3 on two, 13 three. That is tested by comparisons and not read from the
// table of kinds, since so each bound is selected without a jump: with the table reading takes over 1.2 times plain Rust.
#[tactic(auto, using(crate::proofs::Fits::first_needed, crate::proofs::Fits::second_needed, crate::proofs::Fits::third_needed), unfolding(crate::specs::Form::gate_fields))]
fn gate(bytes: &[u8], g: usize, own: usize) -> Result<(), Refusal>
    requires { (g < 65536) × (19 + 8 * g ≤ length bytes.now) × (own ≡ inputs bytes.now + g) }
    ensures { result ≡ outcome (gate_answer bytes.now g) }
{
    let at = 11 + 8 * g;
    let place = at as u32;
    let kind = byte_there(bytes, at);
    Refusal::Gate(place).unless(kind <= 13)?;
    Refusal::Gate(place + 1).unless(byte_there(bytes, at + 1) == 0)?;
    operand(bytes, g, own, 1 < kind, 0)?;
    operand(bytes, g, own, 2 < kind, 1)?;
    operand(bytes, g, own, 12 < kind, 2)
}

// Output o.
#[tactic(auto, unfolding(crate::specs::Form::output_answer))]
fn output(bytes: &[u8], o: usize) -> Result<(), Refusal>
    requires { o < 65536 }
    ensures { result ≡ outcome (output_answer bytes.now o) }
{
    let gates = field(bytes, 7);
    let at = 11 + 8 * gates + 2 * o;
    Refusal::Output(at as u32).unless(field(bytes, at) < field(bytes, 5) + gates)
}

// The first gate that is refused.
fn all_gates(bytes: &[u8]) -> Result<(), Refusal>
    requires { Head bytes.now }
    ensures { result ≡ outcome (first (gate_answer bytes.now) 0 (gates bytes.now)) }
{
    let inputs = field(bytes, 5);
    for g in 0..field(bytes, 7) {
        gate(bytes, g, inputs + g)?;
    }
    Ok(())
}

// The first output that is refused.
fn all_outputs(bytes: &[u8]) -> Result<(), Refusal>
    ensures { result ≡ outcome (first (output_answer bytes.now) 0 (outputs bytes.now)) }
{
    for o in 0..field(bytes, 9) {
        output(bytes, o)?;
    }
    Ok(())
}

/// Reads a circuit: refusals 6 to 10 with the place of the first field at fault, or done.
#[tactic(auto, using(crate::proofs::Outcomes::outcome_or), unfolding(crate::specs::Form::answer_of))]
pub fn check(bytes: &[u8]) -> Result<(), Refusal>
    ensures { result ≡ outcome (answer_of bytes.now) }
{
    head(bytes)?;
    all_gates(bytes)?;
    all_outputs(bytes)
}
