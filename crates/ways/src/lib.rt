#![tactic(auto)]
// One gate of a circuit on ciphertexts (01, 'Circuits'): the way in which each kind is run, that way run, and the ciphertext of a wire among others. It stands above
// `gates`, and below the runs of whole circuits.
ghost use Rattle.std.specs.Prelude.{◌≡◌, ◌+◌, ◌*◌, length};
ghost use Rattle.params.specs.Refusal.{answer, outcome, if_done};
ghost use Rattle.tlwe.specs.Linear.{negative};
ghost use Rattle.gates.specs.Refusals.{gate_number};
ghost use Rattle.gates.specs.Gate.{gated};
ghost use Rattle.ways.specs.Ways.{way_of, ran};
ghost use Rattle.ways.specs.Refusals.{way_number};
ghost use Rattle.ways.specs.Ciphers.{cipher_at};
ghost use Rattle.ways.specs.Private.{lesser};

use gate_sums::Kind;
use params::{Params, Refusal};

/// How a gate of a circuit is run on ciphertexts: a known bit, the first operand negated, a two-input gate, one whose result is negated, or a choice by the
/// first operand.
#[derive(Clone, Copy)]
pub enum Way {
    Known(bool),
    Negated,
    Gate(Kind),
    NegatedGate(Kind),
    Choice,
}

/// The way of a circuit's kind; of a number that no kind has, that of the first. Kind 8 runs xor and negates.
#[tactic(auto, using(crate::proofs::Needs::way_past), unfolding(crate::specs::Ways::way_of, crate::specs::Ways::ways))]
pub fn way_of(kind: usize) -> Way
    ensures { result ≡ way_of kind }
{
    match kinds::Kind::try_from(kind) {
        Ok(kinds::Kind::False) | Err(_) => Way::Known(false),
        Ok(kinds::Kind::True) => Way::Known(true),
        Ok(kinds::Kind::Not) => Way::Negated,
        Ok(kinds::Kind::And) => Way::Gate(Kind::And),
        Ok(kinds::Kind::Or) => Way::Gate(Kind::Or),
        Ok(kinds::Kind::Nand) => Way::Gate(Kind::Nand),
        Ok(kinds::Kind::Nor) => Way::Gate(Kind::Nor),
        Ok(kinds::Kind::Xor) => Way::Gate(Kind::Xor),
        Ok(kinds::Kind::Xnor) => Way::NegatedGate(Kind::Xor),
        Ok(kinds::Kind::AndNy) => Way::Gate(Kind::AndNy),
        Ok(kinds::Kind::AndYn) => Way::Gate(Kind::AndYn),
        Ok(kinds::Kind::OrNy) => Way::Gate(Kind::OrNy),
        Ok(kinds::Kind::OrYn) => Way::Gate(Kind::OrYn),
        Ok(kinds::Kind::Mux) => Way::Choice,
    }
}

// Each word negated.
fn negate(out: &mut [u32])
    ensures { out.new ≡ negative (length out.old) out.old }
{
    for i in 0..out.len() {
        out[i] = ring::negated(out[i]);
    }
}

// A two-input gate, its result negated.
fn negated_gate(
    p: Params,
    kind: Kind,
    a: &[u32],
    b: &[u32],
    ksk: &[u32],
    bsk: &[u32],
    out: &mut [u32],
) -> Result<(), Refusal>
    ensures said { result ≡ outcome (answer (gate_number p (length a.now) (length b.now) (length ksk.now) (length bsk.now) (length out.old))) }
    ensures written { out.new ≡ if_done (gate_number p (length a.now) (length b.now) (length ksk.now) (length bsk.now) (length out.old)) (negative (p.n + 1) (gated p kind ksk.now bsk.now a.now b.now)) out.old }
{
    gates::gate(p, kind, a, b, ksk, bsk, out)?;
    negate(out);
    Ok(())
}

/// A way on the ciphertexts a, b and c, of which it takes those that it needs. Refusals: 1, 2, as those of the gate that it runs.
pub fn run_way(
    p: Params,
    way: Way,
    a: &[u32],
    b: &[u32],
    c: &[u32],
    ksk: &[u32],
    bsk: &[u32],
    out: &mut [u32],
) -> Result<(), Refusal>
    ensures said { result ≡ outcome (answer (way_number p way (length a.now) (length b.now) (length c.now) (length ksk.now) (length bsk.now) (length out.old))) }
    ensures written { out.new ≡ if_done (way_number p way (length a.now) (length b.now) (length c.now) (length ksk.now) (length bsk.now) (length out.old)) (ran p ksk.now bsk.now way a.now b.now c.now) out.old }
{
    match way {
        Way::Known(bit) => gate_sums::wires::constant(p, bit, out),
        Way::Negated => gate_sums::wires::not(p, a, out),
        Way::Gate(kind) => gates::gate(p, kind, a, b, ksk, bsk, out),
        Way::NegatedGate(kind) => negated_gate(p, kind, a, b, ksk, bsk, out),
        Way::Choice => named_gates::mux(p, a, b, c, ksk, bsk, out),
    }
}

// Where ciphertext w begins among len words, n + 1 words to a ciphertext; where that is past their end, the end.
fn place(w: usize, n: u32, len: usize) -> usize
    ensures { result ≡ lesser (w * (n + 1)) len }
{
    let words = n as usize + 1;
    let most = len / words;
    if w > most { len } else { w * words }
}

// The less of two numbers.
fn less(a: usize, b: usize) -> usize
    ensures { result ≡ lesser a b }
{
    if a <= b { a } else { b }
}

/// The ciphertext of wire w among ciphertexts one after another; past their end, what there is of it.
pub fn ciphertext(p: Params, ws: &[u32], w: usize) -> &[u32]
    ensures { result.now ≡ cipher_at p ws.now w }
{
    let words = p.n as usize + 1;
    let from = place(w, p.n, ws.len());
    let to = from + less(words, ws.len() - from);
    &ws[from..to]
}
