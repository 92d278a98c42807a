// One gate of a text, token by token.
ghost use Rattle.std.specs.Prelude.{◌≡◌, OnOk, ◌&&◌, suc, ◌≤◌, ◌<◌, eqb};
ghost use Rattle.params.specs.Refusal.{given};
ghost use Rattle.bristol_form.specs.Says.{gates, gate_at, is_set, set_count};
ghost use Rattle.bristol_form.specs.Form.{name_good, gate_answer};
ghost use Rattle.bristol_form.specs.Private.{Says, Holds, name_answer, named_of, gate_of};

use crate::numbers::read_counts;
use crate::rows::{operands, results};
use crate::wires::is_set;
use crate::{GateRead, HeadRead};
use params::Refusal;
use tokens::{name, next};

// Whether a name goes with k operands, the first of which is this number, and a set wire or not.
#[tactic(auto, unfolding(crate::specs::Form::name_good))]
fn name_good(k: usize, constant: usize, set: bool, name: usize) -> bool
    ensures { result ≡ name_good k constant set name }
{
    if k == 1 {
        (name == 3 || name == 5) && set || name == 4 && constant <= 1
    } else {
        name == 6 || k == 2 && (name == 1 || name == 2)
    }
}

// Whether the one operand of a gate with one is a set wire; false for other gates, whose names do not ask.
fn given(text: &[u8], bits: &[u8], h: HeadRead, j: usize, k: usize, w: usize) -> bool
    requires { Says text.now h × Holds text.now bits.now j 0 }
    ensures { result ≡ eqb k 1 && is_set text.now j w }
{
    k == 1 && is_set(text, bits, h, j, w)
}

// A gate up to whose name nothing is refused: the numbers of its operands and results, the first operand, whether that is a set wire, and the name's place.
fn named(
    text: &[u8],
    k: usize,
    results: usize,
    constant: usize,
    set: bool,
    at: usize,
) -> Result<GateRead, Refusal>
    ensures { result ≡ given (name_answer text.now k constant set at) (named_of text.now results at) }
{
    let n = name(text, at);
    Refusal::Text(n.start).unless(name_good(k, constant, set, n.number))?;
    Ok(GateRead {
        results,
        name: n.number,
        named: n.start,
        at: n.end,
    })
}

// Gate j, which begins at p, so many wires being set before it.
#[tactic(auto, using(crate::proofs::GateParts::operands_begin, crate::proofs::GateParts::results_begin, crate::proofs::GateParts::gate_ends))]
pub(crate) fn gate(
    text: &[u8],
    bits: &mut [u8],
    h: HeadRead,
    j: usize,
    p: usize,
    set: usize,
) -> Result<GateRead, Refusal>
    requires says { Says text.now h × Holds text.now bits.old j 0 }
    requires j_lt_gates { (j < gates text.now) × (p ≡ gate_at text.now j) × (set ≡ set_count text.now j) × (set ≤ h.wires) }
    ensures said { result ≡ given (gate_answer text.now j) (gate_of text.now j) }
    ensures holds { OnOk result (Holds text.now bits.new (suc j) 0) }
{
    let c = read_counts(text, h, j, p, set)?;
    let constant = next(text, c.at).number;
    let set_wire = given(text, bits, h, j, c.operands, constant);
    let r = operands(text, bits, h, j, c.at, c.operands)?;
    let n = results(text, bits, h, j, r, c.results)?;
    named(text, c.operands, c.results, constant, set_wire, n)
}
