// A whole text: its head, its gates, its end.
ghost use Rattle.std.specs.Prelude.{◌≡◌, cond, not, ◌&&◌, ◌||◌, ltb, eqb};
ghost use Rattle.params.specs.declared.refusal.Refusal.TheVariants.{Limit};
ghost use Rattle.params.specs.Refusal.{unless, done, given};
ghost use Rattle.circuit.specs.Form.{first};
ghost use Rattle.tokens.specs.Tokens.{eqw_name, mand_name};
ghost use Rattle.bristol_form.specs.Says.{gates};
ghost use Rattle.bristol_form.specs.Form.{gate_answer, checked_of};
ghost use Rattle.bristol_form.specs.Private.{Says, Holds, gates_of};

use crate::gate::gate;
use crate::head::head;
use crate::held::put_first;
use crate::{Contents, GatesRead, HeadRead};
use params::Refusal;
use tokens::next;

// The limit that a gate of this name passes, so many of our own gates standing before it: MAND is none of ours, and of our own there are 1,024 at most.
fn gate_limit(name: usize, made: usize, named: usize) -> Result<(), Refusal>
    ensures { result ≡ unless (not (eqb name mand_name) && (eqb name eqw_name || ltb made 1024)) (Limit named) done }
{
    Refusal::Limit(named).unless(name != 6 && (name == 5 || made < 1024))
}

// 1 for a gate of our own, 0 for EQW.
fn weight(name: usize) -> usize
    ensures { result ≡ cond (eqb name eqw_name) 0 1 }
{
    if name == 5 { 0 } else { 1 }
}

// The gates in order, from where they begin.
fn all_gates(text: &[u8], bits: &mut [u8], h: HeadRead) -> Result<GatesRead, Refusal>
    requires { Says text.now h × Holds text.now bits.old 0 0 }
    ensures { result ≡ given (first (gate_answer text.now) 0 (gates text.now)) (gates_of text.now) }
{
    let mut at = h.body;
    let mut set = h.inputs;
    let mut made = 0;
    let mut limit = Ok(());
    for j in 0..h.gates {
        let g = gate(text, bits, h, j, at, set)?;
        limit = limit.and(gate_limit(g.name, made, g.named));
        set += g.results;
        made += weight(g.name);
        at = g.at;
    }
    Ok(GatesRead { made, limit, at })
}

// The gates, over bits for the wires.
fn held_gates(text: &[u8], h: HeadRead) -> Result<GatesRead, Refusal>
    requires { Says text.now h }
    ensures { result ≡ given (first (gate_answer text.now) 0 (gates text.now)) (gates_of text.now) }
{
    let mut bits = [0u8; 49152];
    put_first(&mut bits, h.inputs);
    all_gates(text, &mut bits, h)
}

/// What a text says, or its refusal: 11 or 12, with the place of the token that shows it. 11 anywhere in the text comes before any 12.
pub fn check(text: &[u8]) -> Result<Contents, Refusal>
    ensures { result ≡ checked_of text.now }
{
    let h = head(text)?;
    let g = held_gates(text, h)?;
    let end = next(text, g.at).start;
    Refusal::Text(end).unless(end == text.len())?;
    h.limit?;
    g.limit?;
    Ok(Contents {
        gates: h.gates,
        wires: h.wires,
        inputs: h.inputs,
        outputs: h.outputs,
        made: g.made,
        body: h.body,
    })
}
