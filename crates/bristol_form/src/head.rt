// The head of a text: the numbers of gates, wires, inputs and outputs.
ghost use Rattle.std.specs.Prelude.{◌≡◌, IfOk, ◌||◌, ℕ, ◌<◌, ltb, eqb};
ghost use Rattle.params.specs.declared.refusal.Refusal.TheVariants.{Text};
ghost use Rattle.params.specs.Refusal.{unless, given, outcome};
ghost use Rattle.circuit.specs.Form.{first};
ghost use Rattle.tokens.specs.Tokens.{past, token_at, no_number};
ghost use Rattle.bristol_form.specs.Says.{input_values, sizes_to, input_sizes, output_values, output_sizes, outputs};
ghost use Rattle.bristol_form.specs.Form.{size_answer, head_answer, head_limit};
ghost use Rattle.bristol_form.specs.Private.{sizes_answer, head_of};

use crate::{HeadRead, Sizes};
use params::Refusal;
use tokens::{Token, next, skip};

// So many sizes from a place on; the place of the first by which their sum passes the bound.
fn sizes(text: &[u8], at: usize, count: usize, bound: usize) -> Result<Sizes, usize>
    requires { bound < no_number }
    ensures told { (number : ℕ) → 0 < number → first (size_answer text.now at number bound) 0 count ≡ sizes_answer number result }
    ensures summed { IfOk result (λ s. (s.sum ≡ sizes_to text.now at count) × (s.at ≡ past text.now at count)) }
{
    let mut p = at;
    let mut sum = 0;
    for _ in 0..count {
        let t = next(text, p);
        sum += t.number;
        if bound < sum {
            return Err(t.start);
        }
        p = t.end;
    }
    Ok(Sizes { sum, at: p })
}

// The first limit that a head in the form passes: the place and the number of the input values' sizes and of the output values', and the outputs.
fn head_limit(
    text: &[u8],
    place: usize,
    ins: usize,
    further: usize,
    outs: usize,
    sum: usize,
) -> Result<(), Refusal>
    requires { (place ≡ input_sizes text.now) × (ins ≡ input_values text.now) × (further ≡ output_sizes text.now) × (outs ≡ output_values text.now) × (sum ≡ outputs text.now) × (ins < no_number) × (outs < no_number) }
    ensures { result ≡ outcome (head_limit text.now) }
{
    sizes(text, place, ins, 256).map_err(Refusal::Limit)?;
    sizes(text, further, outs, 64).map_err(Refusal::Limit)?;
    // the token at fault is looked for only where there is none to set
    if sum == 0 {
        return Err(Refusal::Limit(next(text, skip(text, place, ins + outs)).start));
    }
    Ok(())
}

// The next token, which is to be a number.
fn number(text: &[u8], at: usize) -> Result<Token, Refusal>
    ensures { result ≡ unless (ltb (token_at text.now at).number no_number) (Text (token_at text.now at).start) (Ok (token_at text.now at)) }
{
    let t = next(text, at);
    Refusal::Text(t.start).unless(t.number < 4294967296)?;
    Ok(t)
}

// Whether a gate is left to set wires, or all of them are inputs.
fn all_set(gates: usize, inputs: usize, wires: usize) -> bool
    ensures { result ≡ ltb 0 gates || eqb inputs wires }
{
    0 < gates || inputs == wires
}

// The head.
pub(crate) fn head(text: &[u8]) -> Result<HeadRead, Refusal>
    ensures { result ≡ given (head_answer text.now) (head_of text.now) }
{
    let g = number(text, 0)?;
    let w = number(text, g.end)?;
    Refusal::Text(w.start).unless(g.number <= w.number)?;
    let n = number(text, w.end)?;
    let ins = sizes(text, n.end, n.number, w.number - g.number).map_err(Refusal::Text)?;
    if !all_set(g.number, ins.sum, w.number) {
        return Err(Refusal::Text(next(text, skip(text, w.end, n.number)).start));
    }
    let m = number(text, ins.at)?;
    let outs = sizes(text, m.end, m.number, w.number).map_err(Refusal::Text)?;
    Ok(HeadRead {
        gates: g.number,
        wires: w.number,
        inputs: ins.sum,
        outputs: outs.sum,
        body: outs.at,
        limit: head_limit(text, n.end, n.number, m.end, m.number, outs.sum),
    })
}
