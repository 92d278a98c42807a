// The operands and the results of a gate, wire by wire.
ghost use Rattle.std.specs.Prelude.{◌≡◌, OnOk, not, ◌&&◌, ◌||◌, ℕ, ◌*◌, ◌<◌, leb, ltb, eqb, length};
ghost use Rattle.params.specs.Refusal.{given};
ghost use Rattle.circuit.specs.Form.{first};
ghost use Rattle.tokens.specs.Tokens.{past};
ghost use Rattle.bristol_form.specs.Says.{wires, gate_at, operand_count, result_count, operands_place, results_place, is_set, set_by};
ghost use Rattle.bristol_form.specs.Form.{operand_answer, result_answer};
ghost use Rattle.bristol_form.specs.Private.{Says, Holds, held, held_bit};

use crate::HeadRead;
use crate::held::put_bit;
use crate::wires::{is_set, is_taken};
use params::Refusal;
use tokens::next;

// Whether w can be an operand of gate j, which has so many: a set wire, or EQ's constant.
fn operand_good(text: &[u8], bits: &[u8], h: HeadRead, j: usize, count: usize, w: usize) -> bool
    requires { Says text.now h × Holds text.now bits.now j 0 }
    ensures { result ≡ is_set text.now j w || eqb count 1 && leb w 1 }
{
    is_set(text, bits, h, j, w) || count == 1 && w <= 1
}

// The operands of gate j, from their place on; the place after them.
pub(crate) fn operands(
    text: &[u8],
    bits: &[u8],
    h: HeadRead,
    j: usize,
    at: usize,
    count: usize,
) -> Result<usize, Refusal>
    requires says { Says text.now h × Holds text.now bits.now j 0 }
    requires at_value { (at ≡ operands_place text.now (gate_at text.now j)) × (count ≡ operand_count text.now (gate_at text.now j)) }
    ensures { result ≡ given (first (operand_answer text.now j) 0 count) (past text.now at count) }
{
    let mut p = at;
    for _ in 0..count {
        let t = next(text, p);
        Refusal::Text(t.start).unless(operand_good(text, bits, h, j, count, t.number))?;
        p = t.end;
    }
    Ok(p)
}

// Whether w can be result y of gate j: a wire that is not set yet.
fn result_good(
    text: &[u8],
    bits: &[u8],
    h: HeadRead,
    j: usize,
    at: usize,
    y: usize,
    w: usize,
) -> bool
    requires { Says text.now h × (at ≡ results_place text.now (gate_at text.now j)) × Holds text.now bits.now j y }
    ensures { result ≡ ltb w h.wires && not (is_set text.now j w) && not (set_by text.now (gate_at text.now j) y w) }
{
    w < h.wires && !is_taken(text, bits, h, j, at, y, w)
}

// Wire w's bit is set from now on, where it has one.
fn hold(bits: &mut [u8], w: usize)
    requires { 8 * length bits.old ≡ held }
    ensures bits_len_unchanged { length bits.new ≡ length bits.old }
    ensures each { (v : ℕ) → v < held → held_bit bits.new v ≡ held_bit bits.old v || eqb v w }
{
    if w < 393216 {
        put_bit(bits, w);
    }
}

// The results of gate j, from their place on, whose bits are set; the place after them.
pub(crate) fn results(
    text: &[u8],
    bits: &mut [u8],
    h: HeadRead,
    j: usize,
    at: usize,
    count: usize,
) -> Result<usize, Refusal>
    requires says { Says text.now h × Holds text.now bits.old j 0 }
    requires at_value { (at ≡ results_place text.now (gate_at text.now j)) × (count ≡ result_count text.now (gate_at text.now j)) }
    ensures said { result ≡ given (first (result_answer text.now j) 0 count) (past text.now at count) }
    ensures holds { OnOk result (Holds text.now bits.new j count) }
{
    let mut p = at;
    for y in 0..count {
        let t = next(text, p);
        Refusal::Text(t.start).unless(result_good(text, bits, h, j, at, y, t.number))?;
        hold(bits, t.number);
        p = t.end;
    }
    Ok(p)
}
