// The wire of our circuit that a wire of the text stands for: from a table, or, where the text has more wires than the table, from the text's earlier gates.
ghost use Rattle.std.specs.Prelude.{◌≡◌, false, cond, ◌||◌, ◌-◌, ◌≤◌, ◌<◌, ltb, eqb, length, set};
ghost use Rattle.ring.specs.Sums.{tab};
ghost use Rattle.tokens.specs.Tokens.{xor_name, and_name, eqw_name};
ghost use Rattle.tokens.specs.Back.{back_of};
ghost use Rattle.bristol_form.specs.Says.{gates, wires, inputs, gate_at, made};
ghost use Rattle.bristol.specs.Import.{ours_to};
ghost use Rattle.bristol.specs.Private.{tabled, Tabled, Taken, behind_of};

use crate::BehindLine;
use tokens::{back, name, next};

// Where the first operand of a gate of this name is next, p being where its last one is: XOR and AND have one more before that.
fn first_back(text: &[u8], named: usize, p: usize) -> usize
    ensures { result ≡ cond (eqb named xor_name || eqb named and_name) (back_of text.now p).before p }
{
    if named == 1 || named == 2 {
        back(text, p).before
    } else {
        p
    }
}

// The gate that ends at a place, read backwards.
fn line_back(text: &[u8], end: usize) -> BehindLine
    ensures { result ≡ behind_of text.now end }
{
    let n = back(text, end);
    let c = back(text, n.before);
    let a = back(text, c.before);
    let named = name(text, n.start);
    let set = next(text, c.start);
    let last = next(text, a.start);
    let first = first_back(text, named.number, a.before);
    let r = back(text, first);
    let k = back(text, r.before);
    BehindLine {
        name: named.number,
        result: set.number,
        last: last.number,
        at: k.before,
    }
}

// How many of our gates are before a gate of this name, so many being before the next one.
fn made_before(named: usize, count: usize) -> usize
    ensures { result ≡ cond (eqb named eqw_name) count (count - 1) }
{
    if named == 5 {
        count
    } else {
        count.saturating_sub(1)
    }
}

// Whether our gate for this one sets the wire: EQW makes none.
fn own(g: BehindLine, wire: usize) -> bool
    ensures { result ≡ cond (eqb g.name eqw_name) false (eqb g.result wire) }
{
    g.name != 5 && g.result == wire
}

// What stands for the wire before a gate that makes none for it: EQW's operand for its result.
fn wire_before(g: BehindLine, wire: usize) -> usize
    ensures { result ≡ cond (eqb g.result wire) g.last wire }
{
    if g.result == wire { g.last } else { wire }
}

// Our wire for wire w before gate j, which begins at p, so many of our gates being before it: the gates before it are read backwards, so that EQW after EQW is followed
// in one way through the text.
fn in_text(text: &[u8], ins: usize, j: usize, p: usize, before: usize, w: usize) -> usize
    requires { (ins ≡ inputs text.now) × Taken text.now × (j ≤ gates text.now) × (p ≡ gate_at text.now j) × (before ≡ made text.now j) }
    ensures { result ≡ ours_to text.now j w }
{
    let mut wire = w;
    let mut count = before;
    let mut at = p;
    for _ in (0..j).rev() {
        let g = line_back(text, at);
        count = made_before(g.name, count);
        if own(g, wire) {
            return ins + count;
        }
        wire = wire_before(g, wire);
        at = g.at;
    }
    wire
}

// Our wire for wire w before gate j, which begins at p, so many of our gates being before it, in a text of so many wires.
pub(crate) fn ours(
    text: &[u8],
    table: &[u16],
    ins: usize,
    most: usize,
    j: usize,
    p: usize,
    before: usize,
    w: usize,
) -> usize
    requires { (ins ≡ inputs text.now) × (most ≡ wires text.now) × Taken text.now × (j ≤ gates text.now) × (p ≡ gate_at text.now j) × (before ≡ made text.now j) × Tabled text.now table.now j }
    ensures { result ≡ ours_to text.now j w }
{
    if 24576 < most || 24576 <= w {
        in_text(text, ins, j, p, before, w)
    } else {
        usize::from(table[w])
    }
}

// The table before the first gate: each wire stands for itself.
pub(crate) fn start_table(table: &mut [u16])
    requires { length table.old ≡ tabled }
    ensures { table.new ≡ tab tabled (λ w. w) }
{
    for (w, own) in table.iter_mut().enumerate() {
        *own = w as u16;
    }
}

// Wire w stands for our wire v from now on.
pub(crate) fn put_ours(table: &mut [u16], w: usize, v: usize)
    requires { (length table.old ≡ tabled) × (v < 65536) }
    ensures { table.new ≡ cond (ltb w tabled) (set table.old w v) table.old }
{
    if w < 24576 {
        table[w] = v as u16;
    }
}
