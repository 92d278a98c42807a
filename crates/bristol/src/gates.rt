// The gates and the outputs of a text, written in our form. The text is one that is not refused.
ghost use Rattle.std.specs.Prelude.{◌≡◌, cond, suc, ◌+◌, ◌*◌, ◌≤◌, ◌<◌, ltb, eqb, length};
ghost use Rattle.ring.specs.Lists.{joined};
ghost use Rattle.tokens.specs.Tokens.{eqw_name};
ghost use Rattle.bristol_form.specs.Says.{gates, wires, inputs, outputs, body, gate_at, made};
ghost use Rattle.bristol.specs.Import.{ours_to, kind_for, needs, gate_bytes, field_bytes, output_for};
ghost use Rattle.report.specs.Private.{splice};
ghost use Rattle.bristol.specs.Private.{Tabled, Taken, line_at};

use crate::Line;
use crate::bytes::{put_eight, put_field};
use crate::lines::line;
use crate::ours::{ours, put_ours};

// The kind of a gate of this name.
#[tactic(auto, unfolding(crate::specs::Import::kind_for))]
fn kind_for(name: usize, constant: usize) -> usize
    ensures { result ≡ kind_for name constant }
{
    match name {
        1 => 7,
        2 => 3,
        3 => 2,
        _ => constant,
    }
}

// How many operands our gate of this name has.
#[tactic(auto, unfolding(crate::specs::Import::needs))]
fn needed(name: usize) -> usize
    ensures { result ≡ needs name }
{
    match name {
        1 | 2 => 2,
        3 => 1,
        _ => 0,
    }
}

// Our wire for the operand w of index x, where so many are needed; else 0.
fn operand_for(
    text: &[u8],
    table: &[u16],
    ins: usize,
    most: usize,
    j: usize,
    p: usize,
    before: usize,
    x: usize,
    need: usize,
    w: usize,
) -> usize
    requires { (ins ≡ inputs text.now) × (most ≡ wires text.now) × Taken text.now × (j ≤ gates text.now) × (p ≡ gate_at text.now j) × (before ≡ made text.now j) × Tabled text.now table.now j }
    ensures { result ≡ cond (ltb x need) (ours_to text.now j w) 0 }
{
    if x < need {
        ours(text, table, ins, most, j, p, before, w)
    } else {
        0
    }
}

// Our gate for the text's gate j, if it makes one, from a place on; the place after it.
fn put_gate(
    text: &[u8],
    table: &[u16],
    out: &mut [u8],
    at: usize,
    ins: usize,
    most: usize,
    j: usize,
    p: usize,
    before: usize,
    g: Line,
) -> usize
    requires ins_value { (ins ≡ inputs text.now) × (most ≡ wires text.now) × Taken text.now × (j < gates text.now) × (p ≡ gate_at text.now j) × (before ≡ made text.now j) × Tabled text.now table.now j }
    requires g_value { (g ≡ line_at text.now (gate_at text.now j)) × (at + length (gate_bytes text.now j) ≤ length out.old) }
    ensures value { result ≡ at + length (gate_bytes text.now j) }
    ensures written { out.new ≡ splice out.old at (gate_bytes text.now j) }
{
    if g.name == 5 {
        return at;
    }
    let need = needed(g.name);
    let a = operand_for(text, table, ins, most, j, p, before, 0, need, g.first);
    let b = operand_for(text, table, ins, most, j, p, before, 1, need, g.second);
    put_eight(out, at, kind_for(g.name, g.first), a, b);
    at + 8
}

// Our wire for what the text's gate j sets.
fn own_wire(
    text: &[u8],
    table: &[u16],
    ins: usize,
    most: usize,
    j: usize,
    p: usize,
    before: usize,
    g: Line,
) -> usize
    requires ins_value { (ins ≡ inputs text.now) × (most ≡ wires text.now) × Taken text.now × (j < gates text.now) × (p ≡ gate_at text.now j) × (before ≡ made text.now j) × Tabled text.now table.now j }
    requires g_value { g ≡ line_at text.now (gate_at text.now j) }
    ensures value { result ≡ cond (eqb g.name eqw_name) (ours_to text.now j g.first) (inputs text.now + made text.now j) }
    ensures upper_bound { result < 65536 }
{
    if g.name == 5 {
        return ours(text, table, ins, most, j, p, before, g.first);
    }
    ins + before
}

// The table after the text's gate j; left alone where the text has more wires than it.
fn keep(
    text: &[u8],
    table: &mut [u16],
    ins: usize,
    most: usize,
    j: usize,
    p: usize,
    before: usize,
    g: Line,
)
    requires ins_value { (ins ≡ inputs text.now) × (most ≡ wires text.now) × Taken text.now × (j < gates text.now) × (p ≡ gate_at text.now j) × (before ≡ made text.now j) × Tabled text.now table.old j }
    requires g_value { g ≡ line_at text.now (gate_at text.now j) }
    ensures { Tabled text.now table.new (suc j) }
{
    if 24576 < most {
        return;
    }
    let own = own_wire(text, table, ins, most, j, p, before, g);
    put_ours(table, g.result, own);
}

// All gates, from byte 11 on; the table is that of all gates afterwards. The place after them.
pub(crate) fn put_gates(
    text: &[u8],
    table: &mut [u16],
    out: &mut [u8],
    ins: usize,
    most: usize,
    start: usize,
    total: usize,
) -> usize
    requires ins_value { (ins ≡ inputs text.now) × (most ≡ wires text.now) × (start ≡ body text.now) × (total ≡ gates text.now) × Taken text.now × Tabled text.now table.old 0 }
    requires text_in_bounds { 11 + 8 * made text.now (gates text.now) ≤ length out.old }
    ensures written { out.new ≡ splice out.old 11 (joined (gates text.now) (gate_bytes text.now)) }
    ensures known { Tabled text.now table.new (gates text.now) }
    ensures value { result ≡ gate_at text.now (gates text.now) }
{
    let mut p = start;
    let mut at = 11;
    let mut before = 0;
    for j in 0..total {
        let g = line(text, p);
        let next = put_gate(text, table, out, at, ins, most, j, p, before, g);
        keep(text, table, ins, most, j, p, before, g);
        before += (next - at) / 8;
        at = next;
        p = g.at;
    }
    p
}

// The outputs' wires, from a place on: so many, the text's last wires.
pub(crate) fn put_outputs(
    text: &[u8],
    table: &[u16],
    out: &mut [u8],
    at: usize,
    ins: usize,
    most: usize,
    total: usize,
    p: usize,
    before: usize,
    count: usize,
)
    requires ins_value { (ins ≡ inputs text.now) × (most ≡ wires text.now) × (total ≡ gates text.now) × Taken text.now × (p ≡ gate_at text.now total) × (before ≡ made text.now total) × Tabled text.now table.now total }
    requires count_value { (count ≡ outputs text.now) × (at + 2 * count ≤ length out.old) }
    ensures written { out.new ≡ splice out.old at (joined (outputs text.now) (λ o. field_bytes (output_for text.now o))) }
{
    let from = most - count;
    for o in 0..count {
        let w = ours(text, table, ins, most, total, p, before, from + o);
        put_field(out, at + 2 * o, w);
    }
}
