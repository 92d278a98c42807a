// The texts of many circuits, good and bad, one after the other: circuits made by a rule, 01's example and the largest among them, with a byte
// changed or the length cut, and circuits of muxes alone. The expected output is made by the harness, which reads and evaluates circuits by document 01 alone, has the
// same rule, and counts the work by running (oracle/program).
#![tactic(auto)]

ghost use Rattle.std.specs.Prelude.{◌≤◌, ◌<◌};

use std::io;
use std::io::Write;

// Writes the text of a circuit's bytes.
fn show(output: &mut impl Write, bytes: &[u8]) -> io::Result<()> {
    let mut text = [0u8; 1280];
    let length = report::describe(bytes, &mut text).unwrap();
    output.write_all(&text[..length])
}

// A byte at a place, where there is one.
fn put(out: &mut [u8], at: usize, value: u8) {
    if at < out.len() {
        out[at] = value;
    }
}

// A 16-bit field at a place, low byte first.
fn put_field(out: &mut [u8], at: usize, value: usize)
    requires { at < 65536 }
{
    put(out, at, (value % 256) as u8);
    put(out, at + 1, (value / 256 % 256) as u8);
}

// The mark, version 1 and the counts.
fn put_head(out: &mut [u8], inputs: usize, gates: usize, outputs: usize) {
    put_field(out, 0, 69 + 256 * 71);
    put_field(out, 2, 76 + 256);
    put_field(out, 5, inputs);
    put_field(out, 7, gates);
    put_field(out, 9, outputs);
}

// The kind of gate g, whose own wire is own: true where there is no wire yet, else the one kind that is asked for, or, where that is none of a circuit's, nand
// first and then the next kinds in turn.
fn kind_of(only: u8, own: usize, g: usize) -> u8
    requires { g < 65536 }
{
    if own == 0 {
        return 1;
    }
    if only < 14 {
        return only;
    }
    ((g + 5) % 14) as u8
}

// How many operands a kind needs.
fn needed(kind: u8) -> u8 {
    match kind {
        0 | 1 => 0,
        2 => 1,
        13 => 3,
        _ => 2,
    }
}

// A wire, where operand x is needed, else 0.
fn operand(kind: u8, x: u8, wire: usize) -> usize {
    if x < needed(kind) {
        return wire;
    }
    0
}

// Gate g: its operands are the wire at a third of its own, the wire before it, and the wire at half of it.
fn put_gate(out: &mut [u8], only: u8, own: usize, g: usize)
    requires { (own < 8000) × (g < 8000) }
{
    let at = 11 + 8 * g;
    let kind = kind_of(only, own, g);
    let before = own.saturating_sub(1);
    put(out, at, kind);
    put_field(out, at + 2, operand(kind, 0, own / 3));
    put_field(out, at + 4, operand(kind, 1, before));
    put_field(out, at + 6, operand(kind, 2, own / 2));
}

// All gates.
fn put_gates(out: &mut [u8], only: u8, inputs: usize, gates: usize)
    requires { (inputs ≤ 300) × (gates ≤ 1100) }
{
    for g in 0..gates {
        put_gate(out, only, inputs + g, g);
    }
}

// All outputs: the last wire, the one before it, and so on, and wire 0 where there is none.
fn put_outputs(out: &mut [u8], wires: usize, gates: usize, outputs: usize)
    requires { (gates ≤ 1100) × (outputs ≤ 100) }
{
    for o in 0..outputs {
        put_field(out, 11 + 8 * gates + 2 * o, wires.saturating_sub(o + 1));
    }
}

// The circuit of these counts, its gates of one kind or of all, with the byte at a place changed, and of it so many bytes.
fn case_of(
    output: &mut impl Write,
    only: u8,
    inputs: usize,
    gates: usize,
    outputs: usize,
    place: usize,
    value: u8,
    count: usize,
) -> io::Result<()>
    requires { (inputs ≤ 300) × (gates ≤ 1100) × (outputs ≤ 100) × (count ≤ 9000) }
{
    let mut bytes = [0u8; 9000];
    put_head(&mut bytes, inputs, gates, outputs);
    put_gates(&mut bytes, only, inputs, gates);
    put_outputs(&mut bytes, inputs + gates, gates, outputs);
    put(&mut bytes, place, value);
    show(output, &bytes[..count])
}

// The same with all kinds in turn.
fn case(
    output: &mut impl Write,
    inputs: usize,
    gates: usize,
    outputs: usize,
    place: usize,
    value: u8,
    count: usize,
) -> io::Result<()>
    requires { (inputs ≤ 300) × (gates ≤ 1100) × (outputs ≤ 100) × (count ≤ 9000) }
{
    case_of(output, 14, inputs, gates, outputs, place, value, count)
}

// 01's example, which the rule gives for these counts, with a byte changed: for each place and value of a list.
fn examples(output: &mut impl Write, changes: &[(usize, u8)]) -> io::Result<()> {
    for (place, value) in changes {
        case(output, 2, 1, 1, *place, *value, 21)?;
    }
    Ok(())
}

// Lengths: nothing, too short for a head, and each side of the right one.
fn lengths(output: &mut impl Write) -> io::Result<()> {
    case(output, 2, 1, 1, 9999, 0, 0)?;
    case(output, 2, 1, 1, 9999, 0, 10)?;
    case(output, 2, 1, 1, 9999, 0, 11)?;
    case(output, 2, 1, 1, 9999, 0, 20)?;
    case(output, 2, 1, 1, 9999, 0, 21)?;
    case(output, 2, 1, 1, 9999, 0, 22)
}

// The counts, each side of their ends.
fn counts(output: &mut impl Write) -> io::Result<()> {
    case(output, 256, 0, 1, 9999, 0, 13)?;
    case(output, 257, 0, 1, 9999, 0, 13)?;
    case(output, 1, 1024, 1, 9999, 0, 8205)?;
    case(output, 1, 1025, 1, 9999, 0, 8213)?;
    case(output, 1, 0, 0, 9999, 0, 11)?;
    case(output, 1, 0, 64, 9999, 0, 139)?;
    case(output, 1, 0, 65, 9999, 0, 141)
}

// Tables: no wire at all, no inputs, one, four and five inputs, every kind, many outputs, the largest circuit and a byte more.
fn tables(output: &mut impl Write) -> io::Result<()> {
    case(output, 0, 0, 1, 9999, 0, 13)?;
    case(output, 0, 5, 2, 9999, 0, 55)?;
    case(output, 1, 0, 1, 9999, 0, 13)?;
    case(output, 3, 30, 9, 9999, 0, 269)?;
    case(output, 4, 40, 64, 9999, 0, 459)?;
    case(output, 5, 7, 3, 9999, 0, 73)?;
    case(output, 256, 1024, 64, 9999, 0, 8331)?;
    case(output, 256, 1024, 64, 9999, 0, 8332)
}

// Muxes alone: one, behind a constant, a few, and as many as there can be, whose work is the most that a circuit has.
fn muxes(output: &mut impl Write) -> io::Result<()> {
    case_of(output, 13, 3, 1, 1, 9999, 0, 21)?;
    case_of(output, 13, 0, 3, 1, 9999, 0, 37)?;
    case_of(output, 13, 4, 6, 2, 9999, 0, 63)?;
    case_of(output, 13, 256, 1024, 64, 9999, 0, 8331)
}

// The mark and the version.
const MARKS: [(usize, u8); 6] = [(0, 70), (1, 0), (2, 77), (3, 2), (3, 0), (4, 1)];

// A gate's fields; its kinds, the operands of a nand being there; and the output.
const GATES: [(usize, u8); 21] = [
    (11, 14),
    (12, 1),
    (13, 2),
    (14, 1),
    (15, 2),
    (17, 1),
    (18, 1),
    (11, 0),
    (11, 2),
    (11, 3),
    (11, 4),
    (11, 6),
    (11, 7),
    (11, 8),
    (11, 9),
    (11, 10),
    (11, 11),
    (11, 12),
    (11, 13),
    (19, 3),
    (20, 1),
];

fn main(rt: HostRuntime) -> io::Result<()> {
    let output = &mut rt.stdout();
    lengths(output)?;
    examples(output, &MARKS)?;
    counts(output)?;
    examples(output, &GATES)?;
    tables(output)?;
    muxes(output)
}
