// The lines of one gate, by its kind: what specs/Steps.antt gives, three places for each kind.
ghost use Rattle.std.specs.Prelude.{◌≡◌, ◌+◌, ◌≤◌, ◌<◌, length};
ghost use Rattle.bristol_export.specs.Private.{laid};
ghost use Rattle.bristol_export.specs.Steps.{source_of, count, step_at};
ghost use Rattle.bristol_export.specs.Text.{step_text, steps_text};

use crate::text::put_line;

// How many lines each kind has.
const COUNT: [usize; 14] = [1, 1, 1, 1, 3, 2, 3, 1, 2, 2, 2, 3, 3, 3];

// The lines, three places for each kind, each line by three digits: its name, 1 XOR, 2 AND, 3 INV, 4 EQ; what it reads first, 0 to 2 the operands a, b and c, 3 and 4
// the wires n and m that the gate's first two lines set, 5 and 6 the constants 0 and 1; what it reads second, beside INV and EQ the first again.
const LINES: [usize; 42] = [
    455, // false: EQ 0
    0, 0, 466, // true: EQ 1
    0, 0, 300, // not: INV a
    0, 0, 201, // and: AND a b
    0, 0, 101, // or: XOR a b
    201, // AND a b
    134, // XOR n m
    201, // nand: AND a b
    333, // INV n
    0, 300, // nor: INV a
    311, // INV b
    234, // AND n m
    101, // xor: XOR a b
    0, 0, 101, // xnor: XOR a b
    333, // INV n
    0, 300, // and_ny: INV a
    231, // AND n b
    0, 311, // and_yn: INV b
    203, // AND a n
    0, 311, // or_ny: INV b
    203, // AND a n
    344, // INV m
    300, // or_yn: INV a
    231, // AND n b
    344, // INV m
    112, // mux: XOR b c
    203, // AND a n
    142, // XOR m c
];

// How many lines a gate of this kind has.
pub(crate) fn count_of(kind: usize) -> usize
    requires { kind ≤ 13 }
    ensures { (result ≡ count kind) × (1 ≤ result) × (result ≤ 3) }
{
    COUNT[kind]
}

// The name of line s of a kind.
fn name_of(kind: usize, s: usize) -> usize
    requires { (kind ≤ 13) × (s < count kind) }
    ensures { (result ≡ (step_at kind s).name) × (1 ≤ result) × (result ≤ 4) }
{
    LINES[3 * kind + s] / 100
}

// What line s of a kind reads first.
fn first_of(kind: usize, s: usize) -> usize
    requires { (kind ≤ 13) × (s < count kind) }
    ensures { (result ≡ (step_at kind s).first) × (result < 7) }
{
    LINES[3 * kind + s] / 10 % 10
}

// What line s of a kind reads second.
fn second_of(kind: usize, s: usize) -> usize
    requires { (kind ≤ 13) × (s < count kind) }
    ensures { (result ≡ (step_at kind s).second) × (result < 7) }
{
    LINES[3 * kind + s] % 10
}

// The number that a line writes for what it reads.
fn source(which: usize, a: usize, b: usize, c: usize, n: usize) -> usize
    requires { (which < 7) × (a < 9990) × (b < 9990) × (c < 9990) × (n < 9990) }
    ensures { (result ≡ source_of which a b c n) × (result < 10000) }
{
    let sources = [a, b, c, n, n + 1, 0, 1];
    sources[which]
}

// Line s of a gate, whose first line sets n.
fn put_step(
    out: &mut [u8],
    at: usize,
    kind: usize,
    a: usize,
    b: usize,
    c: usize,
    n: usize,
    s: usize,
) -> usize
    requires at_bound { (at ≤ 100000) × (kind ≤ 13) × (s < count kind) }
    requires a_bound { (a < 9990) × (b < 9990) × (c < 9990) × (n < 9990) }
    ensures value { result ≡ at + length (step_text kind a b c n s) }
    ensures out_after { out.new ≡ laid out.old at (step_text kind a b c n s) }
{
    let x = source(first_of(kind, s), a, b, c, n);
    let y = source(second_of(kind, s), a, b, c, n);
    put_line(out, at, name_of(kind, s), x, y, n + s)
}

// All lines of a gate.
pub(crate) fn put_steps(
    out: &mut [u8],
    at: usize,
    kind: usize,
    a: usize,
    b: usize,
    c: usize,
    n: usize,
) -> usize
    requires at_bound { (at ≤ 99900) × (kind ≤ 13) }
    requires a_bound { (a < 9990) × (b < 9990) × (c < 9990) × (n < 9990) }
    ensures value { result ≡ at + length (steps_text kind a b c n) }
    ensures out_after { out.new ≡ laid out.old at (steps_text kind a b c n) }
{
    let mut to = at;
    for s in 0..count_of(kind) {
        to = put_step(out, to, kind, a, b, c, n, s);
    }
    to
}
