// The lines of the text.
ghost use Rattle.std.specs.Prelude.{◌≡◌, ◌+◌, ◌/◌, ◌%◌, ◌^◌, ◌≤◌, ◌<◌, length};
ghost use Rattle.ring.specs.Sums.{tab};
ghost use Rattle.circuit.specs.Form.{inputs, outputs, answer_of};
ghost use Rattle.circuit.specs.Private.{refusal};
ghost use Rattle.circuit.specs.Plain.{work_of};
ghost use Rattle.report.specs.Private.{splice};
ghost use Rattle.report.specs.Text.{counts_text, head_text, refused_text, refused_room, row_text, rows_to, text_of};

use crate::text::{put_byte, put_line, put_named};

// A refusal's line.
pub(crate) fn put_refused(out: &mut [u8], number: u32, place: usize) -> usize
    requires { refused_room ≤ length out.old }
    ensures value { (result ≡ length (refused_text (refusal number place))) × (result ≤ refused_room) }
    ensures out_after { out.new ≡ splice out.old 0 (refused_text (refusal number place)) }
{
    let a = put_named(out, 0, b"refused ", number as usize);
    let b = put_named(out, a, b" at ", place);
    put_byte(out, b, b'\n')
}

// Version, inputs and gates.
fn put_counts(bytes: &[u8], out: &mut [u8]) -> usize
    requires { ((answer_of bytes.now).number ≡ 0) × (128 ≤ length out.old) }
    ensures value { result ≡ length (counts_text bytes.now) }
    ensures out_after { out.new ≡ splice out.old 0 (counts_text bytes.now) }
{
    let counts = circuit::counts(bytes);
    let a = put_named(out, 0, b"EGL ", counts.version);
    let b = put_named(out, a, b" inputs ", counts.inputs);
    put_named(out, b, b" gates ", counts.gates)
}

// Line 1.
fn put_head(bytes: &[u8], work: u32, out: &mut [u8]) -> usize
    requires { ((answer_of bytes.now).number ≡ 0) × (work ≡ work_of bytes.now) × (128 ≤ length out.old) }
    ensures value { result ≡ length (head_text bytes.now) }
    ensures out_after { out.new ≡ splice out.old 0 (head_text bytes.now) }
{
    let counts = circuit::counts(bytes);
    let a = put_counts(bytes, out);
    let b = put_named(out, a, b" outputs ", counts.outputs);
    let c = put_named(out, b, b" work ", work as usize);
    put_byte(out, c, b'\n')
}

// 2^i as a count.
fn two_to(i: usize) -> usize
    requires { i ≤ 4 }
    ensures { result ≡ 2 ^ i }
{
    ring::power(i as u32) as usize
}

// The input bits of row r.
#[tactic(auto, using(ring::proofs::Tab::tab_none, ring::proofs::Tab::tab_more))]
fn row_inputs(r: usize, ins: &mut [u8])
    requires { length ins.old ≤ 4 }
    ensures { ins.new ≡ tab (length ins.old) (λ i. r / 2 ^ i % 2) }
{
    for i in 0..ins.len() {
        ins[i] = (r / two_to(i) % 2) as u8;
    }
}

// Row r of the table, over slices for its bits.
fn put_row_over(
    bytes: &[u8],
    r: usize,
    ins: &mut [u8],
    outs: &mut [u8],
    out: &mut [u8],
    at: usize,
) -> usize
    requires bytes_value { ((answer_of bytes.now).number ≡ 0) × (inputs bytes.now ≤ 4) × (outputs bytes.now ≤ 64) }
    requires ins_len { (length ins.old ≡ inputs bytes.now) × (length outs.old ≡ outputs bytes.now) × (at + 70 ≤ length out.old) }
    ensures value { result ≡ at + length (row_text bytes.now r) }
    ensures out_after { out.new ≡ splice out.old at (row_text bytes.now r) }
{
    row_inputs(r, ins);
    // a valid circuit on slices of its lengths is not refused
    let _ = circuit::run_plain(bytes, ins, outs);
    put_line(out, at, ins, outs)
}

// Row r of the table.
fn put_row(bytes: &[u8], r: usize, out: &mut [u8], at: usize) -> usize
    requires { ((answer_of bytes.now).number ≡ 0) × (inputs bytes.now ≤ 4) × (outputs bytes.now ≤ 64) × (at + 70 ≤ length out.old) }
    ensures value { result ≡ at + length (row_text bytes.now r) }
    ensures out_after { out.new ≡ splice out.old at (row_text bytes.now r) }
{
    let counts = circuit::counts(bytes);
    let n = counts.inputs;
    let m = counts.outputs;
    let mut ins = [0u8; 80];
    let mut outs = [0u8; 80];
    put_row_over(bytes, r, &mut ins[..n], &mut outs[..m], out, at)
}

// The table.
fn put_rows(bytes: &[u8], out: &mut [u8], at: usize) -> usize
    requires { ((answer_of bytes.now).number ≡ 0) × (inputs bytes.now ≤ 4) × (outputs bytes.now ≤ 64) × (at + 1120 ≤ length out.old) }
    ensures value { result ≡ at + length (rows_to bytes.now (2 ^ inputs bytes.now)) }
    ensures out_after { out.new ≡ splice out.old at (rows_to bytes.now (2 ^ inputs bytes.now)) }
{
    let counts = circuit::counts(bytes);
    let rows = two_to(counts.inputs);
    let mut to = at;
    for r in 0..rows {
        to = put_row(bytes, r, out, to);
    }
    to
}

// The whole text.
pub(crate) fn put_text(bytes: &[u8], out: &mut [u8]) -> usize
    requires { length out.old ≡ 1280 }
    ensures value { (result ≡ length (text_of bytes.now)) × (result ≤ 1280) }
    ensures out_after { out.new ≡ splice out.old 0 (text_of bytes.now) }
{
    let work = match circuit::work(bytes) {
        Ok(work) => work,
        Err(refusal) => return put_refused(out, refusal.number(), refusal.place()),
    };
    let a = put_head(bytes, work, out);
    let counts = circuit::counts(bytes);
    if 4 < counts.inputs {
        return a;
    }
    put_rows(bytes, out, a)
}
