// Reads a circuit's bytes from standard input and writes its text in the Bristol Fashion form to standard output; of bytes that are no circuit it writes the refusal's
// line to standard error instead (02, request 2026-02). The text is `bristol_export::export`'s and the line `report::refused`'s, which are proved; here is only reading
// and writing. Input longer than any circuit, which is 8,331 bytes, is refused like any wrong length, so one byte more than that is enough to read.
#![tactic(auto)]

ghost use Rattle.std.specs.Prelude.{◌≡◌, List, ℕ, ◌≤◌, ◌<◌, length, take, OnOk, IfSome};
ghost use Rattle.std.specs.Io.KnownBytes.{Appends};
ghost use Rattle.circuit.specs.Form.{longest};
ghost use Rattle.bristol_export.specs.Text.{longest_text};
ghost use Rattle.to_bristol.specs.Written.{text_of, line_of};

use std::io;
use std::io::{Read, Write};

// How many bytes of the text there are, and of the line.
#[derive(Drop)]
struct Told {
    text: usize,
    line: usize,
}

// The text of the n bytes that were read, or the line of their refusal, each into the front of what is lent for it. Where these bytes are as much of the input bs as the
// lent slice takes, it is the text or the line of all of bs: so the slice has to be longer than any circuit, and the text's as long as any text.
fn tell(input: &[u8], n: usize, text: &mut [u8], line: &mut [u8; 64]) -> Told
    requires { (longest < length input.now) × (n ≤ length input.now) × (longest_text ≤ length text.old) }
    ensures fits { (result.text ≤ length text.new) × (result.line ≤ length line.new) }
    ensures text { (bs : List ℕ) → take (length input.now) bs ≡ take n input.now → take result.text text.new ≡ text_of bs }
    ensures line { (bs : List ℕ) → take (length input.now) bs ≡ take n input.now → take result.line line.new ≡ line_of bs }
{
    match bristol_export::export(&input[..n], text) {
        Ok(length) => Told {
            text: length,
            line: 0,
        },
        Err(refusal) => Told {
            text: 0,
            line: report::refused(refusal.number(), refusal.place(), line),
        },
    }
}

// Room for the longest text. Only its length is told, so that no proof looks into so many zeros.
fn text_room() -> [u8; 71830]
    ensures { 71830 ≡ length result }
{
    [0u8; 71830]
}

// The whole program, of any input and two outputs. Of an input whose bytes are known it writes their text to the first, or the line of their refusal to the second, all
// of it, and nothing else.
fn write_text<R: Read, W: Write, E: Write>(
    input: &mut R,
    output: &mut W,
    errors: &mut E,
) -> io::Result<()>
    ensures text { OnOk result (IfSome (R.remaining input.old) (λ bs. Appends (W.contents output.old) (W.contents output.new) (text_of bs))) }
    ensures line { OnOk result (IfSome (R.remaining input.old) (λ bs. Appends (E.contents errors.old) (E.contents errors.new) (line_of bs))) }
{
    let mut bytes = [0u8; 8332];
    let n = intake::read_up_to(input, &mut bytes)?;
    let mut text = text_room();
    let mut line = [0u8; 64];
    let told = tell(&bytes, n, &mut text, &mut line);
    output.write_all(&text[..told.text])?;
    errors.write_all(&line[..told.line])
}

fn main(rt: HostRuntime) -> io::Result<()> {
    write_text(&mut rt.stdin(), &mut rt.stdout(), &mut rt.stderr())
}
