// Reads a circuit's bytes from standard input and prints what they say (01, 'Circuits'). The text is `report::describe`'s, which is proved;
// here is only reading and writing. Input longer than any circuit, which is 8,331 bytes, is refused like any wrong length, so one byte more
// than that is enough to read.
#![tactic(auto)]

ghost use Rattle.std.specs.Prelude.{◌≡◌, List, ℕ, ◌≤◌, ◌<◌, length, take, OnOk, IfSome};
ghost use Rattle.std.specs.Io.KnownBytes.{Appends};
ghost use Rattle.circuit.specs.Form.{longest};
ghost use Rattle.report.specs.Text.{room, text_of};

use std::io;
use std::io::{Read, Write};

// The text of the n bytes that were read, into the front of the slice lent for it, and its length. Where these bytes are as much of the input bs as
// the lent slice takes, it is the text of all of bs: so the slice has to be longer than any circuit, and the text's as long as any text.
fn tell(input: &[u8], n: usize, text: &mut [u8]) -> usize
    requires { (longest < length input.now) × (n ≤ length input.now) × (room ≤ length text.old) }
    ensures fits { result ≤ length text.new }
    ensures told { (bs : List ℕ) → take (length input.now) bs ≡ take n input.now → take result text.new ≡ text_of bs }
{
    report::describe(&input[..n], text).unwrap()
}

// The whole program, of any input and output. Of an input whose bytes are known it writes their text, all of it, and nothing else.
fn print_text<R: Read, W: Write>(input: &mut R, output: &mut W) -> io::Result<()>
    ensures { OnOk result (IfSome (R.remaining input.old) (λ bs. Appends (W.contents output.old) (W.contents output.new) (text_of bs))) }
{
    let mut bytes = [0u8; 8332];
    let n = intake::read_up_to(input, &mut bytes)?;
    let mut text = [0u8; 1280];
    let length = tell(&bytes, n, &mut text);
    output.write_all(&text[..length])
}

fn main(rt: HostRuntime) -> io::Result<()> {
    print_text(&mut rt.stdin(), &mut rt.stdout())
}
