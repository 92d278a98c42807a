// Reads a circuit's text in the Bristol Fashion form from standard input and writes the circuit's bytes to standard output; of a text that is refused it writes a line
// to standard error instead (02, request 2026-02). The bytes are `bristol::import`'s and the line `report::refused`'s, which are proved; here is only reading and
// writing. A text of more than 1,048,576 bytes is not read to its end, which is said.
#![tactic(auto)]

ghost use Rattle.std.specs.Prelude.{◌≡◌, ◌≤◌, ◌<◌, List, [], length, take, codes, OnOk, IfSome};
ghost use Rattle.std.specs.Io.KnownBytes.{Appends};
ghost use Rattle.circuit.specs.Form.{longest};
ghost use Rattle.from_bristol.specs.Written.{circuit_of, line_of, longest_read, too_long};

use std::io;
use std::io::{Read, Write};

// How many bytes of the circuit there are, and of the line.
#[derive(Drop)]
struct Told {
    circuit: usize,
    line: usize,
}

// The circuit of a text, or the line of its refusal, each into the front of what is lent for it. There is room for any circuit, so 2 is not among the refusals.
fn tell(text: &[u8], circuit: &mut [u8], line: &mut [u8; 64]) -> Told
    requires { longest ≤ length circuit.old }
    ensures fits { (result.circuit ≤ length circuit.new) × (result.line ≤ length line.new) }
    ensures circuit { take result.circuit circuit.new ≡ circuit_of text.now }
    ensures line { take result.line line.new ≡ line_of text.now }
{
    match bristol::import(text, circuit) {
        Ok(length) => Told {
            circuit: length,
            line: 0,
        },
        Err(refusal) => Told {
            circuit: 0,
            line: report::refused(refusal.number(), refusal.place(), line),
        },
    }
}

// Room for the longest text that is read whole, and a byte more. Only its length is told, so that no proof looks into so many zeros.
fn buffer() -> [u8; 1048577]
    ensures { 1048577 ≡ length result }
{
    [0u8; 1048577]
}

// What is done with a text that was read whole.
fn write_told<W: Write, E: Write>(text: &[u8], output: &mut W, errors: &mut E) -> io::Result<()>
    ensures circuit { OnOk result (Appends (W.contents output.old) (W.contents output.new) (circuit_of text.now)) }
    ensures line { OnOk result (Appends (E.contents errors.old) (E.contents errors.new) (line_of text.now)) }
{
    let mut circuit = [0u8; 8331];
    let mut line = [0u8; 64];
    let told = tell(text, &mut circuit, &mut line);
    output.write_all(&circuit[..told.circuit])?;
    errors.write_all(&line[..told.line])
}

// The whole program, of any input and two outputs. Of an input whose bytes are known, and that is not too long, it writes their circuit to the first, or the line of
// their refusal to the second, all of it, and nothing else; of one that is too long it writes to the second that it is.
fn write_circuit<R: Read, W: Write, E: Write>(
    input: &mut R,
    output: &mut W,
    errors: &mut E,
) -> io::Result<()>
    ensures circuit { OnOk result (IfSome (R.remaining input.old) (λ bs. length bs ≤ longest_read → Appends (W.contents output.old) (W.contents output.new) (circuit_of bs))) }
    ensures line { OnOk result (IfSome (R.remaining input.old) (λ bs. length bs ≤ longest_read → Appends (E.contents errors.old) (E.contents errors.new) (line_of bs))) }
    ensures nothing { OnOk result (IfSome (R.remaining input.old) (λ bs. longest_read < length bs → output.new ≡ output.old)) }
    ensures longer { OnOk result (IfSome (R.remaining input.old) (λ bs. longest_read < length bs → Appends (E.contents errors.old) (E.contents errors.new) too_long)) }
{
    let mut bytes = buffer();
    let n = intake::read_up_to(input, &mut bytes)?;
    if n > 1048576 {
        return errors.write_all(b"refused: more than 1048576 bytes\n");
    }
    write_told(&bytes[..n], output, errors)
}

fn main(rt: HostRuntime) -> io::Result<()> {
    write_circuit(&mut rt.stdin(), &mut rt.stdout(), &mut rt.stderr())
}
