// Reading into lent bytes: the one loop that the programs have over a reader.
#![tactic(auto)]

ghost use Rattle.std.specs.Prelude.{◌≡◌, ◌≤◌, ℕ, length, take, IfOk, IfErr, IfSome};
ghost use Rattle.std.specs.Io.KnownBytes.{Consumes};

use std::io;
use std::io::Read;

// Reads into the front of the slice until it is full or the input ends, and answers how many bytes were read. Where the input's bytes are known, these are its first
// ones, as many as the slice takes, and it has the others left. A read that fails is an error, whatever was read before it, and then the input has lost what stands at the
// front of the slice. That an error comes from a read and from nothing else, no clause can tell: a reader's errors have no definition.
pub fn read_up_to<R: Read>(input: &mut R, buffer: &mut [u8]) -> io::Result<usize>
    ensures fits { IfOk result (λ n. n ≤ length buffer.new) }
    ensures first { IfOk result (λ n. IfSome (R.remaining input.old) (λ bs. take (length buffer.new) bs ≡ take n buffer.new)) }
    ensures left { IfOk result (λ n. Consumes (R.remaining input.old) (R.remaining input.new) (take n buffer.new)) }
    ensures failed { IfErr result (λ e. (n : ℕ) × Consumes (R.remaining input.old) (R.remaining input.new) (take n buffer.new)) }
{
    let mut done = 0;
    while done < buffer.len() {
        let n = input.read(&mut buffer[done..])?;
        if n == 0 {
            break;
        }
        done += n;
    }
    Ok(done)
}
