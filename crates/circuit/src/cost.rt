// The work of a circuit: one for each blind rotation that its gates cost, so two for a mux (01, 'Circuits'; 02, 2026-03).
ghost use Rattle.std.specs.Prelude.{◌≡◌};
ghost use Rattle.circuit.specs.Plain.{work_of, work_answer};

use crate::fields::{byte, field};
use crate::form::check;
use kinds::work_of;
use params::Refusal;

// The sum over the gates.
#[tactic(auto, unfolding(crate::specs::Plain::work_of))]
pub(crate) fn total(bytes: &[u8]) -> u32
    ensures { result ≡ work_of bytes.now }
{
    let mut sum = 0u32;
    for g in 0..field(bytes, 7) {
        sum += work_of(byte(bytes, 11 + 8 * g));
    }
    sum
}

/// The work of a circuit, unless its bytes are refused: 6 to 10.
pub fn work(bytes: &[u8]) -> Result<u32, Refusal>
    ensures { result ≡ work_answer bytes.now }
{
    check(bytes)?;
    Ok(total(bytes))
}
