// What a circuit says of itself, as words in a lent slice: the numbers of the program's line 1, for a caller who sizes slices by them.
ghost use Rattle.std.specs.Prelude.{◌≡◌, [], ◌∷◌, ◌<◌, length};
ghost use Rattle.params.specs.Refusal.{outcome};
ghost use Rattle.circuit.specs.Form.{field_at};
ghost use Rattle.circuit.specs.Told.{told_words, told_answer, told_out};

use crate::cost::total;
use crate::fields::field;
use crate::form::check;
use params::Refusal;

// The 16-bit field at place i as a word.
fn word(bytes: &[u8], i: usize) -> u32
    requires { i < 4294967296 }
    ensures { result ≡ field_at bytes.now i }
{
    field(bytes, i) as u32
}

// The words of a circuit.
#[tactic(auto, unfolding(crate::specs::Told::told_words))]
fn tell_into(bytes: &[u8], out: &mut [u32])
    requires { length out.old ≡ 5 }
    ensures { out.new ≡ told_words bytes.now }
{
    let version = word(bytes, 3);
    let inputs = word(bytes, 5);
    let gates = word(bytes, 7);
    let outputs = word(bytes, 9);
    out.copy_from_slice(&[version, inputs, gates, outputs, total(bytes)]);
}

/// Version, inputs, gates, outputs and work of a circuit, into a slice of five words. Refusals: 6 to 10, then 2.
#[tactic(auto, unfolding(crate::specs::Told::told_answer, crate::specs::Told::told_out))]
pub fn tell(bytes: &[u8], out: &mut [u32]) -> Result<(), Refusal>
    ensures said { result ≡ outcome (told_answer bytes.now (length out.old)) }
    ensures written { out.new ≡ told_out bytes.now out.old }
{
    check(bytes)?;
    Refusal::Length.unless(out.len() == 5)?;
    tell_into(bytes, out);
    Ok(())
}
