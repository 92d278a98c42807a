// The word that each plaintext stands for, and which plaintexts are refused.
ghost use Rattle.std.specs.Prelude.{◌≡◌};
ghost use Rattle.params.specs.Refusal.{answer, outcome, given};
ghost use Rattle.tlwe.specs.Plain.{modulus_number, bit_word, message_word, plain_word};
ghost use Rattle.tlwe.specs.Private.{plain_number};

use super::Plain;
use params::Refusal;
use utils::Torus;

/// Refused with 5 where the message modulus is not 2, 4, 8, 16, 32 or 64.
#[tactic(auto, unfolding(crate::specs::Plain::is_modulus))]
pub fn modulus_number(modulus: u64) -> Result<(), Refusal>
    ensures { result ≡ outcome (answer (modulus_number modulus)) }
{
    Refusal::Modulus.unless(matches!(modulus, 2 | 4 | 8 | 16 | 32 | 64))
}

// ±0.125 of a turn.
#[tactic(auto, unfolding(ring::specs::Word::Q))]
fn bit_word(bit: bool) -> u32
    ensures { result ≡ bit_word bit }
{
    if bit { 0x2000_0000 } else { 0xE000_0000 }
}

// (value mod modulus) · 2^31 / modulus.
#[tactic(auto, using(crate::proofs::Messages::modulus_bounds), unfolding(ring::specs::Centre::H))]
fn message_word(value: u64, modulus: u64) -> u32
    requires { modulus_number modulus ≡ 0 }
    ensures { result ≡ message_word value modulus }
{
    let m = value % modulus;
    let word = m * 0x8000_0000 / modulus;
    word as u32
}

// The word of a plaintext: only a message can be refused, for its modulus.
pub(crate) fn plain_word(plain: Plain) -> Result<Torus, Refusal>
    ensures { result ≡ given (answer (plain_number plain)) (record { 0 = plain_word plain }) }
{
    Ok(match plain {
        Plain::Bit(bit) => Torus(bit_word(bit)),
        Plain::Turn(turn) => utils::f64_to_torus(turn),
        Plain::Message { value, modulus } => {
            modulus_number(modulus)?;
            Torus(message_word(value, modulus))
        }
    })
}
