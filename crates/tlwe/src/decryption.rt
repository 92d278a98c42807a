// Decryption of a bit and of a message: `decrypt_bool` and `decrypt_lwe_message` of src/tlwe.rs, the latter in whole numbers (01, tlwe).
ghost use Rattle.std.specs.Prelude.{◌≡◌, length};
ghost use Rattle.params.specs.Refusal.{answer, given};
ghost use Rattle.tlwe.specs.Key.{keyed_number};
ghost use Rattle.tlwe.specs.Plain.{modulus_number};
ghost use Rattle.tlwe.specs.Decrypt.{message_of, bit_value, message_number, message_value};

use super::Level;
use super::keys::phase_of;
use super::plaintexts::modulus_number;
use params::{Params, Refusal};

/// True when the phase, read as signed, is 0 or more. Refused as `phase_of`.
#[tactic(auto, unfolding(ring::specs::Centre::H))]
pub fn decrypt_bit(p: Params, level: Level, c: &[u32], key: &[u32]) -> Result<bool, Refusal>
    ensures { result ≡ given (answer (keyed_number p level (length c.now) key.now)) (bit_value p level c.now key.now) }
{
    Ok(phase_of(p, level, c, key)?.0 < 0x8000_0000)
}

// The message that a phase stands for.
#[tactic(auto, using(crate::proofs::Messages::modulus_bounds), unfolding(ring::specs::Centre::H, ring::specs::Word::Q))]
fn message_of(phase: u32, modulus: u64) -> u64
    requires { modulus_number modulus ≡ 0 }
    ensures { result ≡ message_of modulus phase }
{
    let steps = u64::from(phase) * (2 * modulus) + 0x8000_0000;
    steps / 0x1_0000_0000 % modulus
}

/// The message whose word is nearest to the phase. Refused as `phase_of`, then with 5 for the modulus.
#[tactic(auto, unfolding(crate::specs::Key::keyed_number, crate::specs::Decrypt::message_number))]
pub fn decrypt_message(
    p: Params,
    level: Level,
    modulus: u64,
    c: &[u32],
    key: &[u32],
) -> Result<u64, Refusal>
    ensures { result ≡ given (answer (message_number p level modulus (length c.now) key.now)) (message_value p level modulus c.now key.now) }
{
    let phase = phase_of(p, level, c, key)?;
    modulus_number(modulus)?;
    Ok(message_of(phase.0, modulus))
}
