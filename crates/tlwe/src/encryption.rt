// Encryption at both levels with lent masks and one lent noise word: `encrypt_f64`, `encrypt_bool` and `encrypt_lwe_message` of src/tlwe.rs.
ghost use Rattle.std.specs.Prelude.{◌≡◌, [], ◌∷◌, ◌++◌, ◌+◌, length};
ghost use Rattle.params.specs.Refusal.{answer, outcome};
ghost use Rattle.tlwe.specs.Encrypt.{encrypt_number, encrypt_out};

use super::keys::inner;
use super::plaintexts::plain_word;
use super::{Level, Plain};
use params::{Params, Refusal};
use utils::Torus;

// The masks and b after them.
#[tactic(auto, using(words::proofs::Loops::copied_last))]
fn put(masks: &[u32], b: u32, out: &mut [u32])
    requires { length out.old ≡ length masks.now + 1 }
    ensures { out.new ≡ masks.now ++ (b ∷ []) }
{
    words::copy(masks, out);
    out[masks.len()] = b;
}

/// Encryption of a plaintext: out is a ciphertext of it, the masks and b = their sum under the key + the plain word + the noise. Refused with 2 for the
/// lengths, then with 4 for the key, then with 5 for the message modulus, and then nothing is written.
#[tactic(auto, unfolding(crate::specs::Encrypt::encrypt_number, crate::specs::Encrypt::encrypted, ring::specs::Word::Q))]
pub fn encrypt(
    p: Params,
    level: Level,
    plain: Plain,
    masks: &[u32],
    noise: Torus,
    key: &[u32],
    out: &mut [u32],
) -> Result<(), Refusal>
    ensures said { result ≡ outcome (answer (encrypt_number p level plain (length masks.now) key.now (length out.old))) }
    ensures written { out.new ≡ encrypt_out p level plain masks.now noise.0 key.now out.old }
{
    let p = params::check(p)?;
    Refusal::Length.unless(masks.len() == level.masks(p))?;
    Refusal::Length.unless(key.len() == level.masks(p))?;
    Refusal::Length.unless(out.len() == level.words(p))?;
    let sum = inner(masks, key)?;
    let word = plain_word(plain)?;
    put(masks, ring::add(ring::add(sum, word.0), noise.0), out);
    Ok(())
}
