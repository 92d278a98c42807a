#![tactic(auto)]
// Ciphertexts of single words (src/tlwe.rs): n + 1 words at level 0, N + 1 at level 1, the last of them b. Masks and noise are lent (01, tlwe).
ghost use Rattle.std.specs.Prelude.{◌≡◌};
ghost use Rattle.tlwe.specs.Level.{dimension, cipher_words};

use params::Checked;

pub mod decryption;
pub mod encryption;
pub mod keys;
pub mod linear;
pub mod plaintexts;

/// The level of a ciphertext: `TLWELv0` or `TLWELv1` of the Rust.
#[derive(Clone, Copy)]
pub enum Level {
    Zero,
    One,
}

/// What is encrypted: a bit (`encrypt_bool`), a fraction of a turn as a double (`encrypt_f64`), or a message with its modulus
/// (`encrypt_lwe_message`).
#[derive(Clone, Copy)]
pub enum Plain {
    Bit(bool),
    Turn(f64),
    Message { value: u64, modulus: u64 },
}

impl Level {
    // The masks of a ciphertext, also the words of its key.
    pub(crate) fn masks(self, p: Checked) -> usize
        ensures { result ≡ dimension p self }
    {
        match self {
            Level::Zero => p.sizes.n,
            Level::One => p.sizes.size,
        }
    }

    // The words of a ciphertext.
    pub(crate) fn words(self, p: Checked) -> usize
        ensures { result ≡ cipher_words p self }
    {
        match self {
            Level::Zero => p.sizes.level0,
            Level::One => p.sizes.level1,
        }
    }
}
