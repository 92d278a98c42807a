// Decryption of single words, at both levels.
ghost use Rattle.std.specs.Prelude.{◌≡◌, length, false, ◌%◌};
ghost use Rattle.ring.specs.Word.{Q};
ghost use Rattle.params.specs.Refusal.{answer, given};
ghost use Rattle.tlwe.specs.Level.{dimension};
ghost use Rattle.ring.specs.Phase.{phase_of};
ghost use Rattle.tlwe.specs.Key.{keyed_number};
ghost use Rattle.tlwe.specs.Decrypt.{bit_of, message_of, message_number};
ghost use Rattle.tlwe.specs.declared.Level.TheVariants.{Zero, One};
ghost use Rattle.packing.specs.Packed.{packed_value};
ghost use Rattle.params.specs.Published.{numbers};
ghost use Rattle.ring.specs.Bit.{bit_number};

use packing::{bit_number, low_word, numbers, pack_value};
use tlwe::Level;

// The bit of a ciphertext at level 0, as the value: 1 when the phase, read as signed, is 0 or more.
#[unsafe(no_mangle)]
pub extern "C" fn egl_tlwe_decrypt_bit_lv0(
    n: u32,
    nbit: u32,
    bgbit: u32,
    l: u32,
    basebit: u32,
    t: u32,
    c: &[u32],
    key: &[u32],
) -> u64
    ensures { result ≡ packed_value (given (answer (keyed_number (numbers n nbit bgbit l basebit t) Zero (length c.now) key.now)) (bit_number (bit_of (phase_of (dimension (numbers n nbit bgbit l basebit t) Zero) key.now c.now)))) }
{
    pack_value(tlwe::decryption::decrypt_bit(
        numbers(n, nbit, bgbit, l, basebit, t),
        Level::Zero,
        c,
        key,
    ).map(bit_number))
}

// The message of a ciphertext at level 0, as the value. It is below 64, so the remainder cuts nothing.
#[unsafe(no_mangle)]
pub extern "C" fn egl_tlwe_decrypt_message_lv0(
    n: u32,
    nbit: u32,
    bgbit: u32,
    l: u32,
    basebit: u32,
    t: u32,
    modulus: u64,
    c: &[u32],
    key: &[u32],
) -> u64
    ensures { result ≡ packed_value (given (answer (message_number (numbers n nbit bgbit l basebit t) Zero modulus (length c.now) key.now)) ((message_of modulus (phase_of (dimension (numbers n nbit bgbit l basebit t) Zero) key.now c.now)) % Q)) }
{
    pack_value(tlwe::decryption::decrypt_message(
        numbers(n, nbit, bgbit, l, basebit, t),
        Level::Zero,
        modulus,
        c,
        key,
    )
    .map(low_word))
}

// The bit of a ciphertext at level 1, as the value: 1 when the phase, read as signed, is 0 or more.
#[unsafe(no_mangle)]
pub extern "C" fn egl_tlwe_decrypt_bit_lv1(
    n: u32,
    nbit: u32,
    bgbit: u32,
    l: u32,
    basebit: u32,
    t: u32,
    c: &[u32],
    key: &[u32],
) -> u64
    ensures { result ≡ packed_value (given (answer (keyed_number (numbers n nbit bgbit l basebit t) One (length c.now) key.now)) (bit_number (bit_of (phase_of (dimension (numbers n nbit bgbit l basebit t) One) key.now c.now)))) }
{
    pack_value(tlwe::decryption::decrypt_bit(
        numbers(n, nbit, bgbit, l, basebit, t),
        Level::One,
        c,
        key,
    ).map(bit_number))
}

// The message of a ciphertext at level 1, as the value. It is below 64, so the remainder cuts nothing.
#[unsafe(no_mangle)]
pub extern "C" fn egl_tlwe_decrypt_message_lv1(
    n: u32,
    nbit: u32,
    bgbit: u32,
    l: u32,
    basebit: u32,
    t: u32,
    modulus: u64,
    c: &[u32],
    key: &[u32],
) -> u64
    ensures { result ≡ packed_value (given (answer (message_number (numbers n nbit bgbit l basebit t) One modulus (length c.now) key.now)) ((message_of modulus (phase_of (dimension (numbers n nbit bgbit l basebit t) One) key.now c.now)) % Q)) }
{
    pack_value(tlwe::decryption::decrypt_message(
        numbers(n, nbit, bgbit, l, basebit, t),
        Level::One,
        modulus,
        c,
        key,
    )
    .map(low_word))
}
