// Encryption of single words, at both levels, with lent masks and noise.
ghost use Rattle.std.specs.Prelude.{◌≡◌, length, false};
ghost use Rattle.params.specs.Refusal.{answer, outcome, if_done};
ghost use Rattle.tlwe.specs.Level.{dimension};
ghost use Rattle.tlwe.specs.Plain.{plain_word};
ghost use Rattle.tlwe.specs.Encrypt.{encrypt_number, encrypted};
ghost use Rattle.tlwe.specs.declared.Level.TheVariants.{Zero, One};
ghost use Rattle.tlwe.specs.declared.Plain.TheVariants.{Bit, Turn, Message};
ghost use Rattle.packing.specs.Packed.{packed};
ghost use Rattle.params.specs.Published.{numbers};
ghost use Rattle.ring.specs.Bit.{truth};

use packing::{numbers, pack};
use tlwe::{Level, Plain};
use utils::Torus;

// A bit: 0 is false, any other number true, at level 0.
#[unsafe(no_mangle)]
pub extern "C" fn egl_tlwe_encrypt_bit_lv0(
    n: u32,
    nbit: u32,
    bgbit: u32,
    l: u32,
    basebit: u32,
    t: u32,
    bit: u32,
    masks: &[u32],
    noise: u32,
    key: &[u32],
    out: &mut [u32],
) -> u64
    ensures said { result ≡ packed (outcome (answer (encrypt_number (numbers n nbit bgbit l basebit t) Zero (Bit (truth bit)) (length masks.now) key.now (length out.old)))) }
    ensures written { out.new ≡ if_done (encrypt_number (numbers n nbit bgbit l basebit t) Zero (Bit (truth bit)) (length masks.now) key.now (length out.old)) (encrypted (dimension (numbers n nbit bgbit l basebit t) Zero) (plain_word (Bit (truth bit))) masks.now noise key.now) out.old }
{
    pack(tlwe::encryption::encrypt(
        numbers(n, nbit, bgbit, l, basebit, t),
        Level::Zero,
        Plain::Bit(bit != 0),
        masks,
        Torus(noise),
        key,
        out,
    ))
}

// A bit: 0 is false, any other number true, at level 1.
#[unsafe(no_mangle)]
pub extern "C" fn egl_tlwe_encrypt_bit_lv1(
    n: u32,
    nbit: u32,
    bgbit: u32,
    l: u32,
    basebit: u32,
    t: u32,
    bit: u32,
    masks: &[u32],
    noise: u32,
    key: &[u32],
    out: &mut [u32],
) -> u64
    ensures said { result ≡ packed (outcome (answer (encrypt_number (numbers n nbit bgbit l basebit t) One (Bit (truth bit)) (length masks.now) key.now (length out.old)))) }
    ensures written { out.new ≡ if_done (encrypt_number (numbers n nbit bgbit l basebit t) One (Bit (truth bit)) (length masks.now) key.now (length out.old)) (encrypted (dimension (numbers n nbit bgbit l basebit t) One) (plain_word (Bit (truth bit))) masks.now noise key.now) out.old }
{
    pack(tlwe::encryption::encrypt(
        numbers(n, nbit, bgbit, l, basebit, t),
        Level::One,
        Plain::Bit(bit != 0),
        masks,
        Torus(noise),
        key,
        out,
    ))
}

// A fraction of a turn, at level 0.
#[unsafe(no_mangle)]
pub extern "C" fn egl_tlwe_encrypt_turn_lv0(
    n: u32,
    nbit: u32,
    bgbit: u32,
    l: u32,
    basebit: u32,
    t: u32,
    turn: f64,
    masks: &[u32],
    noise: u32,
    key: &[u32],
    out: &mut [u32],
) -> u64
    ensures said { result ≡ packed (outcome (answer (encrypt_number (numbers n nbit bgbit l basebit t) Zero (Turn turn) (length masks.now) key.now (length out.old)))) }
    ensures written { out.new ≡ if_done (encrypt_number (numbers n nbit bgbit l basebit t) Zero (Turn turn) (length masks.now) key.now (length out.old)) (encrypted (dimension (numbers n nbit bgbit l basebit t) Zero) (plain_word (Turn turn)) masks.now noise key.now) out.old }
{
    pack(tlwe::encryption::encrypt(
        numbers(n, nbit, bgbit, l, basebit, t),
        Level::Zero,
        Plain::Turn(turn),
        masks,
        Torus(noise),
        key,
        out,
    ))
}

// A fraction of a turn, at level 1.
#[unsafe(no_mangle)]
pub extern "C" fn egl_tlwe_encrypt_turn_lv1(
    n: u32,
    nbit: u32,
    bgbit: u32,
    l: u32,
    basebit: u32,
    t: u32,
    turn: f64,
    masks: &[u32],
    noise: u32,
    key: &[u32],
    out: &mut [u32],
) -> u64
    ensures said { result ≡ packed (outcome (answer (encrypt_number (numbers n nbit bgbit l basebit t) One (Turn turn) (length masks.now) key.now (length out.old)))) }
    ensures written { out.new ≡ if_done (encrypt_number (numbers n nbit bgbit l basebit t) One (Turn turn) (length masks.now) key.now (length out.old)) (encrypted (dimension (numbers n nbit bgbit l basebit t) One) (plain_word (Turn turn)) masks.now noise key.now) out.old }
{
    pack(tlwe::encryption::encrypt(
        numbers(n, nbit, bgbit, l, basebit, t),
        Level::One,
        Plain::Turn(turn),
        masks,
        Torus(noise),
        key,
        out,
    ))
}

// A message and its modulus, at level 0.
#[unsafe(no_mangle)]
pub extern "C" fn egl_tlwe_encrypt_message_lv0(
    n: u32,
    nbit: u32,
    bgbit: u32,
    l: u32,
    basebit: u32,
    t: u32,
    value: u64,
    modulus: u64,
    masks: &[u32],
    noise: u32,
    key: &[u32],
    out: &mut [u32],
) -> u64
    ensures said { result ≡ packed (outcome (answer (encrypt_number (numbers n nbit bgbit l basebit t) Zero (Message value modulus) (length masks.now) key.now (length out.old)))) }
    ensures written { out.new ≡ if_done (encrypt_number (numbers n nbit bgbit l basebit t) Zero (Message value modulus) (length masks.now) key.now (length out.old)) (encrypted (dimension (numbers n nbit bgbit l basebit t) Zero) (plain_word (Message value modulus)) masks.now noise key.now) out.old }
{
    pack(tlwe::encryption::encrypt(
        numbers(n, nbit, bgbit, l, basebit, t),
        Level::Zero,
        Plain::Message { value, modulus },
        masks,
        Torus(noise),
        key,
        out,
    ))
}

// A message and its modulus, at level 1.
#[unsafe(no_mangle)]
pub extern "C" fn egl_tlwe_encrypt_message_lv1(
    n: u32,
    nbit: u32,
    bgbit: u32,
    l: u32,
    basebit: u32,
    t: u32,
    value: u64,
    modulus: u64,
    masks: &[u32],
    noise: u32,
    key: &[u32],
    out: &mut [u32],
) -> u64
    ensures said { result ≡ packed (outcome (answer (encrypt_number (numbers n nbit bgbit l basebit t) One (Message value modulus) (length masks.now) key.now (length out.old)))) }
    ensures written { out.new ≡ if_done (encrypt_number (numbers n nbit bgbit l basebit t) One (Message value modulus) (length masks.now) key.now (length out.old)) (encrypted (dimension (numbers n nbit bgbit l basebit t) One) (plain_word (Message value modulus)) masks.now noise key.now) out.old }
{
    pack(tlwe::encryption::encrypt(
        numbers(n, nbit, bgbit, l, basebit, t),
        Level::One,
        Plain::Message { value, modulus },
        masks,
        Torus(noise),
        key,
        out,
    ))
}
