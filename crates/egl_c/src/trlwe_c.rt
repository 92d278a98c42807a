// Pairs of polynomials: encryption, decryption, extraction.
ghost use Rattle.std.specs.Prelude.{◌≡◌, length};
ghost use Rattle.params.specs.Refusal.{answer, outcome, if_done};
ghost use Rattle.params.specs.Sizes.{size};
ghost use Rattle.utils.specs.Torus.{words_of_doubles};
ghost use Rattle.trlwe.specs.Extract.{extract_number, extract_out};
ghost use Rattle.trlwe.specs.Encrypt.{encrypt_pair_number, fresh_body, words_of_bits};
ghost use Rattle.trlwe.specs.Decrypt.{decrypt_pair_number, decrypt_out};
ghost use Rattle.packing.specs.Packed.{packed};
ghost use Rattle.params.specs.Published.{numbers};

use packing::{numbers, pack};

// Encryption of N doubles, fractions of a turn: `TRLWELv1::encrypt_f64`.
#[unsafe(no_mangle)]
pub extern "C" fn egl_trlwe_encrypt_f64(
    n: u32,
    nbit: u32,
    bgbit: u32,
    l: u32,
    basebit: u32,
    t: u32,
    plain: &[f64],
    masks: &[u32],
    noise: &[u32],
    key: &[u32],
    a: &mut [u32],
    b: &mut [u32],
) -> u64
    ensures said { result ≡ packed (outcome (answer (encrypt_pair_number (numbers n nbit bgbit l basebit t) (length plain.now) (length masks.now) (length noise.now) key.now (length a.old) (length b.old)))) }
    ensures mask { a.new ≡ if_done (encrypt_pair_number (numbers n nbit bgbit l basebit t) (length plain.now) (length masks.now) (length noise.now) key.now (length a.old) (length b.old)) masks.now a.old }
    ensures body { b.new ≡ if_done (encrypt_pair_number (numbers n nbit bgbit l basebit t) (length plain.now) (length masks.now) (length noise.now) key.now (length a.old) (length b.old)) (fresh_body (size (numbers n nbit bgbit l basebit t)) (words_of_doubles plain.now) noise.now masks.now key.now) b.old }
{
    pack(trlwe::encrypt_f64(
        numbers(n, nbit, bgbit, l, basebit, t),
        plain,
        masks,
        noise,
        key,
        a,
        b,
    ))
}

// Encryption of N bits, lent as bytes: `TRLWELv1::encrypt_bool`.
#[unsafe(no_mangle)]
pub extern "C" fn egl_trlwe_encrypt_bool(
    n: u32,
    nbit: u32,
    bgbit: u32,
    l: u32,
    basebit: u32,
    t: u32,
    plain: &[u8],
    masks: &[u32],
    noise: &[u32],
    key: &[u32],
    a: &mut [u32],
    b: &mut [u32],
) -> u64
    ensures said { result ≡ packed (outcome (answer (encrypt_pair_number (numbers n nbit bgbit l basebit t) (length plain.now) (length masks.now) (length noise.now) key.now (length a.old) (length b.old)))) }
    ensures mask { a.new ≡ if_done (encrypt_pair_number (numbers n nbit bgbit l basebit t) (length plain.now) (length masks.now) (length noise.now) key.now (length a.old) (length b.old)) masks.now a.old }
    ensures body { b.new ≡ if_done (encrypt_pair_number (numbers n nbit bgbit l basebit t) (length plain.now) (length masks.now) (length noise.now) key.now (length a.old) (length b.old)) (fresh_body (size (numbers n nbit bgbit l basebit t)) (words_of_bits plain.now) noise.now masks.now key.now) b.old }
{
    pack(trlwe::encrypt_bool(
        numbers(n, nbit, bgbit, l, basebit, t),
        plain,
        masks,
        noise,
        key,
        a,
        b,
    ))
}

// Decryption to N bits, as bytes 0 or 1: `TRLWELv1::decrypt_bool`.
#[unsafe(no_mangle)]
pub extern "C" fn egl_trlwe_decrypt_bool(
    n: u32,
    nbit: u32,
    bgbit: u32,
    l: u32,
    basebit: u32,
    t: u32,
    a: &[u32],
    b: &[u32],
    key: &[u32],
    out: &mut [u8],
) -> u64
    ensures said { result ≡ packed (outcome (answer (decrypt_pair_number (numbers n nbit bgbit l basebit t) (length a.now) (length b.now) key.now (length out.old)))) }
    ensures written { out.new ≡ decrypt_out (numbers n nbit bgbit l basebit t) a.now b.now key.now out.old }
{
    pack(trlwe::decrypt_bool(numbers(n, nbit, bgbit, l, basebit, t), a, b, key, out))
}

// The sample of coefficient k: N masks and b[k]. Its phase is the pair's at k, and one for each one of the key after k.
#[unsafe(no_mangle)]
pub extern "C" fn egl_trlwe_sample_extract_index(
    n: u32,
    nbit: u32,
    bgbit: u32,
    l: u32,
    basebit: u32,
    t: u32,
    a: &[u32],
    b: &[u32],
    k: usize,
    out: &mut [u32],
) -> u64
    ensures said { result ≡ packed (outcome (answer (extract_number (numbers n nbit bgbit l basebit t) (length a.now) (length b.now) k (length out.old)))) }
    ensures written { out.new ≡ extract_out (numbers n nbit bgbit l basebit t) a.now b.now k out.old }
{
    pack(trlwe::sample_extract_index(numbers(n, nbit, bgbit, l, basebit, t), a, b, k, out))
}
