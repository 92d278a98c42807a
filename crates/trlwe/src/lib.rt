#![tactic(auto)]
// Pairs of polynomials (src/trlwe.rs): a and b, N words each. Masks and noise are lent, and the product is exact (01, trlwe).
ghost use Rattle.std.specs.Prelude.{◌≡◌, cond, ◌+◌, ◌-◌, ◌<◌, leb, length, IfOk};
ghost use Rattle.trlwe.specs.Private.{EncryptGood};
ghost use Rattle.params.specs.Refusal.{answer, outcome, given};
ghost use Rattle.params.specs.Sizes.{size};
ghost use Rattle.ring.specs.Word.{at, comp};
ghost use Rattle.utils.specs.Torus.{words_of_doubles};
ghost use Rattle.trlwe.specs.Extract.{extract_number, extracted, extract_out};
ghost use Rattle.trlwe.specs.Encrypt.{encrypt_pair_number, fresh_body, words_of_bits, mask_out, body_out};
ghost use Rattle.trlwe.specs.Decrypt.{decrypt_pair_number, decrypted, decrypt_out};

use loops::{bits_into, bits_of};
use params::{Checked, Params, Refusal};

mod loops;

// Mask i of the sample: past k the Rust complements (`Torus::MAX - x`) where X^N asks for a negation.
fn extracted_at(a: &[u32], k: usize, i: usize) -> u32
    requires { (k < length a.now) × (i < length a.now) }
    ensures { result ≡ cond (leb i k) (at a.now (k - i)) (comp (at a.now (length a.now + k - i))) }
{
    if i <= k {
        a[k - i]
    } else {
        ring::complement(a[a.len() + k - i])
    }
}

// The masks, then b's word.
#[tactic(auto, using(ring::proofs::Tab::tab_none, ring::proofs::Tab::tab_more, ring::proofs::Tab::tab_last), unfolding(ring::specs::Phase::extract))]
fn extract_into(a: &[u32], b: &[u32], k: usize, out: &mut [u32])
    requires { (k < length a.now) × (length b.now ≡ length a.now) × (length out.old ≡ length a.now + 1) }
    ensures { out.new ≡ extracted (length a.now) k a.now b.now }
{
    let n = a.len();
    for i in 0..n {
        out[i] = extracted_at(a, k, i);
    }
    out[n] = b[k];
}

/// The sample of coefficient k: N masks and b[k]. Its phase is the pair's at k, and one for each one of the key after k. Refusals: 1, 2, 3.
#[tactic(auto, unfolding(crate::specs::Extract::extract_number))]
pub fn sample_extract_index(
    p: Params,
    a: &[u32],
    b: &[u32],
    k: usize,
    out: &mut [u32],
) -> Result<(), Refusal>
    ensures said { result ≡ outcome (answer (extract_number p (length a.now) (length b.now) k (length out.old))) }
    ensures written { out.new ≡ extract_out p a.now b.now k out.old }
{
    let s = params::check(p)?.sizes;
    Refusal::Length.unless(a.len() == s.size)?;
    Refusal::Length.unless(b.len() == s.size)?;
    Refusal::Length.unless(out.len() == s.level1)?;
    Refusal::Index.unless(k < s.size)?;
    extract_into(a, b, k, out);
    Ok(())
}

// The checks of an encryption: the key's words come last, after every length.
#[tactic(auto, unfolding(crate::specs::Encrypt::encrypt_pair_number))]
fn encrypt_checks(
    p: Params,
    plain: usize,
    masks: &[u32],
    noise: &[u32],
    key: &[u32],
    a: &[u32],
    b: &[u32],
) -> Result<Checked, Refusal>
    ensures said { result ≡ given (answer (encrypt_pair_number p plain (length masks.now) (length noise.now) key.now (length a.now) (length b.now))) p }
    ensures good { IfOk result (λ c. EncryptGood c plain (length masks.now) (length noise.now) key.now (length a.now) (length b.now)) }
{
    let p = params::check(p)?;
    let n = p.sizes.size;
    Refusal::Length.unless(plain == n)?;
    Refusal::Length.unless(masks.len() == n)?;
    Refusal::Length.unless(noise.len() == n)?;
    Refusal::Length.unless(key.len() == n)?;
    Refusal::Length.unless(a.len() == n)?;
    Refusal::Length.unless(b.len() == n)?;
    Refusal::KeyWord.unless(tlwe::keys::is_binary(key))?;
    Ok(p)
}

// The pair, the plain words standing in b. At these lengths the product refuses nothing.
#[tactic(auto, using(crate::proofs::Pairs::sealed, words::proofs::Loops::copied_all))]
fn seal(p: Checked, masks: &[u32], noise: &[u32], key: &[u32], a: &mut [u32], b: &mut [u32])
    requires { (length masks.now ≡ size p) × (length noise.now ≡ size p) × (length key.now ≡ size p) × (length a.old ≡ size p) × (length b.old ≡ size p) }
    ensures mask { a.new ≡ masks.now }
    ensures body { b.new ≡ fresh_body (size p) b.old noise.now masks.now key.now }
{
    words::copy(masks, a);
    words::add(noise, b);
    let _ = product::poly_mul_add(p.params, masks, key, b);
}

/// Encryption of N doubles, fractions of a turn: `TRLWELv1::encrypt_f64`. Refusals: 1, 2, 4.
pub fn encrypt_f64(
    p: Params,
    plain: &[f64],
    masks: &[u32],
    noise: &[u32],
    key: &[u32],
    a: &mut [u32],
    b: &mut [u32],
) -> Result<(), Refusal>
    ensures said { result ≡ outcome (answer (encrypt_pair_number p (length plain.now) (length masks.now) (length noise.now) key.now (length a.old) (length b.old))) }
    ensures mask { a.new ≡ mask_out p (length plain.now) masks.now noise.now key.now a.old b.old }
    ensures body { b.new ≡ body_out p (length plain.now) (words_of_doubles plain.now) masks.now noise.now key.now a.old b.old }
{
    let p = encrypt_checks(p, plain.len(), masks, noise, key, a, b)?;
    let _ = utils::f64_to_torus_vec(plain, b);
    seal(p, masks, noise, key, a, b);
    Ok(())
}

/// Encryption of N bits, lent as bytes: `TRLWELv1::encrypt_bool`. Refusals: 1, 2, 4.
pub fn encrypt_bool(
    p: Params,
    plain: &[u8],
    masks: &[u32],
    noise: &[u32],
    key: &[u32],
    a: &mut [u32],
    b: &mut [u32],
) -> Result<(), Refusal>
    ensures said { result ≡ outcome (answer (encrypt_pair_number p (length plain.now) (length masks.now) (length noise.now) key.now (length a.old) (length b.old))) }
    ensures mask { a.new ≡ mask_out p (length plain.now) masks.now noise.now key.now a.old b.old }
    ensures body { b.new ≡ body_out p (length plain.now) (words_of_bits plain.now) masks.now noise.now key.now a.old b.old }
{
    let p = encrypt_checks(p, plain.len(), masks, noise, key, a, b)?;
    bits_into(plain, b);
    seal(p, masks, noise, key, a, b);
    Ok(())
}

// The bits, with the scratch for the product lent. At these lengths the product refuses nothing.
fn open_on(p: Checked, a: &[u32], b: &[u32], key: &[u32], az: &mut [u32], out: &mut [u8])
    requires mask { length a.now ≡ size p }
    requires body { length b.now ≡ size p }
    requires keys { length key.now ≡ size p }
    requires scratch { length az.old ≡ size p }
    requires into { length out.old ≡ size p }
    ensures { out.new ≡ decrypted (size p) key.now a.now b.now }
{
    let _ = product::poly_mul(p.params, a, key, az);
    bits_of(b, az, out);
}

/// Decryption to N bits, as bytes 0 or 1: `TRLWELv1::decrypt_bool`. Refusals: 1, 2, 4.
#[tactic(auto, using(params::proofs::Ranges::size_to), unfolding(crate::specs::Decrypt::decrypt_pair_number))]
pub fn decrypt_bool(
    p: Params,
    a: &[u32],
    b: &[u32],
    key: &[u32],
    out: &mut [u8],
) -> Result<(), Refusal>
    ensures said { result ≡ outcome (answer (decrypt_pair_number p (length a.now) (length b.now) key.now (length out.old))) }
    ensures written { out.new ≡ decrypt_out p a.now b.now key.now out.old }
{
    let p = params::check(p)?;
    let n = p.sizes.size;
    Refusal::Length.unless(a.len() == n)?;
    Refusal::Length.unless(b.len() == n)?;
    Refusal::Length.unless(key.len() == n)?;
    Refusal::Length.unless(out.len() == n)?;
    Refusal::KeyWord.unless(tlwe::keys::is_binary(key))?;
    let mut scratch = [0u32; 1024];
    let (az, _) = scratch.split_at_mut(n);
    open_on(p, a, b, key, az, out);
    Ok(())
}
