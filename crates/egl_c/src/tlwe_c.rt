// Ciphertexts: sums and multiples, at both levels.
ghost use Rattle.std.specs.Prelude.{◌≡◌, length};
ghost use Rattle.ring.specs.Poly.{plus, minus, scale};
ghost use Rattle.params.specs.Refusal.{answer, outcome, if_done};
ghost use Rattle.tlwe.specs.Level.{cipher_words};
ghost use Rattle.tlwe.specs.Linear.{linear_number, negative};
ghost use Rattle.tlwe.specs.declared.Level.TheVariants.{Zero, One};
ghost use Rattle.packing.specs.Packed.{packed};
ghost use Rattle.params.specs.Published.{numbers};

use packing::{numbers, pack};
use tlwe::Level;

// a + b, at level 0.
#[unsafe(no_mangle)]
pub extern "C" fn egl_tlwe_add_lv0(
    n: u32,
    nbit: u32,
    bgbit: u32,
    l: u32,
    basebit: u32,
    t: u32,
    a: &[u32],
    b: &[u32],
    out: &mut [u32],
) -> u64
    ensures said { result ≡ packed (outcome (answer (linear_number (numbers n nbit bgbit l basebit t) Zero (length a.now) (length b.now) (length out.old)))) }
    ensures written { out.new ≡ if_done (linear_number (numbers n nbit bgbit l basebit t) Zero (length a.now) (length b.now) (length out.old)) (plus (cipher_words (numbers n nbit bgbit l basebit t) Zero) a.now b.now) out.old }
{
    pack(tlwe::linear::add(
        numbers(n, nbit, bgbit, l, basebit, t),
        Level::Zero,
        a,
        b,
        out,
    ))
}

// a + b, at level 1.
#[unsafe(no_mangle)]
pub extern "C" fn egl_tlwe_add_lv1(
    n: u32,
    nbit: u32,
    bgbit: u32,
    l: u32,
    basebit: u32,
    t: u32,
    a: &[u32],
    b: &[u32],
    out: &mut [u32],
) -> u64
    ensures said { result ≡ packed (outcome (answer (linear_number (numbers n nbit bgbit l basebit t) One (length a.now) (length b.now) (length out.old)))) }
    ensures written { out.new ≡ if_done (linear_number (numbers n nbit bgbit l basebit t) One (length a.now) (length b.now) (length out.old)) (plus (cipher_words (numbers n nbit bgbit l basebit t) One) a.now b.now) out.old }
{
    pack(tlwe::linear::add(
        numbers(n, nbit, bgbit, l, basebit, t),
        Level::One,
        a,
        b,
        out,
    ))
}

// a - b, at level 0.
#[unsafe(no_mangle)]
pub extern "C" fn egl_tlwe_sub_lv0(
    n: u32,
    nbit: u32,
    bgbit: u32,
    l: u32,
    basebit: u32,
    t: u32,
    a: &[u32],
    b: &[u32],
    out: &mut [u32],
) -> u64
    ensures said { result ≡ packed (outcome (answer (linear_number (numbers n nbit bgbit l basebit t) Zero (length a.now) (length b.now) (length out.old)))) }
    ensures written { out.new ≡ if_done (linear_number (numbers n nbit bgbit l basebit t) Zero (length a.now) (length b.now) (length out.old)) (minus (cipher_words (numbers n nbit bgbit l basebit t) Zero) a.now b.now) out.old }
{
    pack(tlwe::linear::sub(
        numbers(n, nbit, bgbit, l, basebit, t),
        Level::Zero,
        a,
        b,
        out,
    ))
}

// a - b, at level 1.
#[unsafe(no_mangle)]
pub extern "C" fn egl_tlwe_sub_lv1(
    n: u32,
    nbit: u32,
    bgbit: u32,
    l: u32,
    basebit: u32,
    t: u32,
    a: &[u32],
    b: &[u32],
    out: &mut [u32],
) -> u64
    ensures said { result ≡ packed (outcome (answer (linear_number (numbers n nbit bgbit l basebit t) One (length a.now) (length b.now) (length out.old)))) }
    ensures written { out.new ≡ if_done (linear_number (numbers n nbit bgbit l basebit t) One (length a.now) (length b.now) (length out.old)) (minus (cipher_words (numbers n nbit bgbit l basebit t) One) a.now b.now) out.old }
{
    pack(tlwe::linear::sub(
        numbers(n, nbit, bgbit, l, basebit, t),
        Level::One,
        a,
        b,
        out,
    ))
}

// -a: each word negated, not complemented, at level 0.
#[unsafe(no_mangle)]
pub extern "C" fn egl_tlwe_neg_lv0(
    n: u32,
    nbit: u32,
    bgbit: u32,
    l: u32,
    basebit: u32,
    t: u32,
    a: &[u32],
    out: &mut [u32],
) -> u64
    ensures said { result ≡ packed (outcome (answer (linear_number (numbers n nbit bgbit l basebit t) Zero (length a.now) (length a.now) (length out.old)))) }
    ensures written { out.new ≡ if_done (linear_number (numbers n nbit bgbit l basebit t) Zero (length a.now) (length a.now) (length out.old)) (negative (cipher_words (numbers n nbit bgbit l basebit t) Zero) a.now) out.old }
{
    pack(tlwe::linear::neg(numbers(n, nbit, bgbit, l, basebit, t), Level::Zero, a, out))
}

// -a: each word negated, not complemented, at level 1.
#[unsafe(no_mangle)]
pub extern "C" fn egl_tlwe_neg_lv1(
    n: u32,
    nbit: u32,
    bgbit: u32,
    l: u32,
    basebit: u32,
    t: u32,
    a: &[u32],
    out: &mut [u32],
) -> u64
    ensures said { result ≡ packed (outcome (answer (linear_number (numbers n nbit bgbit l basebit t) One (length a.now) (length a.now) (length out.old)))) }
    ensures written { out.new ≡ if_done (linear_number (numbers n nbit bgbit l basebit t) One (length a.now) (length a.now) (length out.old)) (negative (cipher_words (numbers n nbit bgbit l basebit t) One) a.now) out.old }
{
    pack(tlwe::linear::neg(numbers(n, nbit, bgbit, l, basebit, t), Level::One, a, out))
}

// a + multiplier · b, at level 0.
#[unsafe(no_mangle)]
pub extern "C" fn egl_tlwe_add_mul_lv0(
    n: u32,
    nbit: u32,
    bgbit: u32,
    l: u32,
    basebit: u32,
    t: u32,
    a: &[u32],
    b: &[u32],
    multiplier: u32,
    out: &mut [u32],
) -> u64
    ensures said { result ≡ packed (outcome (answer (linear_number (numbers n nbit bgbit l basebit t) Zero (length a.now) (length b.now) (length out.old)))) }
    ensures written { out.new ≡ if_done (linear_number (numbers n nbit bgbit l basebit t) Zero (length a.now) (length b.now) (length out.old)) (plus (cipher_words (numbers n nbit bgbit l basebit t) Zero) a.now (scale (cipher_words (numbers n nbit bgbit l basebit t) Zero) multiplier b.now)) out.old }
{
    pack(tlwe::linear::add_mul(
        numbers(n, nbit, bgbit, l, basebit, t),
        Level::Zero,
        a,
        b,
        multiplier,
        out,
    ))
}

// a + multiplier · b, at level 1.
#[unsafe(no_mangle)]
pub extern "C" fn egl_tlwe_add_mul_lv1(
    n: u32,
    nbit: u32,
    bgbit: u32,
    l: u32,
    basebit: u32,
    t: u32,
    a: &[u32],
    b: &[u32],
    multiplier: u32,
    out: &mut [u32],
) -> u64
    ensures said { result ≡ packed (outcome (answer (linear_number (numbers n nbit bgbit l basebit t) One (length a.now) (length b.now) (length out.old)))) }
    ensures written { out.new ≡ if_done (linear_number (numbers n nbit bgbit l basebit t) One (length a.now) (length b.now) (length out.old)) (plus (cipher_words (numbers n nbit bgbit l basebit t) One) a.now (scale (cipher_words (numbers n nbit bgbit l basebit t) One) multiplier b.now)) out.old }
{
    pack(tlwe::linear::add_mul(
        numbers(n, nbit, bgbit, l, basebit, t),
        Level::One,
        a,
        b,
        multiplier,
        out,
    ))
}

// a - multiplier · b, at level 0.
#[unsafe(no_mangle)]
pub extern "C" fn egl_tlwe_sub_mul_lv0(
    n: u32,
    nbit: u32,
    bgbit: u32,
    l: u32,
    basebit: u32,
    t: u32,
    a: &[u32],
    b: &[u32],
    multiplier: u32,
    out: &mut [u32],
) -> u64
    ensures said { result ≡ packed (outcome (answer (linear_number (numbers n nbit bgbit l basebit t) Zero (length a.now) (length b.now) (length out.old)))) }
    ensures written { out.new ≡ if_done (linear_number (numbers n nbit bgbit l basebit t) Zero (length a.now) (length b.now) (length out.old)) (minus (cipher_words (numbers n nbit bgbit l basebit t) Zero) a.now (scale (cipher_words (numbers n nbit bgbit l basebit t) Zero) multiplier b.now)) out.old }
{
    pack(tlwe::linear::sub_mul(
        numbers(n, nbit, bgbit, l, basebit, t),
        Level::Zero,
        a,
        b,
        multiplier,
        out,
    ))
}

// a - multiplier · b, at level 1.
#[unsafe(no_mangle)]
pub extern "C" fn egl_tlwe_sub_mul_lv1(
    n: u32,
    nbit: u32,
    bgbit: u32,
    l: u32,
    basebit: u32,
    t: u32,
    a: &[u32],
    b: &[u32],
    multiplier: u32,
    out: &mut [u32],
) -> u64
    ensures said { result ≡ packed (outcome (answer (linear_number (numbers n nbit bgbit l basebit t) One (length a.now) (length b.now) (length out.old)))) }
    ensures written { out.new ≡ if_done (linear_number (numbers n nbit bgbit l basebit t) One (length a.now) (length b.now) (length out.old)) (minus (cipher_words (numbers n nbit bgbit l basebit t) One) a.now (scale (cipher_words (numbers n nbit bgbit l basebit t) One) multiplier b.now)) out.old }
{
    pack(tlwe::linear::sub_mul(
        numbers(n, nbit, bgbit, l, basebit, t),
        Level::One,
        a,
        b,
        multiplier,
        out,
    ))
}
