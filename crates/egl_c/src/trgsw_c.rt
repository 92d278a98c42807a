// src/trgsw.rs: decomposition, external product and `cmux`, rotations and their amounts, blind rotation and its step, key switching, the bootstrapping key.
ghost use Rattle.std.specs.Prelude.{◌≡◌, Ok, eqb, length};
ghost use Rattle.params.specs.Refusal.{answer, outcome, if_done, unless};
ghost use Rattle.decomposition.specs.Pair.{decomposition_number, decomposition_out};
ghost use Rattle.trgsw.specs.Refusals.{external_number, external_out, cmux_number, cmux_out};
ghost use Rattle.packing.specs.Packed.{packed, packed_value};
ghost use Rattle.params.specs.declared.refusal.Refusal.TheVariants.{Parameters};
ghost use Rattle.params.specs.Ranges.{params_number};
ghost use Rattle.params.specs.Published.{numbers};
ghost use Rattle.params.specs.Sizes.{size};
ghost use Rattle.ring.specs.Turn.{rotated};
ghost use Rattle.rotation.specs.Amount.{mask_amount, body_amount, rounded_to};
ghost use Rattle.rotation.specs.Rotate.{rotate_number};
ghost use Rattle.blind_rotation.specs.Refusals.{step_number, step_out, blind_number, blind_out};
ghost use Rattle.switching.specs.Switched.{switch_number, switched};
ghost use Rattle.bootstrapping.specs.Rows.{torus_rows, bootstrapping_key};
ghost use Rattle.bootstrapping.specs.Refusals.{torus_number, bootstrapping_number};

use packing::{numbers, pack, pack_value};
use utils::{Amount, Torus};

// The 2L digit polynomials of the pair (a, b), in order. Refusals: 1, 2.
#[unsafe(no_mangle)]
pub extern "C" fn egl_trgsw_decomposition(
    n: u32,
    nbit: u32,
    bgbit: u32,
    l: u32,
    basebit: u32,
    t: u32,
    a: &[u32],
    b: &[u32],
    out: &mut [u32],
) -> u64
    ensures said { result ≡ packed (outcome (answer (decomposition_number (numbers n nbit bgbit l basebit t) (length a.now) (length b.now) (length out.old)))) }
    ensures written { out.new ≡ decomposition_out (numbers n nbit bgbit l basebit t) a.now b.now out.old }
{
    pack(decomposition::decomposition(numbers(n, nbit, bgbit, l, basebit, t), a, b, out))
}

// The external product of one bit's 2L rows with the pair (a, b): the sum of digit polynomial times row. Refusals: 1, 2.
#[unsafe(no_mangle)]
pub extern "C" fn egl_trgsw_external_product(
    n: u32,
    nbit: u32,
    bgbit: u32,
    l: u32,
    basebit: u32,
    t: u32,
    rows: &[u32],
    a: &[u32],
    b: &[u32],
    outa: &mut [u32],
    outb: &mut [u32],
) -> u64
    ensures said { result ≡ packed (outcome (answer (external_number (numbers n nbit bgbit l basebit t) (length rows.now) (length a.now) (length b.now) (length outa.old) (length outb.old)))) }
    ensures first { outa.new ≡ (external_out (numbers n nbit bgbit l basebit t) rows.now (record { a = a.now; b = b.now }) (record { a = outa.old; b = outb.old })).a }
    ensures second { outb.new ≡ (external_out (numbers n nbit bgbit l basebit t) rows.now (record { a = a.now; b = b.now }) (record { a = outa.old; b = outb.old })).b }
{
    pack(trgsw::external_product(
        numbers(n, nbit, bgbit, l, basebit, t),
        rows,
        a,
        b,
        outa,
        outb,
    ))
}

// in1 + product(in2 - in1), in1 being (a1, b1) and in2 (a2, b2): in1 where the rows encrypt 0, in2 where they encrypt 1. Refusals: 1, 2.
#[unsafe(no_mangle)]
pub extern "C" fn egl_trgsw_cmux(
    n: u32,
    nbit: u32,
    bgbit: u32,
    l: u32,
    basebit: u32,
    t: u32,
    a1: &[u32],
    b1: &[u32],
    a2: &[u32],
    b2: &[u32],
    rows: &[u32],
    outa: &mut [u32],
    outb: &mut [u32],
) -> u64
    ensures said { result ≡ packed (outcome (answer (cmux_number (numbers n nbit bgbit l basebit t) (length a1.now) (length b1.now) (length a2.now) (length b2.now) (length rows.now) (length outa.old) (length outb.old)))) }
    ensures first { outa.new ≡ (cmux_out (numbers n nbit bgbit l basebit t) rows.now (record { a = a1.now; b = b1.now }) (record { a = a2.now; b = b2.now }) (record { a = outa.old; b = outb.old })).a }
    ensures second { outb.new ≡ (cmux_out (numbers n nbit bgbit l basebit t) rows.now (record { a = a1.now; b = b1.now }) (record { a = a2.now; b = b2.now }) (record { a = outa.old; b = outb.old })).b }
{
    pack(trgsw::cmux(
        numbers(n, nbit, bgbit, l, basebit, t),
        a1,
        b1,
        a2,
        b2,
        rows,
        outa,
        outb,
    ))
}

// X^k · a: places move by k modulo 2N, and a coefficient that ends in the upper half is complemented.
#[unsafe(no_mangle)]
pub extern "C" fn egl_trgsw_poly_mul_with_x_k(
    n: u32,
    nbit: u32,
    bgbit: u32,
    l: u32,
    basebit: u32,
    t: u32,
    a: &[u32],
    k: u32,
    out: &mut [u32],
) -> u64
    ensures said { result ≡ packed (outcome (answer (rotate_number (numbers n nbit bgbit l basebit t) (length a.now) (length out.old) k))) }
    ensures written { out.new ≡ if_done (rotate_number (numbers n nbit bgbit l basebit t) (length a.now) (length out.old) k) (rotated (size (numbers n nbit bgbit l basebit t)) k a.now) out.old }
{
    pack(rotation::poly_mul_with_x_k(numbers(n, nbit, bgbit, l, basebit, t), a, Amount(k), out))
}

// The amount of a mask word, in the high half: the steps nearest to it, below 2N. The sum wraps.
#[unsafe(no_mangle)]
pub extern "C" fn egl_trgsw_mask_amount(
    n: u32,
    nbit: u32,
    bgbit: u32,
    l: u32,
    basebit: u32,
    t: u32,
    x: u32,
) -> u64
    ensures { result ≡ packed_value (unless (eqb (params_number (numbers n nbit bgbit l basebit t)) 0) Parameters (Ok (mask_amount (numbers n nbit bgbit l basebit t) x))) }
{
    pack_value(rotation::mask_amount(numbers(n, nbit, bgbit, l, basebit, t), Torus(x)).map(|k| k.0))
}

// The amount of the last word, b, in the high half: 2N less the steps nearest to it, from 0 to 2N. The sum does not wrap.
#[unsafe(no_mangle)]
pub extern "C" fn egl_trgsw_body_amount(
    n: u32,
    nbit: u32,
    bgbit: u32,
    l: u32,
    basebit: u32,
    t: u32,
    b: u32,
) -> u64
    ensures { result ≡ packed_value (unless (eqb (params_number (numbers n nbit bgbit l basebit t)) 0) Parameters (Ok (body_amount (numbers n nbit bgbit l basebit t) b))) }
{
    pack_value(rotation::body_amount(numbers(n, nbit, bgbit, l, basebit, t), Torus(b)).map(|k| k.0))
}

// Step i of the blind rotation, i below n, by the ciphertext's mask i: what it makes of the accumulator (a, b). Refusals: 1, 2, 3.
#[unsafe(no_mangle)]
pub extern "C" fn egl_trgsw_blind_rotate_step(
    n: u32,
    nbit: u32,
    bgbit: u32,
    l: u32,
    basebit: u32,
    t: u32,
    key: &[u32],
    i: usize,
    mask: u32,
    a: &mut [u32],
    b: &mut [u32],
) -> u64
    ensures said { result ≡ packed (outcome (answer (step_number (numbers n nbit bgbit l basebit t) (length key.now) i (length a.old) (length b.old)))) }
    ensures first { a.new ≡ (step_out (numbers n nbit bgbit l basebit t) key.now i mask (record { a = a.old; b = b.old })).a }
    ensures second { b.new ≡ (step_out (numbers n nbit bgbit l basebit t) key.now i mask (record { a = a.old; b = b.old })).b }
{
    pack(blind_rotation::blind_rotate_step(
        numbers(n, nbit, bgbit, l, basebit, t),
        key,
        i,
        Torus(mask),
        a,
        b,
    ))
}

// The gates' start vector rotated by the level-0 ciphertext src, into (a, b): the fold of the steps. Refusals: 1, 2.
#[unsafe(no_mangle)]
pub extern "C" fn egl_trgsw_blind_rotate(
    n: u32,
    nbit: u32,
    bgbit: u32,
    l: u32,
    basebit: u32,
    t: u32,
    src: &[u32],
    key: &[u32],
    a: &mut [u32],
    b: &mut [u32],
) -> u64
    ensures said { result ≡ packed (outcome (answer (blind_number (numbers n nbit bgbit l basebit t) (length src.now) (length key.now) (length a.old) (length b.old)))) }
    ensures first { a.new ≡ (blind_out (numbers n nbit bgbit l basebit t) src.now key.now (record { a = a.old; b = b.old })).a }
    ensures second { b.new ≡ (blind_out (numbers n nbit bgbit l basebit t) src.now key.now (record { a = a.old; b = b.old })).b }
{
    pack(blind_rotation::blind_rotate(numbers(n, nbit, bgbit, l, basebit, t), src, key, a, b))
}

// The sample src of level 1 as one of level 0: b copied, and for each field of each mask that is not 0 its row subtracted.
#[unsafe(no_mangle)]
pub extern "C" fn egl_trgsw_identity_key_switching(
    n: u32,
    nbit: u32,
    bgbit: u32,
    l: u32,
    basebit: u32,
    t: u32,
    src: &[u32],
    ksk: &[u32],
    out: &mut [u32],
) -> u64
    ensures said { result ≡ packed (outcome (answer (switch_number (numbers n nbit bgbit l basebit t) (length src.now) (length ksk.now) (length out.old)))) }
    ensures written { out.new ≡ if_done (switch_number (numbers n nbit bgbit l basebit t) (length src.now) (length ksk.now) (length out.old)) (switched (numbers n nbit bgbit l basebit t) ksk.now src.now) out.old }
{
    pack(switching::identity_key_switching(numbers(n, nbit, bgbit, l, basebit, t), src, ksk, out))
}

// `encrypt_torus` with lent masks and noise: 2L rows of 2N words, each a then b, encryptions of zero to which m times the gadget is added.

// Refusals: 1, 2, 4.
#[unsafe(no_mangle)]
pub extern "C" fn egl_trgsw_encrypt_torus(
    n: u32,
    nbit: u32,
    bgbit: u32,
    l: u32,
    basebit: u32,
    t: u32,
    m: u32,
    masks: &[u32],
    noise: &[u32],
    key_lv1: &[u32],
    out: &mut [u32],
) -> u64
    ensures said { result ≡ packed (outcome (answer (torus_number (numbers n nbit bgbit l basebit t) (length masks.now) (length noise.now) key_lv1.now (length out.old)))) }
    ensures written { out.new ≡ if_done (torus_number (numbers n nbit bgbit l basebit t) (length masks.now) (length noise.now) key_lv1.now (length out.old)) (torus_rows (numbers n nbit bgbit l basebit t) m key_lv1.now masks.now noise.now) out.old }
{
    pack(bootstrapping::encrypt_torus(
        numbers(n, nbit, bgbit, l, basebit, t),
        Torus(m),
        masks,
        noise,
        key_lv1,
        out,
    ))
}

// `gen_bootstrapping_key` with lent masks and noise, drawn in row order: `encrypt_torus` of each word of the level-0 key. Refusals: 1, 2, 4.
#[unsafe(no_mangle)]
pub extern "C" fn egl_trgsw_gen_bootstrapping_key(
    n: u32,
    nbit: u32,
    bgbit: u32,
    l: u32,
    basebit: u32,
    t: u32,
    key_lv0: &[u32],
    key_lv1: &[u32],
    masks: &[u32],
    noise: &[u32],
    out: &mut [u32],
) -> u64
    ensures said { result ≡ packed (outcome (answer (bootstrapping_number (numbers n nbit bgbit l basebit t) key_lv0.now key_lv1.now (length masks.now) (length noise.now) (length out.old)))) }
    ensures written { out.new ≡ if_done (bootstrapping_number (numbers n nbit bgbit l basebit t) key_lv0.now key_lv1.now (length masks.now) (length noise.now) (length out.old)) (bootstrapping_key (numbers n nbit bgbit l basebit t) key_lv0.now key_lv1.now masks.now noise.now) out.old }
{
    pack(bootstrapping::gen_bootstrapping_key(
        numbers(n, nbit, bgbit, l, basebit, t),
        key_lv0,
        key_lv1,
        masks,
        noise,
        out,
    ))
}
