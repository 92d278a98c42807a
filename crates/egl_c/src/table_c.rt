// Lookup tables on small messages (02, 2026-07): the test vector of a table, the rotation of a lent vector, the lookup, and the lookup with its drifts.
ghost use Rattle.std.specs.Prelude.{◌≡◌, true, length, ◌+◌, ◌%◌};
ghost use Rattle.ring.specs.Word.{Q, at};
ghost use Rattle.ring.specs.Phase.{phase_of};
ghost use Rattle.ring.specs.Bit.{bit_number};
ghost use Rattle.params.specs.Refusal.{answer, outcome, given};
ghost use Rattle.params.specs.Published.{numbers};
ghost use Rattle.blind_rotation.specs.Refusals.{vector_number, vector_out};
ghost use Rattle.tables.specs.Refusals.{table_number, table_out, lookup_number, lookup_out};
ghost use Rattle.table_drift.specs.Lookup.{message_brought, inside_margin, Carries, both_inside};
ghost use Rattle.table_drift.specs.Refusals.{lookup_drift_number, told_inside, result_after, drifts_after};
ghost use Rattle.packing.specs.Packed.{packed, packed_value};

use packing::{bit_number, numbers, pack, pack_value};

// The test vector (a, b) of the table's modulus words.
#[unsafe(no_mangle)]
pub extern "C" fn egl_table_testvec(
    n: u32,
    nbit: u32,
    bgbit: u32,
    l: u32,
    basebit: u32,
    t: u32,
    modulus: u64,
    table: &[u32],
    a: &mut [u32],
    b: &mut [u32],
) -> u64
    ensures said { result ≡ packed (outcome (answer (table_number (numbers n nbit bgbit l basebit t) modulus (length table.now) (length a.old) (length b.old)))) }
    ensures first { a.new ≡ (table_out (numbers n nbit bgbit l basebit t) modulus table.now (record { a = a.old; b = b.old })).a }
    ensures second { b.new ≡ (table_out (numbers n nbit bgbit l basebit t) modulus table.now (record { a = a.old; b = b.old })).b }
{
    pack(tables::table_testvec(numbers(n, nbit, bgbit, l, basebit, t), modulus, table, a, b))
}

// The lent vector (va, vb) rotated by the level-0 ciphertext src.
#[unsafe(no_mangle)]
pub extern "C" fn egl_trgsw_blind_rotate_with_testvec(
    n: u32,
    nbit: u32,
    bgbit: u32,
    l: u32,
    basebit: u32,
    t: u32,
    src: &[u32],
    va: &[u32],
    vb: &[u32],
    key: &[u32],
    a: &mut [u32],
    b: &mut [u32],
) -> u64
    ensures said { result ≡ packed (outcome (answer (vector_number (numbers n nbit bgbit l basebit t) (length src.now) (length va.now) (length vb.now) (length key.now) (length a.old) (length b.old)))) }
    ensures first { a.new ≡ (vector_out (numbers n nbit bgbit l basebit t) src.now (record { a = va.now; b = vb.now }) key.now (record { a = a.old; b = b.old })).a }
    ensures second { b.new ≡ (vector_out (numbers n nbit bgbit l basebit t) src.now (record { a = va.now; b = vb.now }) key.now (record { a = a.old; b = b.old })).b }
{
    pack(blind_rotation::vector::blind_rotate_with_testvec(
        numbers(n, nbit, bgbit, l, basebit, t),
        src,
        va,
        vb,
        key,
        a,
        b,
    ))
}

// The table's word for the message whose ciphertext is c.
#[unsafe(no_mangle)]
pub extern "C" fn egl_lookup(
    n: u32,
    nbit: u32,
    bgbit: u32,
    l: u32,
    basebit: u32,
    t: u32,
    modulus: u64,
    table: &[u32],
    c: &[u32],
    ksk: &[u32],
    bsk: &[u32],
    out: &mut [u32],
) -> u64
    ensures said { result ≡ packed (outcome (answer (lookup_number (numbers n nbit bgbit l basebit t) modulus (length table.now) (length c.now) (length ksk.now) (length bsk.now) (length out.old)))) }
    ensures written { out.new ≡ lookup_out (numbers n nbit bgbit l basebit t) modulus table.now c.now ksk.now bsk.now out.old }
{
    pack(tables::lookup(
        numbers(n, nbit, bgbit, l, basebit, t),
        modulus,
        table,
        c,
        ksk,
        bsk,
        out,
    ))
}

// The lookup with its drifts, into drifts what is brought in and the result's; the value is 1 where both are inside, else 0.
#[unsafe(no_mangle)]
pub extern "C" fn egl_lookup_drift(
    n: u32,
    nbit: u32,
    bgbit: u32,
    l: u32,
    basebit: u32,
    t: u32,
    modulus: u64,
    table: &[u32],
    results: u64,
    value: u64,
    ksk: &[u32],
    bsk: &[u32],
    key: &[u32],
    z: &[u32],
    c: &[u32],
    out: &mut [u32],
    drifts: &mut [u32],
) -> u64
    ensures said { result ≡ packed_value (given (answer (lookup_drift_number (numbers n nbit bgbit l basebit t) modulus (length table.now) results (length ksk.now) (length bsk.now) key.now z.now (length c.now) (length out.old) (length drifts.old))) (bit_number (both_inside (numbers n nbit bgbit l basebit t) key.now z.now ksk.now bsk.now modulus table.now results value c.now))) }
    ensures written { out.new ≡ result_after (numbers n nbit bgbit l basebit t) modulus table.now results ksk.now bsk.now key.now z.now c.now out.old drifts.old }
    ensures drifted { drifts.new ≡ drifts_after (numbers n nbit bgbit l basebit t) modulus table.now results value ksk.now bsk.now key.now z.now c.now out.old drifts.old }
    ensures carried { lookup_drift_number (numbers n nbit bgbit l basebit t) modulus (length table.now) results (length ksk.now) (length bsk.now) key.now z.now (length c.now) (length out.old) (length drifts.old) ≡ 0 → inside_margin modulus (message_brought (numbers n nbit bgbit l basebit t) key.now c.now value modulus) ≡ true → phase_of n key.now out.new ≡ (at table.now (value % modulus) + at drifts.new 1) % Q }
    ensures right { told_inside (numbers n nbit bgbit l basebit t) modulus table.now results value ksk.now bsk.now key.now z.now c.now out.old drifts.old ≡ true → Carries (numbers n nbit bgbit l basebit t) key.now modulus table.now results value out.new (at drifts.new 1) }
{
    pack_value(table_drift::lookup_drift(
        numbers(n, nbit, bgbit, l, basebit, t),
        modulus,
        table,
        results,
        value,
        ksk,
        bsk,
        key,
        z,
        c,
        out,
        drifts,
    )
    .map(bit_number))
}
