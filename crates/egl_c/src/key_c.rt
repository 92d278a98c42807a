// Key material: the offset, the test vector, the switching key and its rows.
ghost use Rattle.std.specs.Prelude.{◌≡◌, length};
ghost use Rattle.params.specs.Refusal.{answer, outcome, given, if_done};
ghost use Rattle.key.specs.Offset.{offset};
ghost use Rattle.key.specs.Testvec.{test_number, test_pair};
ghost use Rattle.key.specs.Switching.{lookup_number, place_out};
ghost use Rattle.key.specs.Generation.{generate_number, generated};
ghost use Rattle.key.specs.Former.{drop_number, without_idle};
ghost use Rattle.packing.specs.Packed.{packed, packed_value};
ghost use Rattle.params.specs.Ranges.{params_number};
ghost use Rattle.params.specs.Published.{numbers};

use packing::{numbers, pack, pack_value};

// The decomposition's offset, as the value.
#[tactic(auto, unfolding(key::specs::Offset::offset_out))]
#[unsafe(no_mangle)]
pub extern "C" fn egl_key_decomposition_offset(
    n: u32,
    nbit: u32,
    bgbit: u32,
    l: u32,
    basebit: u32,
    t: u32,
) -> u64
    ensures { result ≡ packed_value (given (answer (params_number (numbers n nbit bgbit l basebit t))) (offset (numbers n nbit bgbit l basebit t))) }
{
    pack_value(key::decomposition_offset(numbers(n, nbit, bgbit, l, basebit, t)).map(
        |offset| offset.0,
    ))
}

// `gen_testvec`: a zero, b an eighth of a turn in every word. Refusals: 1, 2.
#[unsafe(no_mangle)]
pub extern "C" fn egl_key_gen_testvec(
    n: u32,
    nbit: u32,
    bgbit: u32,
    l: u32,
    basebit: u32,
    t: u32,
    a: &mut [u32],
    b: &mut [u32],
) -> u64
    ensures said { result ≡ packed (outcome (answer (test_number (numbers n nbit bgbit l basebit t) (length a.old) (length b.old)))) }
    ensures first { a.new ≡ if_done (test_number (numbers n nbit bgbit l basebit t) (length a.old) (length b.old)) (test_pair (numbers n nbit bgbit l basebit t)).a a.old }
    ensures second { b.new ≡ if_done (test_number (numbers n nbit bgbit l basebit t) (length a.old) (length b.old)) (test_pair (numbers n nbit bgbit l basebit t)).b b.old }
{
    pack(key::gen_testvec(numbers(n, nbit, bgbit, l, basebit, t), a, b))
}

// `gen_key_switching_key` with lent masks and noise, drawn in row order. Refusals: 1, 2, 4.
#[unsafe(no_mangle)]
pub extern "C" fn egl_key_gen_key_switching_key(
    n: u32,
    nbit: u32,
    bgbit: u32,
    l: u32,
    basebit: u32,
    t: u32,
    key_lv0: &[u32],
    key_lv1: &[u32],
    masks: &[u32],
    noise: &[u32],
    out: &mut [u32],
) -> u64
    ensures said { result ≡ packed (outcome (answer (generate_number (numbers n nbit bgbit l basebit t) key_lv0.now key_lv1.now (length masks.now) (length noise.now) (length out.old)))) }
    ensures written { out.new ≡ if_done (generate_number (numbers n nbit bgbit l basebit t) key_lv0.now key_lv1.now (length masks.now) (length noise.now) (length out.old)) (generated (numbers n nbit bgbit l basebit t) key_lv0.now key_lv1.now masks.now noise.now) out.old }
{
    pack(key::gen_key_switching_key(
        numbers(n, nbit, bgbit, l, basebit, t),
        key_lv0,
        key_lv1,
        masks,
        noise,
        out,
    ))
}

// A switching key in the layout before 02, 2026-06, without its idle rows. Refusals: 1, 2.
#[unsafe(no_mangle)]
pub extern "C" fn egl_key_drop_idle_rows(
    n: u32,
    nbit: u32,
    bgbit: u32,
    l: u32,
    basebit: u32,
    t: u32,
    former: &[u32],
    out: &mut [u32],
) -> u64
    ensures said { result ≡ packed (outcome (answer (drop_number (numbers n nbit bgbit l basebit t) (length former.now) (length out.old)))) }
    ensures written { out.new ≡ if_done (drop_number (numbers n nbit bgbit l basebit t) (length former.now) (length out.old)) (without_idle (numbers n nbit bgbit l basebit t) former.now) out.old }
{
    pack(key::drop_idle_rows(numbers(n, nbit, bgbit, l, basebit, t), former, out))
}

// What a lookup of row (i, j, k) in a switching key of so many words is answered. Refusals: 1, 2, 3.
#[unsafe(no_mangle)]
pub extern "C" fn egl_key_switching_row_answer(
    n: u32,
    nbit: u32,
    bgbit: u32,
    l: u32,
    basebit: u32,
    t: u32,
    words: usize,
    i: usize,
    j: usize,
    k: usize,
) -> u64
    ensures { result ≡ packed (outcome (answer (lookup_number (numbers n nbit bgbit l basebit t) words i j k))) }
{
    pack(key::switching_row_answer(numbers(n, nbit, bgbit, l, basebit, t), words, i, j, k))
}

// The place of row (i, j, k) among the rows of the switching key, as the value: its first word stands at (n + 1) times this. Refusals: 1, 3.
#[unsafe(no_mangle)]
pub extern "C" fn egl_key_row_index(
    n: u32,
    nbit: u32,
    bgbit: u32,
    l: u32,
    basebit: u32,
    t: u32,
    i: usize,
    j: usize,
    k: usize,
) -> u64
    ensures { result ≡ packed_value (place_out (numbers n nbit bgbit l basebit t) i j k) }
{
    pack_value(key::row_index(numbers(n, nbit, bgbit, l, basebit, t), i, j, k))
}
