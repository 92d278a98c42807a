// The gates on encrypted bits.
ghost use Rattle.std.specs.Prelude.{◌≡◌, length};
ghost use Rattle.params.specs.Refusal.{answer, outcome};
ghost use Rattle.gates.specs.Gate.{muxed, muxed_naive, gate_out, mux_out};
ghost use Rattle.gates.specs.Refusals.{gate_number, mux_number};
ghost use Rattle.gate_sums.specs.declared.Kind.TheVariants.{Nand, Or, And, Nor, AndNy, AndYn, OrNy, OrYn, Xor, Xnor};
ghost use Rattle.packing.specs.Packed.{packed};
ghost use Rattle.params.specs.Published.{numbers};

use packing::{numbers, pack};

// Not (a and b).
#[unsafe(no_mangle)]
pub extern "C" fn egl_gates_nand(
    n: u32,
    nbit: u32,
    bgbit: u32,
    l: u32,
    basebit: u32,
    t: u32,
    a: &[u32],
    b: &[u32],
    ksk: &[u32],
    bsk: &[u32],
    out: &mut [u32],
) -> u64
    ensures said { result ≡ packed (outcome (answer (gate_number (numbers n nbit bgbit l basebit t) (length a.now) (length b.now) (length ksk.now) (length bsk.now) (length out.old)))) }
    ensures written { out.new ≡ gate_out (numbers n nbit bgbit l basebit t) Nand a.now b.now ksk.now bsk.now out.old }
{
    pack(named_gates::nand(numbers(n, nbit, bgbit, l, basebit, t), a, b, ksk, bsk, out))
}

// A or b.
#[unsafe(no_mangle)]
pub extern "C" fn egl_gates_or(
    n: u32,
    nbit: u32,
    bgbit: u32,
    l: u32,
    basebit: u32,
    t: u32,
    a: &[u32],
    b: &[u32],
    ksk: &[u32],
    bsk: &[u32],
    out: &mut [u32],
) -> u64
    ensures said { result ≡ packed (outcome (answer (gate_number (numbers n nbit bgbit l basebit t) (length a.now) (length b.now) (length ksk.now) (length bsk.now) (length out.old)))) }
    ensures written { out.new ≡ gate_out (numbers n nbit bgbit l basebit t) Or a.now b.now ksk.now bsk.now out.old }
{
    pack(named_gates::or(numbers(n, nbit, bgbit, l, basebit, t), a, b, ksk, bsk, out))
}

// A and b.
#[unsafe(no_mangle)]
pub extern "C" fn egl_gates_and(
    n: u32,
    nbit: u32,
    bgbit: u32,
    l: u32,
    basebit: u32,
    t: u32,
    a: &[u32],
    b: &[u32],
    ksk: &[u32],
    bsk: &[u32],
    out: &mut [u32],
) -> u64
    ensures said { result ≡ packed (outcome (answer (gate_number (numbers n nbit bgbit l basebit t) (length a.now) (length b.now) (length ksk.now) (length bsk.now) (length out.old)))) }
    ensures written { out.new ≡ gate_out (numbers n nbit bgbit l basebit t) And a.now b.now ksk.now bsk.now out.old }
{
    pack(named_gates::and(numbers(n, nbit, bgbit, l, basebit, t), a, b, ksk, bsk, out))
}

// Not (a or b).
#[unsafe(no_mangle)]
pub extern "C" fn egl_gates_nor(
    n: u32,
    nbit: u32,
    bgbit: u32,
    l: u32,
    basebit: u32,
    t: u32,
    a: &[u32],
    b: &[u32],
    ksk: &[u32],
    bsk: &[u32],
    out: &mut [u32],
) -> u64
    ensures said { result ≡ packed (outcome (answer (gate_number (numbers n nbit bgbit l basebit t) (length a.now) (length b.now) (length ksk.now) (length bsk.now) (length out.old)))) }
    ensures written { out.new ≡ gate_out (numbers n nbit bgbit l basebit t) Nor a.now b.now ksk.now bsk.now out.old }
{
    pack(named_gates::nor(numbers(n, nbit, bgbit, l, basebit, t), a, b, ksk, bsk, out))
}

// (not a) and b.
#[unsafe(no_mangle)]
pub extern "C" fn egl_gates_and_ny(
    n: u32,
    nbit: u32,
    bgbit: u32,
    l: u32,
    basebit: u32,
    t: u32,
    a: &[u32],
    b: &[u32],
    ksk: &[u32],
    bsk: &[u32],
    out: &mut [u32],
) -> u64
    ensures said { result ≡ packed (outcome (answer (gate_number (numbers n nbit bgbit l basebit t) (length a.now) (length b.now) (length ksk.now) (length bsk.now) (length out.old)))) }
    ensures written { out.new ≡ gate_out (numbers n nbit bgbit l basebit t) AndNy a.now b.now ksk.now bsk.now out.old }
{
    pack(named_gates::and_ny(numbers(n, nbit, bgbit, l, basebit, t), a, b, ksk, bsk, out))
}

// A and (not b).
#[unsafe(no_mangle)]
pub extern "C" fn egl_gates_and_yn(
    n: u32,
    nbit: u32,
    bgbit: u32,
    l: u32,
    basebit: u32,
    t: u32,
    a: &[u32],
    b: &[u32],
    ksk: &[u32],
    bsk: &[u32],
    out: &mut [u32],
) -> u64
    ensures said { result ≡ packed (outcome (answer (gate_number (numbers n nbit bgbit l basebit t) (length a.now) (length b.now) (length ksk.now) (length bsk.now) (length out.old)))) }
    ensures written { out.new ≡ gate_out (numbers n nbit bgbit l basebit t) AndYn a.now b.now ksk.now bsk.now out.old }
{
    pack(named_gates::and_yn(numbers(n, nbit, bgbit, l, basebit, t), a, b, ksk, bsk, out))
}

// (not a) or b.
#[unsafe(no_mangle)]
pub extern "C" fn egl_gates_or_ny(
    n: u32,
    nbit: u32,
    bgbit: u32,
    l: u32,
    basebit: u32,
    t: u32,
    a: &[u32],
    b: &[u32],
    ksk: &[u32],
    bsk: &[u32],
    out: &mut [u32],
) -> u64
    ensures said { result ≡ packed (outcome (answer (gate_number (numbers n nbit bgbit l basebit t) (length a.now) (length b.now) (length ksk.now) (length bsk.now) (length out.old)))) }
    ensures written { out.new ≡ gate_out (numbers n nbit bgbit l basebit t) OrNy a.now b.now ksk.now bsk.now out.old }
{
    pack(named_gates::or_ny(numbers(n, nbit, bgbit, l, basebit, t), a, b, ksk, bsk, out))
}

// A or (not b).
#[unsafe(no_mangle)]
pub extern "C" fn egl_gates_or_yn(
    n: u32,
    nbit: u32,
    bgbit: u32,
    l: u32,
    basebit: u32,
    t: u32,
    a: &[u32],
    b: &[u32],
    ksk: &[u32],
    bsk: &[u32],
    out: &mut [u32],
) -> u64
    ensures said { result ≡ packed (outcome (answer (gate_number (numbers n nbit bgbit l basebit t) (length a.now) (length b.now) (length ksk.now) (length bsk.now) (length out.old)))) }
    ensures written { out.new ≡ gate_out (numbers n nbit bgbit l basebit t) OrYn a.now b.now ksk.now bsk.now out.old }
{
    pack(named_gates::or_yn(numbers(n, nbit, bgbit, l, basebit, t), a, b, ksk, bsk, out))
}

// A xor b.
#[unsafe(no_mangle)]
pub extern "C" fn egl_gates_xor(
    n: u32,
    nbit: u32,
    bgbit: u32,
    l: u32,
    basebit: u32,
    t: u32,
    a: &[u32],
    b: &[u32],
    ksk: &[u32],
    bsk: &[u32],
    out: &mut [u32],
) -> u64
    ensures said { result ≡ packed (outcome (answer (gate_number (numbers n nbit bgbit l basebit t) (length a.now) (length b.now) (length ksk.now) (length bsk.now) (length out.old)))) }
    ensures written { out.new ≡ gate_out (numbers n nbit bgbit l basebit t) Xor a.now b.now ksk.now bsk.now out.old }
{
    pack(named_gates::xor(numbers(n, nbit, bgbit, l, basebit, t), a, b, ksk, bsk, out))
}

// A xor b too, and not its negation: that is what the Rust's `xnor` computes (specs/Kind.antt).
#[unsafe(no_mangle)]
pub extern "C" fn egl_gates_xnor(
    n: u32,
    nbit: u32,
    bgbit: u32,
    l: u32,
    basebit: u32,
    t: u32,
    a: &[u32],
    b: &[u32],
    ksk: &[u32],
    bsk: &[u32],
    out: &mut [u32],
) -> u64
    ensures said { result ≡ packed (outcome (answer (gate_number (numbers n nbit bgbit l basebit t) (length a.now) (length b.now) (length ksk.now) (length bsk.now) (length out.old)))) }
    ensures written { out.new ≡ gate_out (numbers n nbit bgbit l basebit t) Xnor a.now b.now ksk.now bsk.now out.old }
{
    pack(named_gates::xnor(numbers(n, nbit, bgbit, l, basebit, t), a, b, ksk, bsk, out))
}

// a ? b : c, with two rotations and one key switching. Refusals: 1, 2.
#[unsafe(no_mangle)]
pub extern "C" fn egl_gates_mux(
    n: u32,
    nbit: u32,
    bgbit: u32,
    l: u32,
    basebit: u32,
    t: u32,
    a: &[u32],
    b: &[u32],
    c: &[u32],
    ksk: &[u32],
    bsk: &[u32],
    out: &mut [u32],
) -> u64
    ensures said { result ≡ packed (outcome (answer (mux_number (numbers n nbit bgbit l basebit t) (length a.now) (length b.now) (length c.now) (length ksk.now) (length bsk.now) (length out.old)))) }
    ensures written { out.new ≡ mux_out muxed (numbers n nbit bgbit l basebit t) a.now b.now c.now ksk.now bsk.now out.old }
{
    pack(named_gates::mux(
        numbers(n, nbit, bgbit, l, basebit, t),
        a,
        b,
        c,
        ksk,
        bsk,
        out,
    ))
}

// a ? b : c by three gates, or(and(a, b), and(not a, c)). Refusals: 1, 2.
#[unsafe(no_mangle)]
pub extern "C" fn egl_gates_mux_naive(
    n: u32,
    nbit: u32,
    bgbit: u32,
    l: u32,
    basebit: u32,
    t: u32,
    a: &[u32],
    b: &[u32],
    c: &[u32],
    ksk: &[u32],
    bsk: &[u32],
    out: &mut [u32],
) -> u64
    ensures said { result ≡ packed (outcome (answer (mux_number (numbers n nbit bgbit l basebit t) (length a.now) (length b.now) (length c.now) (length ksk.now) (length bsk.now) (length out.old)))) }
    ensures written { out.new ≡ mux_out muxed_naive (numbers n nbit bgbit l basebit t) a.now b.now c.now ksk.now bsk.now out.old }
{
    pack(named_gates::mux_naive(
        numbers(n, nbit, bgbit, l, basebit, t),
        a,
        b,
        c,
        ksk,
        bsk,
        out,
    ))
}
