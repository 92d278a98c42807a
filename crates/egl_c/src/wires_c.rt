// The gates that need no rotation.
ghost use Rattle.std.specs.Prelude.{◌≡◌, ◌+◌, length};
ghost use Rattle.params.specs.Refusal.{answer, outcome, if_done};
ghost use Rattle.tlwe.specs.Linear.{linear_number, negative};
ghost use Rattle.tlwe.specs.declared.Level.TheVariants.{Zero};
ghost use Rattle.gate_sums.specs.Sum.{constant_of, constant_number};
ghost use Rattle.packing.specs.Packed.{packed};
ghost use Rattle.params.specs.Published.{numbers};
ghost use Rattle.ring.specs.Bit.{truth};

use packing::{numbers, pack};

// Each word negated: `Neg` of src/tlwe.rs, so no rotation is needed.
#[unsafe(no_mangle)]
pub extern "C" fn egl_gates_not(
    n: u32,
    nbit: u32,
    bgbit: u32,
    l: u32,
    basebit: u32,
    t: u32,
    a: &[u32],
    out: &mut [u32],
) -> u64
    ensures said { result ≡ packed (outcome (answer (linear_number (numbers n nbit bgbit l basebit t) Zero (length a.now) (length a.now) (length out.old)))) }
    ensures written { out.new ≡ if_done (linear_number (numbers n nbit bgbit l basebit t) Zero (length a.now) (length a.now) (length out.old)) (negative ((numbers n nbit bgbit l basebit t).n + 1) a.now) out.old }
{
    pack(gate_sums::wires::not(numbers(n, nbit, bgbit, l, basebit, t), a, out))
}

// A copy of a ciphertext.
#[unsafe(no_mangle)]
pub extern "C" fn egl_gates_copy(
    n: u32,
    nbit: u32,
    bgbit: u32,
    l: u32,
    basebit: u32,
    t: u32,
    a: &[u32],
    out: &mut [u32],
) -> u64
    ensures said { result ≡ packed (outcome (answer (linear_number (numbers n nbit bgbit l basebit t) Zero (length a.now) (length a.now) (length out.old)))) }
    ensures written { out.new ≡ if_done (linear_number (numbers n nbit bgbit l basebit t) Zero (length a.now) (length a.now) (length out.old)) a.now out.old }
{
    pack(gate_sums::wires::copy(numbers(n, nbit, bgbit, l, basebit, t), a, out))
}

// A ciphertext of a known bit, which any key decrypts.
#[unsafe(no_mangle)]
pub extern "C" fn egl_gates_constant(
    n: u32,
    nbit: u32,
    bgbit: u32,
    l: u32,
    basebit: u32,
    t: u32,
    bit: u32,
    out: &mut [u32],
) -> u64
    ensures said { result ≡ packed (outcome (answer (constant_number (numbers n nbit bgbit l basebit t) (length out.old)))) }
    ensures written { out.new ≡ if_done (constant_number (numbers n nbit bgbit l basebit t) (length out.old)) (constant_of (numbers n nbit bgbit l basebit t) (truth bit)) out.old }
{
    pack(gate_sums::wires::constant(numbers(n, nbit, bgbit, l, basebit, t), bit != 0, out))
}
