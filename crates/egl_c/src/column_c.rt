// A column of gates.
ghost use Rattle.std.specs.Prelude.{◌≡◌, length};
ghost use Rattle.params.specs.Refusal.{answer, outcome};
ghost use Rattle.params.specs.Published.{numbers};
ghost use Rattle.packing.specs.Packed.{packed};
ghost use Rattle.columns.specs.Refusals.{column_number};
ghost use Rattle.columns.specs.Column.{column_out};

use packing::{numbers, pack};

// One kind of gate, as a circuit numbers it, on count pairs of ciphertexts.
#[unsafe(no_mangle)]
pub extern "C" fn egl_gate_column(
    n: u32,
    nbit: u32,
    bgbit: u32,
    l: u32,
    basebit: u32,
    t: u32,
    kind: usize,
    count: usize,
    pairs: &[u32],
    ksk: &[u32],
    bsk: &[u32],
    out: &mut [u32],
) -> u64
    ensures said { result ≡ packed (outcome (answer (column_number (numbers n nbit bgbit l basebit t) kind count (length pairs.now) (length ksk.now) (length bsk.now) (length out.old)))) }
    ensures written { out.new ≡ column_out (numbers n nbit bgbit l basebit t) kind count pairs.now ksk.now bsk.now out.old }
{
    pack(columns::gate_column(
        numbers(n, nbit, bgbit, l, basebit, t),
        kind,
        count,
        pairs,
        ksk,
        bsk,
        out,
    ))
}
