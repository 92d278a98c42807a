// The parameters: whether all six numbers are in range.
ghost use Rattle.std.specs.Prelude.{◌≡◌, eqb};
ghost use Rattle.params.specs.Refusal.{unless, done};
ghost use Rattle.params.specs.Ranges.{params_number};
ghost use Rattle.packing.specs.Packed.{packed};
ghost use Rattle.params.specs.declared.refusal.Refusal.TheVariants.{Parameters};
ghost use Rattle.params.specs.Published.{numbers};

use packing::{numbers, pack};

// Refusal 1 where a number is outside its range.
#[unsafe(no_mangle)]
pub extern "C" fn egl_params_check(
    n: u32,
    nbit: u32,
    bgbit: u32,
    l: u32,
    basebit: u32,
    t: u32,
) -> u64
    ensures { result ≡ packed (unless (eqb (params_number (numbers n nbit bgbit l basebit t)) 0) Parameters done) }
{
    pack(params::check(numbers(n, nbit, bgbit, l, basebit, t)).map(|_| ()))
}
