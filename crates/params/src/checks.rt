// The one check of the parameters. The products are worked out in 64 bits: two u32 cannot overflow there.
ghost use Rattle.std.specs.Prelude.{◌≡◌};
ghost use Rattle.params.specs.Ranges.{checked, InRange};
ghost use Rattle.params.specs.Private.{sizes_fit, gadget_fits, switching_fits, fits};
ghost use Rattle.params.specs.Sizes.{sizes_in};

use crate::{Checked, Params, Refusal, Sizes};

// n and NBIT are in their ranges.
fn sizes_fit(p: Params) -> bool
    ensures { result ≡ sizes_fit p }
{
    1 <= p.n && p.n <= 1100 && 1 <= p.nbit && p.nbit <= 10
}

// BGBIT and L are.
fn gadget_fits(p: Params) -> bool
    ensures { result ≡ gadget_fits p }
{
    1 <= p.bgbit && p.bgbit <= 24 && 1 <= p.l && u64::from(p.l) * u64::from(p.bgbit) <= 32
}

// BASEBIT and T are.
fn switching_fits(p: Params) -> bool
    ensures { result ≡ switching_fits p }
{
    1 <= p.basebit && p.basebit <= 6 && 1 <= p.t && u64::from(p.basebit) * u64::from(p.t) <= 30
}

// All six are.
#[tactic(auto, unfolding(crate::specs::Private::fits))]
fn fits(p: Params) -> bool
    ensures { result ≡ fits p }
{
    sizes_fit(p) && gadget_fits(p) && switching_fits(p)
}

// The lengths, the parameters being in range.
fn sizes_in(p: Params) -> Sizes
    requires { InRange p }
    ensures { result ≡ sizes_in p }
{
    let n = p.n as usize;
    let size = ring::power(p.nbit) as usize;
    let base = ring::power(p.basebit) as usize;
    let fields = size * (p.t as usize);
    let rows = (p.l as usize) + (p.l as usize);
    let bit = rows * (size + size);
    let bitmasks = rows * size;
    let switching = fields * (base - 1);
    Sizes {
        n,
        size,
        level0: n + 1,
        level1: size + 1,
        ksk: switching * (n + 1),
        kskmasks: switching * n,
        ksknoise: switching,
        bit,
        bsk: n * bit,
        bitmasks,
        bskmasks: n * bitmasks,
    }
}

/// The parameters with the length of every lent slice, or refusal 1.
pub fn check(p: Params) -> Result<Checked, Refusal>
    ensures { result ≡ checked p }
{
    if !fits(p) {
        return Err(Refusal::Parameters);
    }
    Ok(Checked {
        params: p,
        sizes: sizes_in(p),
    })
}
