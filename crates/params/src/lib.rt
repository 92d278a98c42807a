#![tactic(auto)]
// The parameters at run time (src/params.rs has them as constants), the refusals of every routine, and the length of every lent slice.

use std::marker::Model;

mod checks;
pub mod published;
mod refusal;

pub use checks::check;
pub use refusal::Refusal;

/// The six numbers, by value: the names of `TlweParams` and `TrgswParams`; t is IKS_T, and N is 2^nbit.
#[derive(Clone, Copy, Debug, PartialEq, Eq)]
pub struct Params {
    pub n: u32,
    pub nbit: u32,
    pub bgbit: u32,
    pub l: u32,
    pub basebit: u32,
    pub t: u32,
}

/// The length of every slice that a routine is lent.
#[derive(Clone, Copy, Debug, PartialEq, Eq)]
pub struct Sizes {
    // n, the masks of a level-0 ciphertext, and N, those of a level-1 ciphertext and the words of a polynomial
    pub n: usize,
    pub size: usize,
    // the words of a ciphertext at each level
    pub level0: usize,
    pub level1: usize,
    // the switching key, and what its generation is lent
    pub ksk: usize,
    pub kskmasks: usize,
    pub ksknoise: usize,
    // one bit's part of the bootstrapping key, and the whole
    pub bit: usize,
    pub bsk: usize,
    // the masks, and as many noise words, that one bit's part and the whole are lent; also the words of a decomposed pair
    pub bitmasks: usize,
    pub bskmasks: usize,
}

/// Parameters that passed their check, with their lengths. A contract sees the parameters alone.
#[derive(Clone, Copy)]
pub struct Checked {
    pub params: Params,
    pub sizes: Sizes,
}

impl Model for Checked {
    ghost use Rattle.std.specs.Prelude.{◌≡◌};
    ghost use Rattle.std.proofs.Common.{ap, sym};
    ghost use Rattle.params.specs.declared.Params.{Params};
    ghost use Rattle.params.specs.Ranges.{InRange};
    ghost use Rattle.params.specs.Sizes.{sizes_in};

    ghost Value = { Params };

    ghost view = { λ c. c.params };

    ghost invariant = { λ c. InRange c.params × (c.sizes ≡ sizes_in c.params) };

    // The lengths come back from the parameters, so a copy is the value itself.
    ghost inverse = { λ p. record { params = p; sizes = sizes_in p } };

    ghost inverse_ok = { λ c h. ap (λ s. record { params = c.params; sizes = s }) (sym h.1) };
}
