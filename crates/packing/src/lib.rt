#![tactic(auto)]
// What the exports of `egl_c` share: the parameters as they come from C, and how an answer crosses into C, as one number of 64 bits (specs/Packed.antt).
ghost use Rattle.std.specs.Prelude.{◌≡◌, ◌%◌, Err};
ghost use Rattle.params.specs.Published.{numbers};
ghost use Rattle.ring.specs.Bit.{bit_number};
ghost use Rattle.ring.specs.Word.{Q};
ghost use Rattle.packing.specs.Packed.{packed, capped, place_told, packed_value};

use params::{Params, Refusal};

/// The record of the six numbers, which C hands over one by one.
pub fn numbers(n: u32, nbit: u32, bgbit: u32, l: u32, basebit: u32, t: u32) -> Params
    ensures { result ≡ numbers n nbit bgbit l basebit t }
{
    Params {
        n,
        nbit,
        bgbit,
        l,
        basebit,
        t,
    }
}

/// A place or a length of any size as 32 bits tell it.
#[tactic(auto, unfolding(crate::specs::Packed::capped))]
pub fn capped(v: usize) -> u32
    ensures { result ≡ capped v }
{
    if v < 4294967295 { v as u32 } else { 4294967295 }
}

// A refusal's place as 32 bits tell it.
fn place_told(refusal: Refusal) -> u32
    ensures { result ≡ place_told refusal }
{
    match refusal {
        Refusal::Version => 3,
        Refusal::Count(at) | Refusal::Gate(at) | Refusal::Output(at) => at,
        Refusal::Text(at) | Refusal::Limit(at) => capped(at),
        _ => 0,
    }
}

// The number of a refusal in the low half, its place in the high half.
#[tactic(auto, unfolding(ring::specs::Word::Q))]
fn pack_refusal(refusal: Refusal) -> u64
    ensures { result ≡ packed_value (Err refusal) }
{
    u64::from(refusal.number()) + u64::from(place_told(refusal)) * 0x1_0000_0000
}

/// An outcome without a value: 0 where the call did its work.
pub fn pack(outcome: Result<(), Refusal>) -> u64
    ensures { result ≡ packed outcome }
{
    match outcome {
        Ok(()) => 0,
        Err(refusal) => pack_refusal(refusal),
    }
}

/// An outcome with a value: it stands in the high half where the call did its work.
#[tactic(auto, unfolding(ring::specs::Word::Q))]
pub fn pack_value(outcome: Result<u32, Refusal>) -> u64
    ensures { result ≡ packed_value outcome }
{
    match outcome {
        Ok(value) => u64::from(value) * 0x1_0000_0000,
        Err(refusal) => pack_refusal(refusal),
    }
}

/// A bit as a number.
pub fn bit_number(b: bool) -> u32
    ensures { result ≡ bit_number b }
{
    u32::from(b)
}

/// The low 32 bits.
pub fn low_word(x: u64) -> u32
    ensures { result ≡ x % Q }
{
    (x % 0x1_0000_0000) as u32
}
