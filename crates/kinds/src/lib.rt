#![tactic(auto)]
// The kinds of gates of a circuit (01, 'Circuits'): what specs/Kinds.antt gives of each.
ghost use Rattle.std.specs.Prelude.{◌≡◌, ◌≤◌};
ghost use Rattle.kinds.specs.Kinds.{kind_of, bit_meaning};

mod kind;

pub use kind::{Kind, NoKind};

// The three functions on numbers are total, since other crates and C hand them any number: one that no kind has stands for the first.

/// How many operands a gate of the kind of this number needs.
#[tactic(auto, using(crate::proofs::Columns::kind_past))]
pub fn operands(kind: usize) -> usize
    ensures { result ≡ (kind_of kind).operands }
{
    match Kind::try_from(kind) {
        Ok(kind) => kind.operands(),
        Err(_) => 0,
    }
}

/// The work of a gate of the kind of this number.
#[tactic(auto, using(crate::proofs::Columns::kind_past))]
pub fn work_of(kind: usize) -> u32
    ensures value { result ≡ (kind_of kind).work }
    ensures upper_bound { result ≤ 2 }
{
    match Kind::try_from(kind) {
        Ok(kind) => kind.work(),
        Err(_) => 0,
    }
}

/// The bit of a gate of the kind of this number on the bits of its operands.
#[tactic(auto, using(crate::proofs::Columns::meaning_past), unfolding(crate::specs::Kinds::bit_meaning))]
pub fn meaning(kind: usize, a: u8, b: u8, c: u8) -> u8
    ensures { result ≡ bit_meaning kind a b c }
{
    match Kind::try_from(kind) {
        Ok(kind) => kind.meaning(a != 0, b != 0, c != 0) as u8,
        Err(_) => 0,
    }
}
