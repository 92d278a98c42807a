#![tactic(auto)]
// Texts in the Bristol Fashion form (02, request 2026-02): whether a text is in the form, and its circuit within the limits of 01.
mod form;
mod gate;
mod head;
mod held;
mod numbers;
mod rows;
mod wires;

pub use form::check;
use params::Refusal;

/// What a text in the form says that a reader of its gates needs: the numbers of its gates and wires, of its inputs and outputs, of its gates that are not EQW, and where
/// the gates begin.
#[derive(Clone, Copy)]
pub struct Contents {
    pub gates: usize,
    pub wires: usize,
    pub inputs: usize,
    pub outputs: usize,
    pub made: usize,
    pub body: usize,
}

// What a head says, and the first limit that it passes, which is told only of a text in the form.
#[derive(Clone, Copy)]
pub struct HeadRead {
    pub gates: usize,
    pub wires: usize,
    pub inputs: usize,
    pub outputs: usize,
    pub body: usize,
    pub limit: Result<(), Refusal>,
}

// The sum of so many sizes, and the place after them.
#[derive(Clone, Copy)]
pub struct Sizes {
    pub sum: usize,
    pub at: usize,
}

// The numbers of a gate's operands and results, and the place after them.
#[derive(Clone, Copy)]
pub struct Counts {
    pub operands: usize,
    pub results: usize,
    pub at: usize,
}

// The number of a gate's results, its name and that token's place, and the place after it.
#[derive(Clone, Copy)]
pub struct GateRead {
    pub results: usize,
    pub name: usize,
    pub named: usize,
    pub at: usize,
}

// How many gates are not EQW, the first limit that gates pass, which is told only of a text in the form, and the place after them.
#[derive(Clone, Copy)]
pub struct GatesRead {
    pub made: usize,
    pub limit: Result<(), Refusal>,
    pub at: usize,
}
