#![tactic(auto)]
// Circuits in the Bristol Fashion text form (02, request 2026-02), read into our circuit form.
mod bytes;
mod gates;
mod lines;
mod ours;
mod whole;

pub use whole::import;

// What a gate of the text says: its first two operands, its first result, its name, and the place after it.
#[derive(Clone, Copy)]
pub struct Line {
    pub first: usize,
    pub second: usize,
    pub result: usize,
    pub name: usize,
    pub at: usize,
}

// A gate of the text read backwards: its name, its result, its last operand, and where it begins.
#[derive(Clone, Copy)]
pub struct BehindLine {
    pub name: usize,
    pub result: usize,
    pub last: usize,
    pub at: usize,
}
