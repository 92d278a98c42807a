#![tactic(auto)]
// Circuits (01, 'Circuits'): reading one, its work, and running it on plain bits.
mod cost;
mod fields;
mod form;
mod plain;
mod words;

pub use cost::work;
pub use fields::{counts, kind_at, operand_at, output_at};
pub use form::check;
pub use plain::run_plain;
pub use words::tell;

/// What the head of a circuit's bytes holds after the mark.
#[derive(Clone, Copy)]
pub struct Shape {
    pub version: usize,
    pub inputs: usize,
    pub gates: usize,
    pub outputs: usize,
}
