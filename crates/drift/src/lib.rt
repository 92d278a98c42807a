#![tactic(auto)]

// Drift (01, Drift): what each gate's drift is (specs/Whole.antt), and that a gate whose brought-in drift is inside gives the right bit, over any key material
// (proofs/Meaning.antt). Mathematics, no code.
