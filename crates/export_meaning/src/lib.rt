#![tactic(auto)]
// The text of an exported circuit is in the Bristol Fashion form and means what the circuit means (02, request 2026-02): laws alone, in proofs/.
