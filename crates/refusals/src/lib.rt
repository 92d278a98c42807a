#![tactic(auto)]
// The order of refusals: the table of a routine as a list of checks (specs/Table.antt) and its laws. The code of a table is a line for each check, `Refusal::X.unless(test)?`.
