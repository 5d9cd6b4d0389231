#![tactic(auto)]

// The starred bench cases: a table (specs/) and the theorem that every row of it holds (proofs/), with no code.
