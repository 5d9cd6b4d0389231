#![tactic(auto)]

// Bench case A, the arbiter of 000, figure 2: its sheet (specs/) and the search for its first choice (proofs/), with no code.
