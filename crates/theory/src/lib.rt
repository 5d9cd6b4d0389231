#![tactic(auto)]

// Run graphs in the abstract: a library of definitions (specs/) and theorems (proofs/), with no code.
