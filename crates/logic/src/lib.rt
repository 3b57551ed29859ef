// Small facts of logic that the definitions and proofs of the other crates cite; it has no code.
#![tactic(auto)]
