// A crate of theorems: see proofs/. It has no code.
#![tactic(auto)]
