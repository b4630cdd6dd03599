// No code: specs/ holds the type part of crate pdb 0.8.0 as definitions, each line beside the Rust's line number, and says
// that on document 01's domain the port's definitions give the crate's answers; proofs/ proves it. specs/Demand2.antt is read first.
#![tactic(auto)]
