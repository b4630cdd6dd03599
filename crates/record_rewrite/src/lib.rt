// What rewriting the references of a record keeps: definitions in specs/, laws in proofs/. There is no code here.
#![tactic(auto)]
