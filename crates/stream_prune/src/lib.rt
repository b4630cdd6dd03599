// The records of a stream that are reached from some roots, and the stream that is made of them: definitions in specs/, laws in proofs/. There is no code here.
#![tactic(auto)]
