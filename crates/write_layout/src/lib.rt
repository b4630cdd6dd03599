// What it means to write a record: definitions in specs/, the round trip in proofs/. There is no code here.
#![tactic(auto)]
