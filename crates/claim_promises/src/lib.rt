// No code: specs/ has the statements that a reader of this project starts with, over the definitions that the contracts cite;
// proofs/ proves them.
#![tactic(auto)]
