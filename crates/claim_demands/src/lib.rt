// No code: specs/ has all that is promised as one record, Demands, and in Tied that every public function meets its contract; proofs/ proves them.
#![tactic(auto)]
