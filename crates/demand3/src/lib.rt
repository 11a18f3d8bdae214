// Demand 3, as theorems over the definitions that the calls of `slot` and `job` meet. What it claims is in specs/, why it holds in proofs/.
#![tactic(auto)]
