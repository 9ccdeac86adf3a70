// Demand 3: specs has the claim about every list of calls, proofs its proof. There is no code.
#![tactic(auto)]
