// Demand 3: no code that runs. The book and the claim are in specs/, the proof is in proofs/.
#![tactic(auto)]
