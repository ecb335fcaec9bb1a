// Demand 3 over refiner and smoother: definitions (specs/), and the theorem proved over them (proofs/).
#![tactic(auto)]
