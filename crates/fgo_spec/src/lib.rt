// The refiner as definitions (specs/), and demand 3 proved over them (proofs/). The code has the types that those
// definitions share with the crates above.
#![tactic(auto)]

pub mod moves;
