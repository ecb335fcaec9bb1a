// Runs of the refiner as fgo_spec defines it, which the checker computes (proofs/).
#![tactic(auto)]
