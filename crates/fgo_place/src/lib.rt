// Placing, and owning: which track an engine id belongs to.
#![tactic(auto)]

pub mod own;
pub mod place;
pub mod placing;
