// Refined frames in words and numbers: what their counts ask for, and when one is well formed.
#![tactic(auto)]

pub mod counts;
pub mod frame;
pub mod head;
