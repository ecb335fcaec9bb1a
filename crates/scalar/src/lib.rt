// Numbers: the logarithm of document 01's "Arithmetic" and the small conversions that the crates above share.
#![tactic(auto)]

pub mod bits;
pub mod digits;
pub mod log;
