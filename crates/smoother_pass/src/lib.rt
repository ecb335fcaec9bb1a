// What a fixed-lag smoother gives: the backward pass over the frames that it holds, and the oldest one written out.
#![tactic(auto)]

pub mod emit;
mod pass;
