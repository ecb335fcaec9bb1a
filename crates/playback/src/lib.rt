// Plays a recording through the refiner, and where it is asked for through the smoother, and prints what comes out.
#![tactic(auto)]

mod output;
pub mod play;
pub mod sink;
pub mod smoothed;
mod steps;
