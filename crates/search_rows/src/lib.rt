// The detections of the held windows, gathered: the rows of the tracks, and what a move does to the ids.
#![tactic(auto)]

pub mod moves;
pub mod rows;
pub mod starts;
