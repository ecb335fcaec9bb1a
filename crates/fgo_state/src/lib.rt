// The lent memory of a refiner: what lies where in it, and the detections of the held scans gathered from it.
#![tactic(auto)]

pub mod gather;
pub mod held;
pub mod owners;
pub mod scan;
pub mod scans;
pub mod state;
