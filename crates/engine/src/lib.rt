// The records of the engine that the refiner and the smoother use: ids, settings and frame bodies.
#![tactic(auto)]

pub mod body;
pub mod checked;
pub mod config;
pub mod little;
pub mod types;
