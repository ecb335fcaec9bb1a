// The search: passes over the pairs of tracks that come close, and over the tracks.
#![tactic(auto)]

mod extents;
mod listed;
mod marks;
mod pairs;
pub mod pass;
pub mod scene;
mod tables;
mod tracks;
