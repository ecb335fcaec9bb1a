// What the programs print of a frame, of the counters and of a refusal: document 01, "Recording and print". Each
// function puts its text into a lent buffer, from place n on, as far as there is room, and gives back the place where
// it ends, which is past the buffer where there was no room for all of it.
// As it is, `out` and `n` go into each function: a struct that holds a lent buffer, as tried, tells nothing of what is
// written through it, and no proof of these promises closes.
#![tactic(auto)]

pub mod answer_ref;
pub mod answers;
pub mod fields;
pub mod full;
pub mod lines;
pub mod short;
