// What a caller keeps, as cells and hashed, and what it lends for output.
#![tactic(auto)]

pub mod cells;
pub mod hashing;
pub mod lent;
