// The plain filter: predict and update, by value and in a filter that is lent.
#![tactic(auto)]

pub mod filter;
