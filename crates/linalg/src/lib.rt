// Linear algebra on vectors of six numbers and matrices of six rows and columns: the steps that document 01 names.
// As it is: a matrix is 36 numbers by rows, and no rows of six. The definitions and the published form of a frame's
// covariance have them so; with [[f64; 6]; 6] each clause would flatten what it says, and smoother_pass convert at
// reading and writing.
#![tactic(auto)]

pub mod matrix;
pub mod rows;
