// The bytes that tell the steps of a book's codes, or why its text is refused.

#![tactic(auto)]

mod lines;
mod rows;
mod steps;

pub use lines::Lines;
pub use steps::listing;
