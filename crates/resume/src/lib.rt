// Resume: a room taken off a tape into a lent buffer. The grammar is the tape's; here are the ranges, the soundness and the writing.
#![tactic(auto)]

mod commons;
mod ranges;
pub mod resuming;
mod rows;
mod soundness;
mod writing;
