// Waiting lists: what every list means, and the two that there are.
#![tactic(auto)]

pub mod classed;
pub mod list;
mod numbers;
pub mod oldest;
pub mod refusal;
mod ring;
