// Rule banks: what rules mean, the trait of every bank, and what is asked of a bank of any kind.
#![tactic(auto)]

pub mod bank;
pub mod checking;
pub mod limits;
pub mod pair;
pub mod picking;
pub mod questions;
pub mod refusal;
