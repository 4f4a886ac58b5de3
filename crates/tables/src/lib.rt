// Banks of table rules.
#![tactic(auto)]

pub mod bank;
mod line;
pub mod refusal;
mod support;
pub mod table;
