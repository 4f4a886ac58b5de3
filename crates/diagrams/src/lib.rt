// Banks of layered decision diagrams.
#![tactic(auto)]

pub mod bank;
pub mod diagram;
mod node_set;
pub mod refusal;
mod rule;
mod support;
mod sweep;
