// Banks of difference rules.
#![tactic(auto)]

pub mod bank;
pub mod difference;
mod partner;
pub mod refusal;
mod support;
