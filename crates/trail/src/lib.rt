// The rows of a sheet with the record of what was struck from them, and the stack that the record is.
#![tactic(auto)]

pub mod making;
pub mod narrowing;
pub mod reading;
pub mod refusal;
pub mod stack;
pub mod trail;
pub mod undoing;
