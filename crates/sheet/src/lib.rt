// The sheet: strike, hold, mark, back, keep and settle, with marks that must be spent.
#![tactic(auto)]

pub mod making;
pub mod mark;
pub mod marking;
pub mod reading;
pub mod refusal;
pub mod settle;
pub mod sheet;
pub mod striking;
