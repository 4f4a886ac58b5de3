// Settling: the largest supported sheet, or a rule that cannot be met.
#![tactic(auto)]

pub mod outcome;
pub mod propagate;
pub mod refusal;
