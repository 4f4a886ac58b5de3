// Choices, the masks that hold sets of them, and rows, which are never empty.
#![tactic(auto)]

pub mod mask;
pub mod refusal;
pub mod row;
pub mod walk;
