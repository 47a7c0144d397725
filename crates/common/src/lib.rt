// What every block has in common: type numbers, refusals, the header and texts. See each module.

#![tactic(auto)]

pub mod header;
pub mod refusal;
pub mod text;
pub mod types;
