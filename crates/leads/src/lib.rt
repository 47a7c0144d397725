// Where the references of a block lead, and texts as keys. See each module.

#![tactic(auto)]

pub mod keys;
pub mod lead;
