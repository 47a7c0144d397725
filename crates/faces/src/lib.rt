// How C sees what the public entries take and answer: structs with C's layouts, and the conversions that fill them. Each fills every field. See each
// module.

#![tactic(auto)]

pub mod applied;
pub mod block;
pub mod checked;
pub mod inverted;
pub mod place;
pub mod text;
pub mod written;
