// The static library that C and Rust link: each function has the name that C calls; `mdf_invert` stands in `invert_c`. Each has a name of its own,
// since C has no generics. See each module.

#![tactic(auto)]

pub mod applied;
pub mod block;
pub mod checked;
pub mod moded;
pub mod place;
pub mod text;
pub mod written;
