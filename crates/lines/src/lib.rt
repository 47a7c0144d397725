// What the programs read and write alike: input, parts of slices, the numbers and texts of commands, memory built from them, values and what a call is
// asked, refusals, and floats in decimal.

#![tactic(auto)]

pub mod build;
pub mod decimal;
pub mod input;
pub mod parts;
pub mod read;
pub mod refusal;
pub mod request;
pub mod value;
