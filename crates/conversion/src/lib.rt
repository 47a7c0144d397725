// The public entries of applying: one call checks a conversion tree and applies it to a value; another shows what a text to text conversion
// makes of a text. See each module.

#![tactic(auto)]

pub mod logic;
pub mod shown;
