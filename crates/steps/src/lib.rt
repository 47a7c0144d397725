// What a block does with a value, up to the point where another block is asked: the rules that need no nested block, and for types 7 and 8
// where the search leads. See each module.

#![tactic(auto)]

pub mod choice;
pub mod mode;
pub mod plain;
pub mod step;
