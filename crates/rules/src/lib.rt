// The rules that turn a number into a number or an index, over values that are read from the image by place. See each module.
//
// These are inner functions: each takes `Values`, which lie in the image, which an accepted block shows.

#![tactic(auto)]

pub mod linear;
pub mod number;
pub mod search;
pub mod stored;
pub mod table_lookup;
