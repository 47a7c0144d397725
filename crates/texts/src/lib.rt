// Text blocks, ##TX and ##MD: read and written. Carries over text_block.rs and the reading of metadata_block.rs. No conversion needs this crate.

#![tactic(auto)]

pub mod read;
pub mod write;
