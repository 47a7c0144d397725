// What is written of an answer.
use blocks::Block;
use common::refusal::Refusal;
use lines::refusal::Told;
use std::fmt;

// A record's padding and block length, and whether it has a range; or why there is none.
#[derive(Clone, Copy)]
pub struct Parsed(pub Result<Block, Refusal>);

impl fmt::Display for Parsed {
    fn fmt<W: fmt::Write>(&self, f: &mut fmt::Formatter<W>) -> fmt::Result {
        match self.0 {
            Ok(block) => {
                let Block {
                    reserved,
                    excess,
                    length,
                    ..
                } = block;
                let ranged = if block.range.is_some() { " ranged" } else { "" };
                write!(
                    f,
                    " reserved {reserved} excess {excess} length {length}{ranged}"
                )
            }
            Err(refusal) => write!(f, " refused {}", Told(refusal)),
        }
    }
}
