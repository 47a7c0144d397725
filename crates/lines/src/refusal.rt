// A refusal, as the programs write it.
use common::refusal::Refusal;
use std::fmt;

// Its number, its name, and the address or the index of a key if it carries one.
#[derive(Clone, Copy)]
pub struct Told(pub Refusal);

impl fmt::Display for Told {
    fn fmt<W: fmt::Write>(&self, f: &mut fmt::Formatter<W>) -> fmt::Result {
        let refusal = self.0;
        write!(f, "{} {refusal}", refusal.number())?;
        if let Some(address) = refusal.address() {
            write!(f, " at {address}")?;
        }
        if let Some(index) = refusal.index() {
            write!(f, " at key {index}")?;
        }
        Ok(())
    }
}
