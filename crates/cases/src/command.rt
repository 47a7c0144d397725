// The commands of the table by their letters.
use crate::mark::Mark;
use crate::memory::Memory;
use crate::{block, build, say, value, write};
use common::refusal::Refusal;
use lines::read::{NotUnderstood, Operands};
use lines::refusal::Told;
use std::io;

// Why a command is not answered.
#[derive(Debug, Drop)]
pub enum Failure {
    NotUnderstood,
    Refused(Refusal),
    // Output failed.
    System(io::Error),
}

impl From<NotUnderstood> for Failure {
    fn from(_failure: NotUnderstood) -> Self {
        Failure::NotUnderstood
    }
}

impl From<Refusal> for Failure {
    fn from(refusal: Refusal) -> Self {
        Failure::Refused(refusal)
    }
}

impl From<io::Error> for Failure {
    fn from(error: io::Error) -> Self {
        Failure::System(error)
    }
}

// Commands go by their letters to the end: the table is written in them, and an enum would name each twice.
// What begins with a byte below the digits or behind the letters is no command: a remark begins with a space.
fn obeyed(
    rt: &impl Print,
    mark: Mark,
    letter: u8,
    operands: Operands,
    memory: &mut Memory,
) -> Result<(), Failure> {
    match letter {
        b'a' | b'b' | b'i' | b'v' | b'w' | b'C' | b'T' => build::build(letter, operands, memory)?,
        b'F' | b'M' | b'O' | b'W' => write::write(rt, mark, letter, operands, memory)?,
        b'd' | b'f' | b'o' | b'q' | b's' | b't' | b'u' => {
            value::convert(rt, letter, operands, memory)?
        }
        b'0' | b'1' | b'2' | b'4'..=b'8' => value::by_rule(rt, letter, operands, memory)?,
        b'c' | b'e' | b'g' | b'h' | b'j'..=b'l' | b'n' | b'p' | b'r' | b'x' | b'y' => {
            block::ask(rt, letter, operands, memory)?
        }
        b'0'..=b'z' => return Err(Failure::NotUnderstood),
        _ => {}
    }
    Ok(())
}

// Obeys a command, which stands behind its mark.
pub fn obey(rt: &impl Print, mark: Mark, command: &[u8], memory: &mut Memory) -> io::Result<()> {
    let [letter, rest @ ..] = command else {
        return Ok(());
    };
    match obeyed(rt, mark, *letter, Operands { rest }, memory) {
        Ok(()) => Ok(()),
        Err(Failure::NotUnderstood) => say::not_understood(rt, command),
        Err(Failure::Refused(refusal)) => print!(rt; "refused {}", Told(refusal)),
        Err(Failure::System(error)) => Err(error),
    }
}
