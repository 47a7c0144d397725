// The commands that write a block into the memory.
use crate::command::Failure;
use crate::mark::Mark;
use crate::memory::Memory;
use blocks::Block;
use common::refusal::Refusal;
use lines::parts::{part, room, word};
use lines::read::Operands;

// The record of the writing cases, made by its own functions.
fn made() -> Block {
    Block::new(1)
        .with_links(101, 102, 103, 104)
        .with_details(3, 2, 9)
        .with_range(-1.0, 1.0)
}

// The record of the block at 8. M has 5 as the word beside its minimum, put there by hand. O has the record of the writing cases instead.
fn record(letter: u8, bytes: &[u8]) -> Block {
    if letter == b'O' {
        return made();
    }
    let mut block = Block::parse(bytes, 8).unwrap_or(Block::new(0));
    if letter == b'M' {
        if let Some(range) = &mut block.range {
            range.minword = 5;
        }
    }
    block
}

// The most values that a command writes, one too many for a block: the first is the word at 176, and all others the word at 184. They stand in an
// array: memory that is taken and given back for each command took most of the time.
const MOST: usize = 65536;

// The values as floats.
fn write_floats(
    block: Block,
    references: &[u64],
    first: u64,
    others: u64,
    count: usize,
    out: &mut [u8],
) -> Result<usize, Refusal> {
    let mut values = [floats::from_bits(others); MOST];
    values[0] = floats::from_bits(first);
    writer::write(block, references, part(&values, 0, count), out)
}

// The same with the values as words.
fn write_words(
    block: Block,
    references: &[u64],
    first: u64,
    others: u64,
    count: usize,
    out: &mut [u8],
) -> Result<usize, Refusal> {
    let mut values = [others; MOST];
    values[0] = first;
    writer::write_words(block, references, part(&values, 0, count), out)
}

// Writes to the room between two places, with as many of the references and of the values as the command says, by W as words and else as floats. Says
// how it went where that is asked, which braces do.
pub fn write(
    rt: &impl Print,
    mark: Mark,
    letter: u8,
    mut operands: Operands,
    memory: &mut Memory,
) -> Result<(), Failure> {
    let [from, to, reference_count, value_count] = operands.numbers::<4>();
    let bytes = &mut memory.bytes;
    let block = record(letter, bytes);
    let references = [word(bytes, 160), word(bytes, 168)];
    let references = part(&references, 0, reference_count as usize);
    let (first, others, count) = (word(bytes, 176), word(bytes, 184), value_count as usize);
    let out = room(bytes, from as usize, to as usize);
    let written = if letter == b'W' {
        write_words(block, references, first, others, count, out)
    } else {
        write_floats(block, references, first, others, count, out)
    };
    operands.end()?;
    if mark == Mark::Braces {
        print!(rt; "wrote {}", written?)?;
    }
    Ok(())
}
