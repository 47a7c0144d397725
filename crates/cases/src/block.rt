// The commands that ask of the memory, of an image, which is the memory's first bytes, and of a block.
use crate::command::Failure;
use crate::memory::Memory;
use crate::say::{self, Bits, OrNone, Refused};
use blocks::Block;
use lines::decimal::Decimal;
use lines::parts::{part, word};
use lines::read::Operands;
use std::io;

// How many visits the check counts.
fn check(rt: &impl Print, image: &[u8], address: u64, limit: u64) -> io::Result<()> {
    match tree::check(image, address, (limit % 4294967296) as u32) {
        Ok(visits) => print!(rt; "accepted {visits}"),
        Err(refusal) => rt.print(Refused(refusal)),
    }
}

// Says that the bytes between two places and those between two others differ.
fn compare(rt: &impl Print, bytes: &[u8], places: [u64; 4]) -> io::Result<()> {
    let [from, to, other_from, other_to] = places.map(|place| place as usize);
    if part(bytes, from, to) == part(bytes, other_from, other_to) {
        Ok(())
    } else {
        rt.print(" not")
    }
}

// The record's fields by the numbers that the cases have for them.
fn field(block: Block, number: u64) -> u64 {
    match number {
        0 => u64::from(block.kind),
        1 => u64::from(block.precision),
        2 => u64::from(block.flags),
        3 => u64::from(block.refcount),
        4 => u64::from(block.valcount),
        5 => block.name,
        6 => block.unit,
        7 => block.comment,
        8 => block.inverse,
        9 => block.links,
        _ => block.length,
    }
}

// What is asked of the block, whose references and values are read in the image.
fn by_place(rt: &impl Print, letter: u8, image: &[u8], block: Block, i: u64) -> io::Result<()> {
    match letter {
        b'k' => rt.print(field(block, i)),
        b'r' => rt.print(OrNone(block.reference(image, i))),
        b'x' => rt.print(OrNone(block.value(image, i).map(|x| Bits(floats::to_bits(x))))),
        b'y' => rt.print(OrNone(block.value_word(image, i).map(Bits))),
        _ => say::range_and_values(rt, image, block),
    }
}

// A block is parsed in the image and told of whole.
fn parse(rt: &impl Print, image: &[u8], address: u64) -> Result<(), Failure> {
    let block = Block::parse(image, address)?;
    rt.print("whole, ")?;
    say::range_and_values(rt, image, block)?;
    Ok(())
}

// What is asked with up to four numbers.
pub fn ask(
    rt: &impl Print,
    letter: u8,
    mut operands: Operands,
    memory: &Memory,
) -> Result<(), Failure> {
    let numbers = operands.numbers::<4>();
    operands.end()?;
    let [first, second, third, _] = numbers;
    let bytes = memory.bytes.as_slice();
    let image = part(bytes, 0, second as usize);
    match letter {
        b'c' => check(rt, memory.image(), first, second)?,
        b'e' => compare(rt, bytes, numbers)?,
        b'g' => rt.print(Decimal(floats::from_bits(first)))?,
        b'h' => print!(rt; "{:x}", word(bytes, first as usize))?,
        b'l' => say::text(rt, image, first)?,
        b'n' => rt.print(field(Block::new((first & 0xff) as u8), second))?,
        b'p' => parse(rt, image, first)?,
        // The block is parsed in the whole memory and read by place in the image, which may end sooner.
        _ => by_place(rt, letter, image, Block::parse(bytes, first)?, third)?,
    }
    Ok(())
}
