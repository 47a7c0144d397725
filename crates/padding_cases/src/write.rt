// A block is written: whether it has a range, how many references and values, its excess, its reserved bytes, and the room.
use crate::said::Parsed;
use blocks::Block;
use common::refusal::Refusal;
use lines::build::fill;
use lines::parts::{part, room};
use lines::refusal::Told;
use std::io;

// Each byte of the output before the call.
const BEFORE: u8 = 170;

#[derive(Clone, Copy)]
pub struct Case {
    block: Block,
    references: usize,
    values: usize,
    room: usize,
}

impl Case {
    pub fn new([ranged, references, values, excess, reserved, room]: [u64; 6]) -> Self {
        let block = Block::new(1).with_padding((reserved % 0x100000000) as u32, excess);
        Self {
            block: if ranged == 0 {
                block
            } else {
                block.with_range(-1.0, 1.0)
            },
            references: references as usize,
            values: values as usize,
            room: room as usize,
        }
    }

    // References of the word 7, and values that are a NaN's pattern of ones.
    fn written(self, out: &mut [u8]) -> Result<usize, Refusal> {
        let references = [7; 4];
        let values = [u64::MAX; 65536];
        let references = part(&references, 0, self.references);
        writer::write_words(self.block, references, part(&values, 0, self.values), out)
    }
}

// By hand: by `all` it took three times the work.
fn are_all(bytes: &[u8], byte: u8) -> bool {
    for b in bytes {
        if *b != byte {
            return false;
        }
    }
    true
}

// What stands in the output then: the block parsed with its padding, zeros as its excess, and behind it what was there.
fn told(rt: &impl Print, out: &[u8], length: usize, excess: usize) -> io::Result<()> {
    let parsed = Parsed(padding::parse(out, 0, true));
    print!(rt; " wrote {length}{parsed}")?;
    if !are_all(part(out, length.wrapping_sub(excess), length), 0) {
        print!(rt; " not zeros")?;
    }
    touched(rt, part(out, length, out.len()))
}

// Said where not all bytes are as they were.
fn touched(rt: &impl Print, out: &[u8]) -> io::Result<()> {
    if !are_all(out, BEFORE) {
        print!(rt; " output touched")?;
    }
    Ok(())
}

pub fn write(rt: &impl Print, case: Case, mem: &mut [u8]) -> io::Result<()> {
    let out = room(mem, 0, case.room);
    out.fill(BEFORE);
    match case.written(out) {
        Ok(length) => told(rt, out, length, case.block.excess as usize),
        Err(refusal) => {
            print!(rt; " refused {}", Told(refusal))?;
            touched(rt, out)
        }
    }
}
