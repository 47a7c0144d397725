// Cases of the padding: blocks written with reserved bytes and an excess, and blocks parsed with them.
//
// The cases stand in the file stdin, which says how they are written, and the file stdout has what the library must answer, worked out from request [6] by
// a calculator that shares nothing with it. A line is written as it is, and behind it its answer.

#![tactic(auto)]

mod parse;
mod said;
mod write;

use lines::input::read_full;
use lines::read::Operands;
use std::io;

// The most bytes of the input that are read.
const INPUT: usize = 16384;

// Room for a block of 65,535 values and some bytes behind it.
const MEMORY: usize = 524416;

// A command is a letter and six numbers, 0 where there are fewer. One that is not understood is said to be so.
fn obey(rt: &impl Print, command: &[u8], mem: &mut [u8]) -> io::Result<()> {
    let rest = command.get(1..).unwrap_or(&[]);
    let mut operands = Operands { rest };
    let numbers = operands.numbers::<6>();
    match (command, operands.rest) {
        ([b'p', ..], []) => parse::parse(rt, parse::Image::new(numbers), mem),
        ([b'w', ..], []) => write::write(rt, write::Case::new(numbers), mem),
        _ => print!(rt; " not understood"),
    }
}

// A remark begins with !, and is not written.
fn answer(rt: &impl Print, line: &[u8], mem: &mut [u8]) -> io::Result<()> {
    if let [b'!', ..] = line {
        return Ok(());
    }
    rt.write_all(line)?;
    obey(rt, line, mem)?;
    println!(rt)
}

fn main(rt: HostRuntime) {
    // Arrays here and below: each has one size, and nothing grows.
    let mut input = [0; INPUT];
    let count = read_full(&mut rt.reader(), &mut input);
    let mut mem = [0; MEMORY];
    for line in input[..count].split_inclusive(|byte| *byte == b'\n') {
        // What cannot be written of a line is left out, and the next one is tried.
        let _ = answer(&rt, line.strip_suffix(b"\n").unwrap_or(line), &mut mem);
    }
}
