// Cases of the library: one block, the check, the number rules, and values converted.
//
// The cases stand in the file stdin, which says how they are written, and the file stdout has what the library must answer, worked out from
// document 01 by hand or by a calculator that shares nothing with it. So a case is data, and the program that obeys them stays small.

#![tactic(auto)]

mod apply;
mod block;
mod build;
mod command;
mod mark;
mod memory;
mod rule;
mod say;
mod value;
mod write;

use lines::input::read_full;
use mark::{Marked, next};
use memory::Memory;
use std::io::{self, Write};

// The most bytes that are read.
const MOST: usize = 131072;

// Writes what stands between the commands, and obeys these. Output that is not taken is left out, and what comes next is tried.
fn all(rt: &impl Print, cases: &[u8], memory: &mut Memory) {
    let mut rest = cases;
    while let Some(marked) = next(rest) {
        let Marked {
            before,
            mark,
            command,
            behind,
        } = marked;
        let _ = io::writer(rt).write_all(before);
        let _ = command::obey(rt, mark, command, memory);
        rest = behind;
    }
    let _ = io::writer(rt).write_all(rest);
}

fn main(rt: HostRuntime) {
    // Arrays, here and below: each has one size, and no memory is asked for.
    let mut cases = [0; MOST];
    let count = read_full(&mut rt.reader(), &mut cases);
    let mut memory = Memory::new();
    all(&rt, &cases[..count], &mut memory);
}
