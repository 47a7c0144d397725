// Applies recorded conversions to recorded values and writes each answer on a line, so that the crate's answers, recorded beside them in the file
// stdout, can be held against ours with no Rust at hand. compare/ makes both files anew.
//
// Standard input, numbers little-endian in 8 bytes each: how many records there are; then for each the address, the kind of the value (0 unsigned,
// 1 signed, 2 float, 3 text, 4 other), its 64 bits, the visit limit, the room for a text, and the lengths of the text and of the image; then the
// text and the image. A line is the answer as a value, since the crate cannot tell a value that stays as it is from an equal answer: `unsigned`,
// `signed` and `float` with 64 bits in hexadecimal, `text` with its bytes in hexadecimal, `other`, `unknown`, or `refused` with the number; then
// N.

#![tactic(auto)]

mod record;
mod said;

use lines::input::read_full;
use lines::request::numbers;
use record::{BUFFER, Record, read};
use said::Said;
use std::io;

// The most bytes of a text that is an answer.
const ROOM: usize = 4096;

// The line of a record. The room that it asks for is the front of `out`.
fn answer(rt: &impl Print, record: Record<'_>, out: &mut [u8]) -> io::Result<()> {
    let room = record.request.room.min(out.len());
    let lent = &mut out[..room];
    let applied = record.request.ask(record.image, record.text, lent);
    let said = Said::new(applied.answer, record.request.value, record.text, lent);
    println!(rt; "{said} {}", applied.checked)
}

fn main(rt: HostRuntime) {
    let mut input = rt.reader();
    // Arrays: a record and a text have at most these sizes.
    let mut buffer = [0; BUFFER];
    let mut out = [0; ROOM];
    read_full(&mut input, &mut buffer[..8]);
    let [count] = numbers::<1>(&buffer);
    // What cannot be written of a line is left out, and the next one is tried.
    for _ in 0..count {
        if !read(&mut input, &mut buffer) {
            let _ = println!(rt; "record cut off");
            return;
        }
        let _ = answer(&rt, Record::new(&buffer), &mut out);
    }
}
