// Values converted: applied, and shown by the entry for type 10.
use crate::memory::Memory;
use crate::say::{self, BEFORE};
use lines::parts::room;
use lines::request::Request;
use rules::number::Value;
use std::io;

pub fn apply(rt: &impl Print, memory: &Memory, value: Value, text: &[u8]) -> io::Result<()> {
    let request = Request {
        address: memory.address(),
        value,
        limit: memory.limit(),
        room: memory.room(),
        width: memory.width(),
        edition: memory.edition(),
    };
    let mut output = [BEFORE; 4096];
    let lent = room(&mut output, 0, request.room);
    let applied = request.ask(memory.image(), text, lent);
    say::applied(rt, applied, lent)
}

pub fn translate(rt: &impl Print, memory: &Memory, question: &[u8]) -> io::Result<()> {
    let shown = conversion::shown::translate(
        memory.image(),
        memory.address(),
        memory.limit(),
        question,
    );
    say::shown(rt, shown, question)
}
