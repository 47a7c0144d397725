// Numbers and bytes put into memory. What does not fit is left out.
ghost use Rattle.std.specs.Prelude.{◌≡◌, ◌+◌, ◌≤◌, length};

use crate::parts::room;
use crate::read::{Form, Operands};

// What a number takes of the memory.
#[derive(Clone, Copy, Debug, PartialEq, Eq)]
pub enum Unit {
    // Its lowest byte.
    Byte,
    // 8 bytes, the lowest first.
    Word,
}

// Puts a number where it fits, and tells the place behind it.
pub fn put(mem: &mut [u8], at: usize, number: u64, unit: Unit) -> usize
    ensures behind { (at ≤ result) × (result ≤ at + 8) }
    ensures length { length mem.new ≡ length mem.old }
{
    if mem.len() <= at {
        return at;
    }
    match unit {
        Unit::Byte => {
            mem[at] = (number & 0xff) as u8;
            at + 1
        }
        Unit::Word if 8 <= mem.len() - at => {
            words::put_u64(mem, at, number);
            at + 8
        }
        Unit::Word => at,
    }
}

// Puts the numbers that stand next in the command, and tells the place behind the last.
pub fn list(operands: &mut Operands, form: Form, unit: Unit, mem: &mut [u8], start: usize) -> usize
    ensures behind { start ≤ result }
    ensures length { length mem.new ≡ length mem.old }
{
    let mut at = start;
    while let Some(number) = operands.number(form) {
        at = put(mem, at, number, unit);
    }
    at
}

// Puts the byte at each place from `from` up to `to`.
pub fn fill(mem: &mut [u8], from: usize, to: usize, byte: u8) {
    room(mem, from, to).fill(byte);
}

// Puts the bytes from `from` on, and zeros behind them up to `to`.
pub fn copy(mem: &mut [u8], from: usize, to: usize, bytes: &[u8]) {
    let places = room(mem, from, to);
    places.fill(0);
    for (place, byte) in places.iter_mut().zip(bytes) {
        *place = *byte;
    }
}
