// The commands that build an image, with nothing of the library's writer.
use crate::memory::{ADDRESS, Memory};
use lines::build::{Unit, copy, fill, list, put};
use lines::read::{Form, NotUnderstood, Operands};

// The values of the rules stand from here on, between bytes of 0x5a that would show if a place was wrong.
pub const FIRST: usize = 27;

// The most values, and the bytes of the image that they stand in.
pub const MOST: usize = 64;

pub const AROUND: usize = 600;

// The ids ##CC and ##TX with zero reserved bytes.
const CONVERSION: u64 = 0x43432323;

const TEXT: u64 = 0x58542323;

// Type, reference count and value count as one word. Precision and flags are zero.
fn fields(kind: u64, references: usize, values: usize) -> u64 {
    let references = (references % 65536) as u64;
    let values = (values % 65536) as u64;
    kind % 256 + 4294967296 * references + 281474976710656 * values
}

// Words one behind the other, and the place behind them.
fn put_words(bytes: &mut [u8], start: usize, words: [u64; 3]) -> usize {
    let mut at = start;
    for word in words {
        at = put(bytes, at, word, Unit::Word);
    }
    at
}

// The header, four NIL links and the fields of a conversion block: the fields stand at `middle`, and the block ends at `end`.
fn heading(bytes: &mut [u8], start: usize, middle: usize, end: usize, kind: u64) {
    let references = (middle.wrapping_sub(start) / 8).wrapping_sub(7);
    let values = (end.wrapping_sub(middle) / 8).wrapping_sub(1);
    let length = end.wrapping_sub(start) as u64;
    let links = references.wrapping_add(4) as u64;
    let fixed = put_words(bytes, start, [CONVERSION, length, links]);
    fill(bytes, fixed, fixed.wrapping_add(32), 0);
    put(bytes, middle, fields(kind, references, values), Unit::Word);
}

// A conversion block: its place and type, the references, and behind a semicolon the values.
fn conversion(mut operands: Operands, bytes: &mut [u8]) -> Result<(), NotUnderstood> {
    let start = operands.number(Form::Unsigned).unwrap_or(0) as usize;
    let kind = operands.number(Form::Unsigned).unwrap_or(0);
    let references = start.wrapping_add(56);
    let middle = list(&mut operands, Form::Unsigned, Unit::Word, bytes, references);
    // Before the semicolon stands a space.
    let behind = operands.rest.get(2..);
    let mut values = Operands {
        rest: behind.unwrap_or(&[]),
    };
    let first = middle.wrapping_add(8);
    let end = list(&mut values, Form::Float, Unit::Word, bytes, first);
    heading(bytes, start, middle, end, kind);
    behind.ok_or(NotUnderstood)?;
    values.end()
}

// A text block with one zero byte behind its text.
fn text_block(mut operands: Operands, bytes: &mut [u8]) -> Result<(), NotUnderstood> {
    let start = operands.number(Form::Unsigned).unwrap_or(0) as usize;
    let text = operands.text();
    let (Ok(bytes_of_text) | Err(bytes_of_text)) = text;
    let size = bytes_of_text.len().wrapping_add(25);
    let from = put_words(bytes, start, [TEXT, size as u64, 0]);
    copy(bytes, from, start.wrapping_add(size), bytes_of_text);
    text.map(|_| ()).map_err(|_| NotUnderstood)
}

// A new image of zeros.
fn image(mut operands: Operands, memory: &mut Memory) -> Result<(), NotUnderstood> {
    let size = operands.number(Form::Unsigned).unwrap_or(0);
    fill(&mut memory.bytes, 0, size as usize, 0);
    memory.set_size(size);
    operands.end()
}

// A new list of values for the rules. One that is not understood has no values, and one that is too long has as many as its length leaves by 65.
fn values(mut operands: Operands, memory: &mut Memory) -> Result<(), NotUnderstood> {
    fill(&mut memory.bytes, 0, AROUND, 0x5a);
    let end = list(
        &mut operands,
        Form::Unsigned,
        Unit::Word,
        &mut memory.bytes,
        FIRST,
    );
    let count = operands.end().map(|()| end.wrapping_sub(FIRST) / 8);
    memory.set_count(count.unwrap_or(0) % (MOST + 1));
    if count? <= MOST {
        Ok(())
    } else {
        Err(NotUnderstood)
    }
}

// Numbers from a place on.
fn listed(
    mut operands: Operands,
    unit: Unit,
    bytes: &mut [u8],
    at: usize,
) -> Result<(), NotUnderstood> {
    list(&mut operands, Form::Unsigned, unit, bytes, at);
    operands.end()
}

// The same from the place that the command names.
fn placed(mut operands: Operands, unit: Unit, bytes: &mut [u8]) -> Result<(), NotUnderstood> {
    let at = operands.number(Form::Unsigned).unwrap_or(0) as usize;
    listed(operands, unit, bytes, at)
}

pub fn build(letter: u8, operands: Operands, memory: &mut Memory) -> Result<(), NotUnderstood> {
    match letter {
        b'i' => image(operands, memory),
        b'v' => values(operands, memory),
        b'C' => conversion(operands, &mut memory.bytes),
        b'T' => text_block(operands, &mut memory.bytes),
        b'a' => listed(operands, Unit::Word, &mut memory.bytes, ADDRESS),
        b'b' => placed(operands, Unit::Byte, &mut memory.bytes),
        _ => placed(operands, Unit::Word, &mut memory.bytes),
    }
}
