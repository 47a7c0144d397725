// The line of a request: the conversion's name, the value, its answer, the two counts, and whether a malformed table of ranges was consulted.
use crate::asked::Asked;
use crate::back;
use crate::said::{Counts, Limits, ROOM, quoted, value};
use blocks::Block;
use common::text::text_of;
use conversion::logic::{Answer, Applied};
use lines::decimal::Decimal;
use lines::parts::part;
use lines::refusal::Told;
use lines::request::Request;
use rules::number::Value;
use std::io;

// The links to a conversion's name and unit. Their texts are looked for where they are written, and not before: a text may be long, and an answer that
// is no number has no unit.
#[derive(Clone, Copy)]
struct Labels<'a> {
    image: &'a [u8],
    name: u64,
    unit: u64,
}

impl<'a> Labels<'a> {
    // NIL where no whole conversion stands.
    fn new(image: &'a [u8], address: u64) -> Self {
        let (name, unit) = match Block::parse(image, address) {
            Ok(block) => (block.name, block.unit),
            Err(_) => (0, 0),
        };
        Self { image, name, unit }
    }
}

fn text_at(image: &[u8], link: u64) -> Option<&[u8]> {
    let span = text_of(image, link)?;
    image.get(span.from..span.to)
}

// A conversion without a name has its address.
fn title(rt: &impl Print, labels: Labels<'_>, address: u64) -> io::Result<()> {
    match text_at(labels.image, labels.name) {
        Some(name) => rt.write_all(name)?,
        None => print!(rt; "Address {address}")?,
    }
    print!(rt; ": ")
}

// The unit behind some words, where there is one.
fn in_unit(rt: &impl Print, words: &str, labels: Labels<'_>) -> io::Result<()> {
    let Some(unit) = text_at(labels.image, labels.unit) else {
        return Ok(());
    };
    print!(rt; "{words}")?;
    rt.write_all(unit)
}

// A value that stays as it is has the unit if it is a number.
fn unchanged(rt: &impl Print, labels: Labels<'_>, value: Value) -> io::Result<()> {
    print!(rt; " stays as it is")?;
    match value {
        Value::Text | Value::Other => Ok(()),
        _ => in_unit(rt, ", in ", labels),
    }
}

// `out` has the text of an answer that is one.
fn answer(
    rt: &impl Print,
    labels: Labels<'_>,
    value: Value,
    applied: Applied,
    out: &[u8],
) -> io::Result<()> {
    match applied.answer {
        Answer::Number(x) => {
            print!(rt; " gives {}", Decimal(x))?;
            in_unit(rt, " ", labels)?;
        }
        Answer::Text(length) => {
            print!(rt; " gives ")?;
            quoted(rt, part(out, 0, length))?;
        }
        Answer::Unchanged => unchanged(rt, labels, value)?,
        Answer::Unknown => print!(rt; " is not known")?,
        Answer::Refused(refusal) => print!(rt; " is refused, {}", Told(refusal))?,
    }
    println!(rt; "{}", Counts(applied))
}

// The value is converted with the room that the request asks for, and the line is written.
fn convert(rt: &impl Print, image: &[u8], request: Request, text: &[u8]) -> io::Result<()> {
    let labels = Labels::new(image, request.address);
    title(rt, labels, request.address)?;
    value(rt, request.value, text)?;
    print!(rt; "{}", Limits(request))?;
    let mut out = [0; ROOM];
    let lent = &mut out[..request.room.min(ROOM)];
    let applied = request.ask(image, text, lent);
    answer(rt, labels, request.value, applied, lent)
}

// The text is turned back by the inverse of the conversion, and the line is written.
fn turn_back(
    rt: &impl Print,
    image: &[u8],
    address: u64,
    limit: u32,
    text: &[u8],
) -> io::Result<()> {
    let labels = Labels::new(image, address);
    title(rt, labels, address)?;
    value(rt, Value::Text, text)?;
    print!(rt; " back")?;
    let applied = back::ask(image, address, limit, text);
    answer(rt, labels, Value::Text, applied, text)
}

pub fn write(rt: &impl Print, image: &[u8], asked: Asked<'_>) -> io::Result<()> {
    match asked {
        Asked::Value(request, text) => convert(rt, image, request, text),
        Asked::Back {
            address,
            limit,
            text,
        } => turn_back(rt, image, address, limit, text),
    }
}
