// What a line says of a value, of the mode and the limits of a call, and of its counts.
use conversion::logic::Applied;
use lines::decimal::Decimal;
use lines::request::Request;
use rules::number::Value;
use std::{fmt, io};

// A line names the visit limit and the room where they are not these, the usual ones; the room is the most.
const LIMIT: u32 = 4096;

pub const ROOM: usize = 4096;

pub fn quoted(rt: &impl Print, text: &[u8]) -> io::Result<()> {
    print!(rt; "\"")?;
    rt.write_all(text)?;
    print!(rt; "\"")
}

pub fn value(rt: &impl Print, value: Value, text: &[u8]) -> io::Result<()> {
    match value {
        Value::Unsigned(n) => print!(rt; "unsigned {n}"),
        Value::Signed(n) => print!(rt; "signed {n}"),
        Value::Float(x) => print!(rt; "float {}", Decimal(x)),
        Value::Text => {
            print!(rt; "text ")?;
            quoted(rt, text)
        }
        Value::Other => print!(rt; "a value of kind other"),
    }
}

// The width of the signal and the edition, where the request has one, the visit limit and the room.
#[derive(Clone, Copy)]
pub struct Limits(pub Request);

impl fmt::Display for Limits {
    fn fmt<W: fmt::Write>(&self, f: &mut fmt::Formatter<W>) -> fmt::Result {
        let request = self.0;
        if let Some(width) = request.width {
            write!(f, " (width {width})")?;
        }
        if let Some(edition) = request.edition {
            // 410 is edition 4.10.
            write!(f, " (edition {}.{:02})", edition / 100, edition % 100)?;
        }
        if request.limit != LIMIT {
            write!(f, " (limit {})", request.limit)?;
        }
        if request.room != ROOM {
            write!(f, " (room {})", request.room)?;
        }
        Ok(())
    }
}

// How many blocks were checked and applied, and whether a malformed table of ranges was consulted.
#[derive(Clone, Copy)]
pub struct Counts(pub Applied);

impl fmt::Display for Counts {
    fn fmt<W: fmt::Write>(&self, f: &mut fmt::Formatter<W>) -> fmt::Result {
        let Applied {
            checked,
            applied,
            malformed,
            ..
        } = self.0;
        let odd = if malformed { ", odd range table" } else { "" };
        write!(f, "  (checked {checked}, applied {applied}{odd})")
    }
}
