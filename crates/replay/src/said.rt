// An answer as a value, and its line.
use common::refusal::Refusal;
use conversion::logic::Answer;
use lines::parts::part;
use rules::number::Value;
use std::fmt;

// Numbers by their 64 bits.
#[derive(Clone, Copy)]
pub enum Said<'a> {
    Unsigned(u64),
    Signed(i64),
    Float(f64),
    Text(&'a [u8]),
    Other,
    Unknown,
    Refused(Refusal),
}

impl<'a> Said<'a> {
    // `out` has the text of an answer that is one, and `text` that of a value that stays as it is.
    pub fn new(answer: Answer, value: Value, text: &'a [u8], out: &'a [u8]) -> Self {
        match answer {
            Answer::Number(x) => Said::Float(x),
            Answer::Text(length) => Said::Text(part(out, 0, length)),
            Answer::Unchanged => Said::unchanged(value, text),
            Answer::Unknown => Said::Unknown,
            Answer::Refused(refusal) => Said::Refused(refusal),
        }
    }

    fn unchanged(value: Value, text: &'a [u8]) -> Self {
        match value {
            Value::Unsigned(n) => Said::Unsigned(n),
            Value::Signed(n) => Said::Signed(n),
            Value::Float(x) => Said::Float(x),
            Value::Text => Said::Text(text),
            Value::Other => Said::Other,
        }
    }
}

impl fmt::Display for Said<'_> {
    fn fmt<W: fmt::Write>(&self, f: &mut fmt::Formatter<W>) -> fmt::Result {
        match *self {
            Said::Unsigned(n) => write!(f, "unsigned {n:016x}"),
            Said::Signed(n) => write!(f, "signed {n:016x}"),
            Said::Float(x) => write!(f, "float {:016x}", floats::to_bits(x)),
            Said::Text(bytes) => {
                write!(f, "text ")?;
                for byte in bytes {
                    write!(f, "{byte:02x}")?;
                }
                Ok(())
            }
            Said::Other => write!(f, "other"),
            Said::Unknown => write!(f, "unknown"),
            Said::Refused(refusal) => write!(f, "refused {}", refusal.number()),
        }
    }
}
