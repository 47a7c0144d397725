// What is written of an answer.
use blocks::Block;
use common::refusal::Refusal;
use common::text::{Span, text_of};
use conversion::logic::{Answer, Applied};
use lines::parts::part;
use rules::search::Searched;
use std::fmt;
use std::io::{self, Write};

// Each byte of the lent output before a call.
pub const BEFORE: u8 = 170;

// A value, or that there is none.
#[derive(Clone, Copy)]
pub struct OrNone<T>(pub Option<T>);

impl<T: fmt::Display> fmt::Display for OrNone<T> {
    fn fmt<W: fmt::Write>(&self, f: &mut fmt::Formatter<W>) -> fmt::Result {
        match &self.0 {
            Some(value) => write!(f, "{value}"),
            None => write!(f, "none"),
        }
    }
}

// A value by its bits.
#[derive(Clone, Copy)]
pub struct Bits(pub u64);

impl fmt::Display for Bits {
    fn fmt<W: fmt::Write>(&self, f: &mut fmt::Formatter<W>) -> fmt::Result {
        write!(f, "0x{:x}", self.0)
    }
}

// A float by all of its bits.
#[derive(Clone, Copy)]
pub struct Float(pub f64);

impl fmt::Display for Float {
    fn fmt<W: fmt::Write>(&self, f: &mut fmt::Formatter<W>) -> fmt::Result {
        if self.0.is_nan() {
            write!(f, "NaN")
        } else {
            write!(f, "0x{:016x}", floats::to_bits(self.0))
        }
    }
}

// Whether the search found its table malformed, whether it matched, and the index whose reference decides.
#[derive(Clone, Copy)]
pub struct Index(pub Searched);

impl fmt::Display for Index {
    fn fmt<W: fmt::Write>(&self, f: &mut fmt::Formatter<W>) -> fmt::Result {
        let malformed = if self.0.is_malformed() {
            "malformed, "
        } else {
            ""
        };
        let matched = if self.0.is_match() {
            "matched"
        } else {
            "unmatched"
        };
        write!(f, "{malformed}{matched} {}", self.0.index())
    }
}

// A refusal by its number, and its address if it carries one.
#[derive(Clone, Copy)]
pub struct Refused(pub Refusal);

impl fmt::Display for Refused {
    fn fmt<W: fmt::Write>(&self, f: &mut fmt::Formatter<W>) -> fmt::Result {
        write!(f, "refused {}", self.0.number())?;
        match self.0.address() {
            Some(address) => write!(f, " at {address}"),
            None => Ok(()),
        }
    }
}

// A command that is not understood, without its mark.
pub fn not_understood(rt: &impl Print, command: &[u8]) -> io::Result<()> {
    rt.print("not understood: ")?;
    io::writer(rt).write_all(command)
}

// The range and the first two values.
pub fn range_and_values(rt: &impl Print, image: &[u8], block: Block) -> io::Result<()> {
    match block.range {
        Some(range) => print!(rt; "range {} to {}", Bits(range.minword), Bits(range.maxword))?,
        None => rt.print("no range")?,
    }
    if block.valcount == 0 {
        return rt.print(", no values");
    }
    let first = OrNone(block.value_word(image, 0).map(Bits));
    let second = OrNone(block.value_word(image, 1).map(Bits));
    print!(rt; ", values {first} {second}")
}

// The text that a link leads to.
pub fn text(rt: &impl Print, image: &[u8], link: u64) -> io::Result<()> {
    match text_of(image, link) {
        Some(Span { from, to }) => io::writer(rt).write_all(part(image, from, to)),
        None => rt.print("no text"),
    }
}

fn quoted(rt: &impl Print, label: &str, bytes: &[u8]) -> io::Result<()> {
    print!(rt; "{label} \"")?;
    io::writer(rt).write_all(bytes)?;
    rt.print("\"")
}

fn answer(rt: &impl Print, answer: Answer, out: &[u8]) -> io::Result<()> {
    match answer {
        Answer::Number(x) => print!(rt; "number 0x{:016x}", floats::to_bits(x)),
        Answer::Text(length) => quoted(rt, "text", part(out, 0, length)),
        Answer::Unchanged => rt.print("unchanged"),
        Answer::Unknown => rt.print("unknown"),
        Answer::Refused(refusal) => rt.print(Refused(refusal)),
    }
}

// The output behind the answer's text.
fn behind(answer: Answer, out: &[u8]) -> &[u8] {
    match answer {
        Answer::Text(length) => part(out, length, out.len()),
        _ => out,
    }
}

// The answer, N and M, which all answers have but the refusals of the check, whether a malformed table was consulted, and whether the output behind
// the answer is as it was.
pub fn applied(rt: &impl Print, applied: Applied, out: &[u8]) -> io::Result<()> {
    answer(rt, applied.answer, out)?;
    if applied.checked != 0 {
        print!(rt; ", N {}, M {}", applied.checked, applied.applied)?;
    }
    if applied.malformed {
        rt.print(", malformed")?;
    }
    if behind(applied.answer, out).iter().any(|b| *b != BEFORE) {
        rt.print(", output touched")?;
    }
    Ok(())
}

// What the entry for type 10 shows of a question.
pub fn shown(rt: &impl Print, bytes: &[u8], question: &[u8]) -> io::Result<()> {
    quoted(rt, "shown", bytes)?;
    if bytes.len() != question.len() {
        rt.print(", another length")?;
    }
    Ok(())
}
