// The cases with a value: its kind by a letter, the value, and a text in quotes.
use crate::apply::{apply, translate};
use crate::command::Failure;
use crate::memory::Memory;
use crate::rule;
use lines::read::{Form, NotUnderstood, Operands};
use lines::value::Kind;
use rules::number::Value;

// The value of a kind by its letter: u an unsigned number, s a signed one, f a float by its bits, d a float by its number, t a text and q a question,
// which have no number, and neither has o an other value.
fn value(letter: u8, operands: &mut Operands) -> Result<Value, NotUnderstood> {
    let (kind, form) = match letter {
        b'u' => (Kind::Unsigned, Form::Unsigned),
        b's' => (Kind::Signed, Form::Signed),
        b'f' => (Kind::Float, Form::Unsigned),
        b'd' => (Kind::Float, Form::Float),
        b'q' | b't' => return Ok(Value::Text),
        b'o' => return Ok(Value::Other),
        _ => return Err(NotUnderstood),
    };
    let bits = operands.number(form).ok_or(NotUnderstood)?;
    Ok(kind.value(bits))
}

// The value is converted; a text stands beside it.
pub fn convert(
    rt: &impl Print,
    letter: u8,
    mut operands: Operands,
    memory: &Memory,
) -> Result<(), Failure> {
    let value = value(letter, &mut operands)?;
    let Ok(text) = operands.text() else {
        return Err(Failure::NotUnderstood);
    };
    if letter == b'q' {
        translate(rt, memory, text)?;
    } else {
        apply(rt, memory, value, text)?;
    }
    Ok(())
}

// A rule is asked, whose digit stands before the value. Where nothing stands behind the digit, an other value is meant.
pub fn by_rule(
    rt: &impl Print,
    digit: u8,
    mut operands: Operands,
    memory: &Memory,
) -> Result<(), Failure> {
    let asked = match operands.rest {
        [] => Value::Other,
        [_, letter, rest @ ..] => {
            operands.rest = rest;
            value(*letter, &mut operands)?
        }
        _ => return Err(Failure::NotUnderstood),
    };
    operands.end()?;
    rule::ask(rt, digit, asked, memory)?;
    Ok(())
}
