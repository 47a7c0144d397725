// The numbers and texts of a command, each behind one space.
//
// A number is decimal, hexadecimal behind 0x, or a byte behind '. Hexadecimal digits are small letters, and their 64 bits stand for the number in
// each form.
ghost use Rattle.std.specs.Prelude.{◌≡◌, ◌≢◌, ◌+◌, ◌<◌, ◌≤◌, ◌↔◌, [], length, IfSome, IfOk, IsNone, IsOk, IsOkAnd};

// How a decimal number is read.
#[derive(Clone, Copy, Debug, PartialEq, Eq)]
pub enum Form {
    Unsigned,
    // May have a minus, and is read as its two's complement.
    Signed,
    // A whole number that may have a minus, read as the 64 bits of a float.
    Float,
}

// Something else stands in a command than belongs there.
#[derive(Clone, Copy, Debug)]
pub struct NotUnderstood;

// What is left to read of a command.
#[derive(Clone, Copy)]
pub struct Operands<'a> {
    pub rest: &'a [u8],
}

impl<'a> Operands<'a> {
    // The number that stands next. Where none does, nothing is read.
    pub fn number(&mut self, form: Form) -> Option<u64>
        ensures shorter { IfSome result (λ _. length self.new.rest.now < length self.old.rest.now) }
        ensures unread { IsNone result → self.new.rest.now ≡ self.old.rest.now }
    {
        let [b' ', others @ ..] = self.rest else {
            return None;
        };
        let end = others.iter().position(|b| *b == b' ');
        let (number, rest) = others.split_at(end.unwrap_or(others.len()));
        let value = spelled(number, form)?;
        self.rest = rest;
        Some(value)
    }

    // The next `N` unsigned numbers, 0 where there are fewer.
    pub fn numbers<const N: usize>(&mut self) -> [u64; N]
        ensures { length self.new.rest.now ≤ length self.old.rest.now }
    {
        let mut numbers = [0; N];
        for number in &mut numbers {
            *number = self.number(Form::Unsigned).unwrap_or(0);
        }
        numbers
    }

    // The text in quotes that ends the command. Where nothing is left, it is empty. `Err` has what stands in the place of a text where only its last
    // quote is there.
    pub fn text(self) -> Result<&'a [u8], &'a [u8]>
        ensures empty { self.entry.rest.now ≡ [] → IsOkAnd result (λ text. text.now ≡ []) }
        ensures quoted { self.entry.rest.now ≢ [] → IfOk result (λ text. length text.now + 3 ≡ length self.entry.rest.now) }
    {
        match self.rest {
            [] => Ok(self.rest),
            [_, b'"', text @ .., b'"'] => Ok(text),
            [_, _, text @ .., b'"'] => Err(text),
            _ => Err(&[]),
        }
    }

    // Nothing is left.
    pub fn end(self) -> Result<(), NotUnderstood>
        ensures { IsOk result ↔ (self.entry.rest.now ≡ []) }
    {
        if self.rest.is_empty() {
            Ok(())
        } else {
            Err(NotUnderstood)
        }
    }
}

fn digit(c: u8, base: u64) -> Option<u64> {
    let digit = match c {
        b'0'..=b'9' => c - b'0',
        b'a'..=b'f' => c - b'a' + 10,
        _ => return None,
    };
    Some(u64::from(digit)).filter(|digit| *digit < base)
}

// The number of these digits, of which there is one at least.
fn digits(s: &[u8], base: u64) -> Option<u64> {
    if s.is_empty() {
        return None;
    }
    s.iter().try_fold(
        0u64,
        |number, c| number.checked_mul(base)?.checked_add(digit(*c, base)?),
    )
}

fn float(number: u64) -> u64 {
    floats::to_bits(floats::from_u64(number))
}

// A decimal without a minus, in its form.
fn above(number: u64, form: Form) -> Option<u64> {
    match form {
        Form::Unsigned => Some(number),
        Form::Signed => Some(number).filter(|number| *number < 0x8000000000000000),
        Form::Float => Some(float(number)),
    }
}

// The same with a minus before it.
fn below(number: u64, form: Form) -> Option<u64> {
    match form {
        Form::Unsigned => None,
        Form::Signed if number <= 0x8000000000000000 => Some(number.wrapping_neg()),
        Form::Signed => None,
        Form::Float => Some(float(number) | 0x8000000000000000),
    }
}

fn spelled(s: &[u8], form: Form) -> Option<u64> {
    match s {
        [_, b'x', hexadecimal @ ..] => digits(hexadecimal, 16),
        [b'\'', byte @ ..] => Some(byte.first().map_or(0, |byte| u64::from(*byte))),
        [b'-', decimal @ ..] => below(digits(decimal, 10)?, form),
        decimal => above(digits(decimal, 10)?, form),
    }
}
