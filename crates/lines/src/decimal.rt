// An f64 in decimal, with up to six digits behind the point.
//
// A number stands without a word where those digits give the float back, and with "about" before it where they do not.
// From 2^53 on every float is whole and its last digits say nothing, so its bits are printed.
use std::fmt;
use std::num::saturating_f64_to_u64;

// A float, as it is printed.
#[derive(Clone, Copy)]
pub struct Decimal(pub f64);

impl fmt::Display for Decimal {
    fn fmt<W: fmt::Write>(&self, f: &mut fmt::Formatter<W>) -> fmt::Result {
        let x = self.0;
        let bits = floats::to_bits(x);
        // That of the bits, so that -0 keeps its own.
        let sign = if bits < 0x8000_0000_0000_0000 {
            ""
        } else {
            "-"
        };
        let size = x.abs();
        if x.is_nan() {
            write!(f, "not a number")
        } else if x.is_infinite() {
            write!(f, "{sign}infinity")
        } else if size >= 9007199254740992.0 {
            write!(f, "bits 0x{bits:016x}")
        } else {
            let digits = Digits::nearest(size);
            let about = if digits.value() == size { "" } else { "about " };
            write!(f, "{about}{sign}{digits}")
        }
    }
}

// A size in whole and millionths, which the digits before and behind the point are.
#[derive(Clone, Copy)]
struct Digits {
    whole: u64,
    millionths: u64,
}

impl Digits {
    // Those nearest to a size below 2^53. A part of 0.9999995 and more is one whole.
    fn nearest(size: f64) -> Self {
        let whole = saturating_f64_to_u64(size);
        let rest = size - floats::from_u64(whole);
        let millionths = saturating_f64_to_u64(rest * 1000000.0 + 0.5);
        if millionths < 1000000 {
            return Self { whole, millionths };
        }
        Self {
            whole: whole.wrapping_add(1),
            millionths: 0,
        }
    }

    fn value(self) -> f64 {
        floats::from_u64(self.whole) + floats::from_u64(self.millionths) / 1000000.0
    }
}

impl fmt::Display for Digits {
    // Zeros at the end are left out, and so is a point with nothing behind it.
    fn fmt<W: fmt::Write>(&self, f: &mut fmt::Formatter<W>) -> fmt::Result {
        write!(f, "{}", self.whole)?;
        let mut rest = self.millionths;
        if rest != 0 {
            write!(f, ".")?;
        }
        for _ in 0..6 {
            if rest == 0 {
                break;
            }
            write!(f, "{}", rest / 100000)?;
            rest = rest % 100000 * 10;
        }
        Ok(())
    }
}
