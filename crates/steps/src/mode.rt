// What an application may vary: how many low bits of a signal reach the masks of bit groups, and the edition of MDF. The crate has neither;
// its rule is 64 bits and edition 4.20.
ghost use Rattle.std.specs.Prelude.{◌≡◌, ◌%◌, ◌^◌};
ghost use Rattle.steps.specs.Mode.{standard, bits_of};

use rules::number::Value;

#[derive(Clone, Copy, Debug, PartialEq, Eq)]
pub enum Edition {
    Mdf410,
    Mdf420,
}

#[derive(Clone, Copy, Debug, PartialEq, Eq)]
pub struct Mode {
    pub width: u32,
    pub edition: Edition,
}

impl Mode {
    // Document 01's rule.
    pub fn standard() -> Mode
        ensures { result ≡ standard }
    {
        Mode {
            width: 64,
            edition: Edition::Mdf420,
        }
    }
}

fn low_bits(bits: u64, width: u32) -> u64
    ensures { result ≡ bits % 2 ^ width }
{
    bits & !u64::MAX.unbounded_shl(width)
}

// The bits of an integer that reach the masks; a signed one in two's complement.
pub fn bits_of(mode: Mode, v: Value) -> Option<u64>
    ensures { result ≡ bits_of mode v }
{
    match v {
        Value::Unsigned(n) => Some(low_bits(n, mode.width)),
        Value::Signed(n) => Some(low_bits(floats::bits_of_i64(n), mode.width)),
        Value::Float(_) | Value::Text | Value::Other => None,
    }
}
