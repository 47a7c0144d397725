// A value that is to be converted, and its number. Carries over `DecodedValue` of decoder.rs and `extract_numeric` of linear.rs.
ghost use Rattle.std.specs.Prelude.{◌≡◌, ◌+◌, ◌≤◌, length};
ghost use Rattle.words.specs.Words.{value_at};
ghost use Rattle.rules.specs.Numbers.{taken};

// The text's bytes stand beside the value: within it each definition and theorem on a value would speak of a reference too, where they speak of bytes
// (`applying`, `by_taken`, `alone`).
#[derive(Clone, Copy)]
pub enum Value {
    Unsigned(u64),
    Signed(i64),
    Float(f64),
    Text,
    Other,
}

// The number of a value, and whether it came from an integer, for which an upper bound is inclusive.
#[derive(Clone, Copy)]
pub struct Taken {
    pub number: f64,
    pub whole: bool,
}

pub fn take(v: Value) -> Option<Taken>
    ensures { result ≡ taken v }
{
    match v {
        Value::Unsigned(n) => Some(Taken {
            number: floats::from_u64(n),
            whole: true,
        }),
        Value::Signed(n) => Some(Taken {
            number: floats::from_i64(n),
            whole: true,
        }),
        Value::Float(x) => Some(Taken {
            number: x,
            whole: false,
        }),
        Value::Text | Value::Other => None,
    }
}

// The value at a place.
pub fn value_at(image: &[u8], p: usize) -> f64
    requires { p + 8 ≤ length image.now }
    ensures { result ≡ value_at image.now p }
{
    floats::from_bits(words::u64_at(image, p))
}
