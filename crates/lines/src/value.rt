// The kinds of values, and a value by its kind and its 64 bits.
ghost use Rattle.std.specs.Prelude.{◌≡◌, ◌<◌, from_bits};
ghost use Rattle.std.specs.Int.{w64, cast_signed};
ghost use Rattle.std.specs.Float.{binary64};
ghost use Rattle.lines.specs.declared.value.Kind.TheVariants.{Unsigned, Signed, Float, Text, Other};

use rules::number::Value;

#[derive(Clone, Copy)]
pub enum Kind {
    Unsigned,
    Signed,
    Float,
    Text,
    Other,
}

// By its number in a request: 0 to 3 in the order above, and all others are other.
impl From<u64> for Kind {
    ghost from_gives = { λ n k. (n ≡ 0 → k ≡ Unsigned) × (n ≡ 1 → k ≡ Signed) × (n ≡ 2 → k ≡ Float) × (n ≡ 3 → k ≡ Text) × (3 < n → k ≡ Other) };

    fn from(number: u64) -> Self {
        match number {
            0 => Kind::Unsigned,
            1 => Kind::Signed,
            2 => Kind::Float,
            3 => Kind::Text,
            _ => Kind::Other,
        }
    }
}

impl Kind {
    // A signed value has the bits of its two's complement. A text stands beside its value, and an other value has no bits.
    pub fn value(self, bits: u64) -> Value
        ensures unsigned { self ≡ Unsigned → result ≡ Value.Unsigned bits }
        ensures signed { self ≡ Signed → result ≡ Value.Signed (cast_signed w64 bits) }
        ensures float { self ≡ Float → result ≡ Value.Float (from_bits binary64 bits) }
        ensures text { self ≡ Text → result ≡ Value.Text }
        ensures other { self ≡ Other → result ≡ Value.Other }
    {
        match self {
            Kind::Unsigned => Value::Unsigned(bits),
            Kind::Signed => Value::Signed(bits.cast_signed()),
            Kind::Float => Value::Float(floats::from_bits(bits)),
            Kind::Text => Value::Text,
            Kind::Other => Value::Other,
        }
    }
}
