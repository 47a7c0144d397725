// The type numbers of a conversion, both ways. Carries over types.rs.
ghost use Rattle.std.specs.Prelude.{◌≡◌};
ghost use Rattle.common.specs.Types.{type_of, number_of_type};

#[derive(Clone, Copy, Debug, PartialEq, Eq)]
pub enum ConversionType {
    Identity,
    Linear,
    Rational,
    Formula,
    TableInterpolated,
    TableNearest,
    RangeToValue,
    ValueToText,
    RangeToText,
    TextToValue,
    TextToText,
    BitGroups,
    Unknown(u8),
}

impl From<u8> for ConversionType {
    ghost from_gives = { λ n kind. kind ≡ type_of n };

    #[tactic(auto, unfolding(crate::specs::Types::type_of))]
    fn from(n: u8) -> ConversionType {
        match n {
            0 => ConversionType::Identity,
            1 => ConversionType::Linear,
            2 => ConversionType::Rational,
            3 => ConversionType::Formula,
            4 => ConversionType::TableInterpolated,
            5 => ConversionType::TableNearest,
            6 => ConversionType::RangeToValue,
            7 => ConversionType::ValueToText,
            8 => ConversionType::RangeToText,
            9 => ConversionType::TextToValue,
            10 => ConversionType::TextToText,
            11 => ConversionType::BitGroups,
            _ => ConversionType::Unknown(n),
        }
    }
}

impl From<ConversionType> for u8 {
    ghost from_gives = { λ kind n. n ≡ number_of_type kind };

    fn from(kind: ConversionType) -> u8 {
        match kind {
            ConversionType::Identity => 0,
            ConversionType::Linear => 1,
            ConversionType::Rational => 2,
            ConversionType::Formula => 3,
            ConversionType::TableInterpolated => 4,
            ConversionType::TableNearest => 5,
            ConversionType::RangeToValue => 6,
            ConversionType::ValueToText => 7,
            ConversionType::RangeToText => 8,
            ConversionType::TextToValue => 9,
            ConversionType::TextToText => 10,
            ConversionType::BitGroups => 11,
            ConversionType::Unknown(n) => n,
        }
    }
}
