// Why a call is refused. Stands for the parts of error.rs that a conversion can meet; the numbers are document 01's, and from 11 on those of the
// requests after it.
ghost use Rattle.std.specs.Prelude.{◌≡◌, Some};
ghost use Rattle.common.specs.Refusal.{number_of, name_of, address_of, index_of};

use std::error::Error;
use std::fmt;

// 1 to 6, 15, 18 and 22 carry the address of the block or the link, 12 to 14 the index of a key. They stand first, so that the machine tells each kind
// from the others by one comparison.
#[derive(Clone, Copy, Debug, PartialEq, Eq)]
pub enum Refusal {
    Outside(u64),
    NotConversion(u64),
    Limit(u64),
    Short(u64),
    Deep(u64),
    Loop(u64),
    FewLinks(u64),
    NotTextBlock(u64),
    WrongType(u64),
    NotText(u32),
    Repeated(u32),
    Key(u32),
    Formula,
    Room,
    Count,
    Width,
    Edition,
    Padding,
    ZeroByte,
}

impl Refusal {
    // Its number.
    pub fn number(self) -> u8
        ensures { result ≡ number_of self }
    {
        match self {
            Refusal::Outside(_) => 1,
            Refusal::NotConversion(_) => 2,
            Refusal::Limit(_) => 3,
            Refusal::Short(_) => 4,
            Refusal::Deep(_) => 5,
            Refusal::Loop(_) => 6,
            Refusal::FewLinks(_) => 18,
            Refusal::NotTextBlock(_) => 22,
            Refusal::WrongType(_) => 15,
            Refusal::NotText(_) => 12,
            Refusal::Repeated(_) => 13,
            Refusal::Key(_) => 14,
            Refusal::Formula => 7,
            Refusal::Room => 8,
            Refusal::Count => 9,
            Refusal::Width => 11,
            Refusal::Edition => 16,
            Refusal::Padding => 23,
            Refusal::ZeroByte => 21,
        }
    }

    // The address that it carries, if it carries one.
    pub fn address(self) -> Option<u64>
        ensures { result ≡ address_of self }
    {
        match self {
            Refusal::Outside(address)
            | Refusal::NotConversion(address)
            | Refusal::Limit(address)
            | Refusal::Short(address)
            | Refusal::Deep(address)
            | Refusal::Loop(address)
            | Refusal::FewLinks(address)
            | Refusal::NotTextBlock(address)
            | Refusal::WrongType(address) => Some(address),
            _ => None,
        }
    }

    // The index of the key that it carries, if it carries one.
    pub fn index(self) -> Option<u32>
        ensures { result ≡ index_of self }
    {
        match self {
            Refusal::NotText(index) | Refusal::Repeated(index) | Refusal::Key(index) => Some(index),
            _ => None,
        }
    }
}

// Its name.
impl fmt::Display for Refusal {
    ghost output = { λ r. Some (name_of r) };

    fn fmt<W: fmt::Write>(&self, f: &mut fmt::Formatter<W>) -> fmt::Result {
        f.write_str(match self {
            Refusal::Outside(_) => "Outside",
            Refusal::NotConversion(_) => "NotConversion",
            Refusal::Limit(_) => "Limit",
            Refusal::Short(_) => "Short",
            Refusal::Deep(_) => "Deep",
            Refusal::Loop(_) => "Loop",
            Refusal::FewLinks(_) => "FewLinks",
            Refusal::NotTextBlock(_) => "NotTextBlock",
            Refusal::WrongType(_) => "WrongType",
            Refusal::NotText(_) => "NotText",
            Refusal::Repeated(_) => "Repeated",
            Refusal::Key(_) => "Key",
            Refusal::Formula => "Formula",
            Refusal::Room => "Room",
            Refusal::Count => "Count",
            Refusal::Width => "Width",
            Refusal::Edition => "Edition",
            Refusal::Padding => "Padding",
            Refusal::ZeroByte => "ZeroByte",
        })
    }
}

impl Error for Refusal {}
