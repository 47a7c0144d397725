// The check's answer as C sees it, and which part of an image a text to text conversion shows.
ghost use Rattle.std.specs.Prelude.{◌≡◌};
ghost use Rattle.faces.specs.Checked.{address_or, checked_face, shown_face, Ordered};

use common::refusal::Refusal;
use common::text::Span;

// 0 accepted, with the visits; or document 01's number of the refusal, with its address.
#[repr(C)]
#[derive(Clone, Copy)]
pub struct MdfChecked {
    pub refusal: u32,
    pub visits: u32,
    pub address: u64,
}

// 1: that part of the image; 0: the question, from 0 on with its length.
#[repr(C)]
#[derive(Clone, Copy)]
pub struct MdfShown {
    pub fromimage: u32,
    pub start: u64,
    pub length: u64,
}

// An address, or 0 where there is none: the one place for all that tell a refusal.
pub fn address_or(address: Option<u64>) -> u64
    ensures { result ≡ address_or address }
{
    address.unwrap_or(0)
}

impl From<Result<u32, Refusal>> for MdfChecked {
    ghost from_gives = { λ c m. m ≡ checked_face c };

    fn from(c: Result<u32, Refusal>) -> MdfChecked {
        match c {
            Ok(n) => MdfChecked {
                refusal: 0,
                visits: n,
                address: 0,
            },
            Err(r) => MdfChecked {
                refusal: u32::from(r.number()),
                visits: 0,
                address: address_or(r.address()),
            },
        }
    }
}

// No `From`: it asks something of the part, and takes the question's length beside it.
pub fn shown_face(s: Option<Span>, length: usize) -> MdfShown
    requires { Ordered s }
    ensures { result ≡ shown_face s length }
{
    match s {
        Some(part) => MdfShown {
            fromimage: 1,
            start: part.from as u64,
            length: (part.to - part.from) as u64,
        },
        None => MdfShown {
            fromimage: 0,
            start: 0,
            length: length as u64,
        },
    }
}
