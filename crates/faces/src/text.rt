// A text block that was read as C sees it, and the id that C gives.
ghost use Rattle.std.specs.Prelude.{◌≡◌};
ghost use Rattle.faces.specs.Text.{id_number, id_of, text_face, InOrder};

use crate::checked::address_or;
use common::refusal::Refusal;
use texts::read::{TextId, TextRead};

// `id`: 0 ##TX, 1 ##MD. The text stands in the image from `start` on. Fields that do not apply are 0.
#[repr(C)]
#[derive(Clone, Copy)]
pub struct MdfText {
    pub refusal: u32,
    pub id: u32,
    pub address: u64,
    pub start: u64,
    pub length: u64,
}

// No `From`: neither an id nor a number is a type of this crate's.
fn id_number(id: TextId) -> u32
    ensures { result ≡ id_number id }
{
    match id {
        TextId::Tx => 0,
        TextId::Md => 1,
    }
}

// No `From`, for the same reason: C gives a flag.
pub fn id_of(metadata: bool) -> TextId
    ensures { result ≡ id_of metadata }
{
    if metadata { TextId::Md } else { TextId::Tx }
}

// No `From`: it asks something of the text.
pub fn text_face(t: Result<TextRead, Refusal>) -> MdfText
    requires { InOrder t }
    ensures { result ≡ text_face t }
{
    match t {
        Ok(read) => {
            let length = read.text.to - read.text.from;
            MdfText {
                refusal: 0,
                id: id_number(read.id),
                address: 0,
                start: read.text.from as u64,
                length: length as u64,
            }
        }
        Err(r) => MdfText {
            refusal: u32::from(r.number()),
            id: 0,
            address: address_or(r.address()),
            start: 0,
            length: 0,
        },
    }
}
