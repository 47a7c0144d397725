// A word that is read by place, as C sees it.
ghost use Rattle.std.specs.Prelude.{◌≡◌};
ghost use Rattle.faces.specs.Place.{word_face, unread_face};

use crate::checked::address_or;
use common::refusal::Refusal;

// `found`: 1 where the block has that place, with its word; else 0.
#[repr(C)]
#[derive(Clone, Copy)]
pub struct MdfWord {
    pub refusal: u32,
    pub found: u32,
    pub address: u64,
    pub word: u64,
}

impl From<Option<u64>> for MdfWord {
    ghost from_gives = { λ w m. m ≡ word_face w };

    fn from(w: Option<u64>) -> MdfWord {
        match w {
            Some(word) => MdfWord {
                refusal: 0,
                found: 1,
                address: 0,
                word,
            },
            None => MdfWord {
                refusal: 0,
                found: 0,
                address: 0,
                word: 0,
            },
        }
    }
}

// No block was parsed.
impl From<Refusal> for MdfWord {
    ghost from_gives = { λ r m. m ≡ unread_face r };

    fn from(refusal: Refusal) -> MdfWord {
        MdfWord {
            refusal: u32::from(refusal.number()),
            found: 0,
            address: address_or(refusal.address()),
            word: 0,
        }
    }
}
