// What making the inverse of a block answers, as C sees it.
ghost use Rattle.std.specs.Prelude.{◌≡◌};
ghost use Rattle.faces.specs.Inverted.{inverted_face};

use crate::checked::address_or;
use common::refusal::Refusal;

// 0 with the length of the block that was made; or the number of the refusal, with the index of the key for 12 to 14, else with its address.
#[repr(C)]
#[derive(Clone, Copy)]
pub struct MdfInverted {
    pub refusal: u32,
    pub index: u32,
    pub address: u64,
    pub length: u64,
}

impl From<Result<usize, Refusal>> for MdfInverted {
    ghost from_gives = { λ w m. m ≡ inverted_face w };

    fn from(w: Result<usize, Refusal>) -> MdfInverted {
        match w {
            Ok(n) => MdfInverted {
                refusal: 0,
                index: 0,
                address: 0,
                length: n as u64,
            },
            Err(r) => MdfInverted {
                refusal: u32::from(r.number()),
                index: r.index().unwrap_or(0),
                address: address_or(r.address()),
                length: 0,
            },
        }
    }
}
