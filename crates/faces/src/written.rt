// What writing answers as C sees it, and the record of a block that C gives.
ghost use Rattle.std.specs.Prelude.{◌≡◌};
ghost use Rattle.faces.specs.Block.{record_of, written_face};

use crate::block::MdfBlock;
use blocks::{Block, Range};
use common::refusal::Refusal;

#[repr(C)]
#[derive(Clone, Copy)]
pub struct MdfWritten {
    pub refusal: u32,
    pub length: u64,
}

// The record of these fields; it stands nowhere in an image.
impl From<MdfBlock> for Block {
    ghost from_gives = { λ m b. b ≡ record_of m };

    fn from(b: MdfBlock) -> Block {
        Block {
            length: b.length,
            links: b.links,
            name: b.name,
            unit: b.unit,
            comment: b.comment,
            inverse: b.inverse,
            kind: b.kind,
            precision: b.precision,
            flags: b.flags,
            refcount: b.refcount,
            valcount: b.valcount,
            range: (b.ranged != 0).then_some(Range {
                minimum: b.minimum,
                maximum: b.maximum,
                minword: b.minword,
                maxword: b.maxword,
            }),
            firstref: 0,
            firstval: 0,
            reserved: b.reserved,
            excess: b.excess,
        }
    }
}

impl From<Result<usize, Refusal>> for MdfWritten {
    ghost from_gives = { λ w m. m ≡ written_face w };

    fn from(w: Result<usize, Refusal>) -> MdfWritten {
        match w {
            Ok(n) => MdfWritten {
                refusal: 0,
                length: n as u64,
            },
            Err(r) => MdfWritten {
                refusal: u32::from(r.number()),
                length: 0,
            },
        }
    }
}
