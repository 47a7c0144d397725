// A block as C sees it, and what parsing one answers.
ghost use Rattle.std.specs.Prelude.{◌≡◌};
ghost use Rattle.faces.specs.Block.{block_face, parsed_face};

use crate::checked::address_or;
use blocks::Block;
use common::refusal::Refusal;

#[repr(C)]
#[derive(Clone, Copy, Default)]
pub struct MdfBlock {
    pub length: u64,
    pub links: u64,
    pub name: u64,
    pub unit: u64,
    pub comment: u64,
    pub inverse: u64,
    pub minimum: f64,
    pub maximum: f64,
    pub minword: u64,
    pub maxword: u64,
    // The padding, 0 out of plain parsing.
    pub excess: u64,
    pub reserved: u32,
    pub flags: u16,
    pub refcount: u16,
    pub valcount: u16,
    pub kind: u8,
    pub precision: u8,
    // 1 or 0 out of parsing; for writing any number but 0 says that there is a range.
    pub ranged: u8,
}

#[repr(C)]
#[derive(Clone, Copy)]
pub struct MdfParsed {
    pub refusal: u32,
    pub address: u64,
    pub block: MdfBlock,
}

impl From<Block> for MdfBlock {
    ghost from_gives = { λ b m. m ≡ block_face b };

    fn from(b: Block) -> MdfBlock {
        // The range's fields; they are 0 where there is none.
        let ranged = match b.range {
            Some(range) => MdfBlock {
                minimum: range.minimum,
                maximum: range.maximum,
                minword: range.minword,
                maxword: range.maxword,
                ranged: 1,
                ..MdfBlock::default()
            },
            None => MdfBlock::default(),
        };
        MdfBlock {
            length: b.length,
            links: b.links,
            name: b.name,
            unit: b.unit,
            comment: b.comment,
            inverse: b.inverse,
            excess: b.excess,
            reserved: b.reserved,
            flags: b.flags,
            refcount: b.refcount,
            valcount: b.valcount,
            kind: b.kind,
            precision: b.precision,
            ..ranged
        }
    }
}

impl From<Result<Block, Refusal>> for MdfParsed {
    ghost from_gives = { λ p m. m ≡ parsed_face p };

    fn from(p: Result<Block, Refusal>) -> MdfParsed {
        match p {
            Ok(b) => MdfParsed {
                refusal: 0,
                address: 0,
                block: MdfBlock::from(b),
            },
            Err(r) => MdfParsed {
                refusal: u32::from(r.number()),
                address: address_or(r.address()),
                block: MdfBlock::default(),
            },
        }
    }
}
