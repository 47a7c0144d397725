// Parsing in two modes: plain, and with the padding kept, which is the reserved bytes and how far the block length exceeds what was read. Of the padding
// the crate has the reserved bytes, in the header of common.rs, and drops the excess.
//
// The excess bytes are counted and not looked at, so that a huge block length costs nothing.

#![tactic(auto)]

ghost use Rattle.std.specs.Prelude.{◌≡◌};
ghost use Rattle.blocks.specs.Block.{parsed};
ghost use Rattle.padding.specs.Kept.{padded, parsed_in};

use blocks::Block;
use common::refusal::Refusal;

// The place of the reserved bytes, behind the id.
const RESERVED: usize = 4;

// The block that was parsed at an address, with its padding: how far its block length exceeds the bytes read, which a smaller one does not.
#[tactic(auto, using(crate::proofs::Keeping::end_fits, crate::proofs::Keeping::end_behind), unfolding(crate::specs::Kept::read_end))]
fn with_its_padding(block: Block, image: &[u8], address: u64) -> Result<Block, Refusal>
    requires { parsed image.now address ≡ Ok block }
    ensures { result ≡ padded image.now address block }
{
    let end = block.firstval + 8 * (block.valcount as u64);
    let excess = block.length.saturating_sub(end - address);
    if excess > image.len() as u64 - end {
        return Err(Refusal::Short(address));
    }
    let reserved = words::u32_at(image, address as usize + RESERVED);
    Ok(block.with_padding(reserved, excess))
}

// The block at an address of an image, and its padding where the mode keeps that.
#[tactic(auto, unfolding(crate::specs::Kept::parsed_in))]
pub fn parse(image: &[u8], address: u64, keeps: bool) -> Result<Block, Refusal>
    ensures { result ≡ parsed_in keeps image.now address }
{
    let block = Block::parse(image, address)?;
    if keeps {
        with_its_padding(block, image, address)
    } else {
        Ok(block)
    }
}
