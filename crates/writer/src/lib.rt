// The writer of a ##CC block. Carries over `to_bytes` of base.rs.
//
// It takes the record's fields, the references and the values, and works out link count, block length and value count itself. The record's padding is
// written too: the reserved bytes as they are, the excess as zeros behind the values. Nothing is written before it is known that all of it fits.

#![tactic(auto)]

ghost use Rattle.std.specs.Prelude.{◌≡◌, is_some, map, ◌+◌, ◌*◌, ◌≤◌, ◌<◌};
ghost use Rattle.std.proofs.Math.ListN as ListN;
ghost use Rattle.std.specs.Float.{binary64};
ghost use Rattle.std.specs.Float.Ieee.{to_bits};
ghost use Rattle.words.specs.Words.{put};
ghost use Rattle.blocks.specs.Block.{range_size};
ghost use Rattle.common.specs.Written.{write_call};
ghost use Rattle.writer.specs.Write.{read_as_range, write_answer, fixed_bytes, field_bytes, range_bytes, front_bytes, writing};

use blocks::{Block, Range, range_size};
use common::header::Header;
use common::refusal::Refusal;
use words::Word;

// The most values that a block can count.
const VALUES: usize = 65535;

// The bytes of a range.
const RANGE: u64 = 16;

// The fixed links, behind the header.
pub fn put_fixed(block: Block, out: &mut [u8])
    requires { 56 ≤ ListN.length out.old }
    ensures { out.new ≡ put out.old 24 (fixed_bytes block) }
{
    words::put_u64(out, 24, block.name);
    words::put_u64(out, 32, block.unit);
    words::put_u64(out, 40, block.comment);
    words::put_u64(out, 48, block.inverse);
}

// The eight bytes behind the references.
pub fn put_fields(block: Block, out: &mut [u8], at: usize, values: u16)
    requires { at + 8 ≤ ListN.length out.old }
    ensures { out.new ≡ put out.old at (field_bytes block values) }
{
    words::put_u8(out, at, block.kind);
    words::put_u8(out, at + 1, block.precision);
    words::put_u16(out, at + 2, block.flags);
    words::put_u16(out, at + 4, block.refcount);
    words::put_u16(out, at + 6, values);
}

fn put_range(range: Option<Range>, out: &mut [u8], at: usize)
    requires { at + range_size (is_some range) ≤ ListN.length out.old }
    ensures { out.new ≡ put out.old at (range_bytes range) }
{
    if let Some(range) = range {
        words::put_u64(out, at, floats::kept_bits(range.minimum, range.minword));
        words::put_u64(out, at + 8, floats::kept_bits(range.maximum, range.maxword));
    }
}

// All before the values, and the place where those go.
fn put_front(block: Block, out: &mut [u8], refs: &[u64], values: u16, length: u64) -> usize
    requires { 64 + 8 * ListN.length refs.now + range_size (is_some block.range) ≤ ListN.length out.old }
    ensures { (result ≡ 64 + 8 * ListN.length refs.now + range_size (is_some block.range)) × (out.new ≡ put out.old 0 (front_bytes block refs.now values length)) }
{
    let place = 56 + 8 * refs.len();
    let header = Header {
        id: Header::CONVERSION,
        reserved: block.reserved,
        length,
        links: Block::FIXED + (refs.len() as u64),
    };
    header.put(out);
    put_fixed(block, out);
    words::put_words(out, 56, refs);
    put_fields(block, out, place, values);
    put_range(block.range, out, place + 8);
    place + 8 + range_size(block.range.is_some())
}

// Whether an excess would be read as a range, where the block has none.
fn is_read_as_range(ranged: bool, excess: u64) -> bool
    ensures { result ≡ read_as_range ranged excess }
{
    !ranged && RANGE <= excess
}

// What the writer answers, worked out before it writes anything: 9 over 65,535 values, then 23, then 8 without room, else the block length. No sum of it
// can overflow, whatever the excess.
fn answer(
    ranged: bool,
    refs: usize,
    values: usize,
    excess: u64,
    room: usize,
) -> Result<usize, Refusal>
    requires { 8 * refs < 9223372036854775808 }
    ensures { result ≡ write_answer ranged refs values excess room }
{
    if VALUES < values {
        return Err(Refusal::Count);
    }
    if is_read_as_range(ranged, excess) {
        return Err(Refusal::Padding);
    }
    let size = 64 + 8 * refs + range_size(ranged) + 8 * values;
    if size <= room && excess <= ((room - size) as u64) {
        return Ok(size + (excess as usize));
    }
    Err(Refusal::Room)
}

// The block with these references and these values, each by its 64 bits, from byte 0 of `out` on.
fn write_bits<W: Word>(
    block: Block,
    refs: &[u64],
    values: &[W],
    out: &mut [u8],
) -> Result<usize, Refusal>
    ensures { write_call result out.new ≡ writing block refs.now (map W.bits values.now) out.old }
{
    let size = answer(
        block.range.is_some(),
        refs.len(),
        values.len(),
        block.excess,
        out.len(),
    )?;
    let at = put_front(block, out, refs, values.len() as u16, size as u64);
    words::put_words(out, at, values);
    words::put_zeros(out, at + 8 * values.len(), block.excess as usize);
    Ok(size)
}

// The block with these references and these values' 64 bits, from byte 0 of `out` on.
pub fn write_words(
    block: Block,
    refs: &[u64],
    values: &[u64],
    out: &mut [u8],
) -> Result<usize, Refusal>
    ensures { write_call result out.new ≡ writing block refs.now values.now out.old }
{
    write_bits(block, refs, values, out)
}

// The same with the values as floats, each written by its bits.
pub fn write(block: Block, refs: &[u64], values: &[f64], out: &mut [u8]) -> Result<usize, Refusal>
    ensures { write_call result out.new ≡ writing block refs.now (map (to_bits binary64) values.now) out.old }
{
    write_bits(block, refs, values, out)
}
