// Writing a text block. Nothing is written before it is known that all of it fits.
ghost use Rattle.std.specs.Prelude.{◌≡◌, ◌+◌, ◌≤◌};
ghost use Rattle.std.proofs.Math.ListN as ListN;
ghost use Rattle.words.specs.Words.{put};
ghost use Rattle.common.specs.Written.{write_call};
ghost use Rattle.texts.specs.Write.{holds_zero, block_size, text_block, writing_text};

use crate::read::TextId;
use common::header::Header;
use common::refusal::Refusal;

// Whether one of the bytes is zero. All of them are looked at, so that the machine can look at many at a time.
fn holds_zero(text: &[u8]) -> bool
    ensures { result ≡ holds_zero text.now }
{
    let mut found = false;
    for &byte in text {
        found |= byte == 0;
    }
    found
}

// How long the block of a text of so many bytes is. The text is followed by one to eight zeros: the zero byte, and those up to a multiple of 8.
#[tactic(auto, unfolding(crate::specs::Write::block_size))]
fn block_size(length: usize) -> usize
    requires { length ≤ 9223372036854775807 }
    ensures { result ≡ block_size length }
{
    let zeros = 8 - length % 8;
    Header::SIZE + length + zeros
}

// The text, behind the header. No call of the C library's memcpy comes of this loop: the compiler cannot tell that the two slices share no byte.
fn put_text(text: &[u8], out: &mut [u8])
    requires { 24 + ListN.length text.now ≤ ListN.length out.old }
    ensures { out.new ≡ put out.old 24 text.now }
{
    for i in 0..text.len() {
        out[Header::SIZE + i] = text[i];
    }
}

// A text block of so many bytes in all, from byte 0 of `out` on.
#[tactic(auto, using(crate::proofs::Writing::size_least))]
fn put_block(id: TextId, text: &[u8], out: &mut [u8], size: usize)
    requires { (size ≡ block_size (ListN.length text.now)) × (size ≤ ListN.length out.old) }
    ensures { out.new ≡ put out.old 0 (text_block id text.now) }
{
    let end = Header::SIZE + text.len();
    let header = Header {
        id: id.word(),
        reserved: 0,
        length: size as u64,
        links: 0,
    };
    header.put(out);
    put_text(text, out);
    words::put_zeros(out, end, size - end);
}

// The block of a text, from byte 0 of `out` on.
#[tactic(auto, using(crate::proofs::Writing::length_text_block), unfolding(crate::specs::Write::writing_text, common::specs::Written::holding))]
pub fn write(id: TextId, text: &[u8], out: &mut [u8]) -> Result<usize, Refusal>
    ensures { write_call result out.new ≡ writing_text id text.now out.old }
{
    if holds_zero(text) {
        return Err(Refusal::ZeroByte);
    }
    let size = block_size(text.len());
    if out.len() < size {
        return Err(Refusal::Room);
    }
    put_block(id, text, out, size);
    Ok(size)
}
