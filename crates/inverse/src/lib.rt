// From a value to text block the matching text to value block: a text is turned back into the value that it stands for. Carries over nothing of the
// crate.
//
// Nothing is copied but the block that is written: its references and values go from the image to the output as words, so that a key keeps its 64 bits.

#![tactic(auto)]

ghost use Rattle.std.specs.Prelude.{◌≡◌, ◌+◌, ◌-◌, ◌*◌, ◌≤◌, length as length_of};
ghost use Rattle.words.specs.Words.{put, links, words as words_at};
ghost use Rattle.common.specs.Written.{write_call, holding};
ghost use Rattle.blocks.specs.Block.{parsed};
ghost use Rattle.writer.specs.Write.{block_bytes};
ghost use Rattle.inverse.specs.Invert.{inverse_of, inverted, inverting, KeyPlaces};

use blocks::Block;
use blocks::view::View;
use common::header::Header;
use common::refusal::Refusal;
use keys::first_fault;
use writer::{put_fields, put_fixed};

// The types of the block that is read and of the block that is made, by their numbers, as the record and the definitions have them.
const VALUE_TO_TEXT: u8 = 7;

const TEXT_TO_VALUE: u8 = 9;

// As many words as `count` says, from the place `first` of the image on, one behind the other from the place `at` of the output on. Not by
// `copy_from_slice`: LLVM makes it a call of the C library's memmove, and the archive calls no library.
fn put_words(out: &mut [u8], at: usize, image: &[u8], first: usize, count: usize)
    requires { (first + 8 * count ≤ length_of image.now) × (at + 8 * count ≤ length_of out.old) }
    ensures { out.new ≡ put out.old at (links (words_at image.now first count)) }
{
    for i in 0..count {
        words::put_u64(out, at + 8 * i, words::u64_at(image, first + 8 * i));
    }
}

// The record of the block that is made: type 9 with the links, precision and flags of the old block, no inverse, no range.
fn inverse_of(b: Block) -> Block
    ensures { result ≡ inverse_of b }
{
    Block::new(TEXT_TO_VALUE)
        .with_links(b.name, b.unit, b.comment, 0)
        .with_details(b.precision, b.flags, b.valcount)
}

// The block that is made, from byte 0 of `out` on: its references and values are the first of the old block's, and as many as there are keys.
fn put_inverse(b: Block, image: &[u8], out: &mut [u8])
    requires { KeyPlaces b (length_of image.now) (length_of out.old) }
    ensures { out.new ≡ put out.old 0 (block_bytes (inverse_of b) (words_at image.now b.firstref b.valcount) (words_at image.now b.firstval b.valcount)) }
{
    let made = inverse_of(b);
    let n = b.valcount as usize;
    let place = 56 + 8 * n;
    let header = Header {
        id: Header::CONVERSION,
        reserved: 0,
        length: (place + 8 + 8 * n) as u64,
        links: Block::FIXED + (n as u64),
    };
    header.put(out);
    put_fixed(made, out);
    put_words(out, 56, image, b.firstref as usize, n);
    put_fields(made, out, place, b.valcount);
    put_words(out, place + 8, image, b.firstval as usize, n);
}

// The same where it fits.
fn write_inverse(b: Block, image: &[u8], out: &mut [u8]) -> Result<usize, Refusal>
    requires { KeyPlaces b (length_of image.now) (64 + 16 * b.valcount) }
    ensures { write_call result out.new ≡ holding (block_bytes (inverse_of b) (words_at image.now b.firstref b.valcount) (words_at image.now b.firstval b.valcount)) out.old }
{
    let size = 64 + 16 * (b.valcount as usize);
    if out.len() < size {
        return Err(Refusal::Room);
    }
    put_inverse(b, image, out);
    Ok(size)
}

// The inverse of a block that was parsed at an address.
fn invert_block(b: Block, image: &[u8], address: u64, out: &mut [u8]) -> Result<usize, Refusal>
    requires { parsed image.now address ≡ Ok b }
    ensures { write_call result out.new ≡ inverted image.now address b out.old }
{
    if b.kind != VALUE_TO_TEXT {
        return Err(Refusal::WrongType(address));
    }
    first_fault(image, View::from(b))?;
    write_inverse(b, image, out)
}

// The text to value block that matches the value to text block at an address of an image, from byte 0 of `out` on. Behind the end of the image it turns
// each key's text back into that key.
//
// Work: of n keys at most n * n / 2 comparisons of keys, and what looking for a repeated text takes (crate repeats): as many short steps, and for each 255
// keys at most twice the length of each text behind them; then 16 bytes a key are written. The worst image has 65,535 keys whose texts share long
// beginnings; docs/BENCHMARKS.md has what it costs, at two sizes.
pub fn invert(image: &[u8], address: u64, out: &mut [u8]) -> Result<usize, Refusal>
    ensures { write_call result out.new ≡ inverting image.now address out.old }
{
    invert_block(Block::parse(image, address)?, image, address, out)
}
