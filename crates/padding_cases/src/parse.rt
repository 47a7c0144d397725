// A block at 8 is parsed plainly and with its padding kept, and what was parsed is written: the image's size, the block length, the reserved bytes, the
// link count, the value count, and what the image has behind the fields.
use crate::said::Parsed;
use blocks::Block;
use common::refusal::Refusal;
use lines::build::{Unit, fill, put};
use lines::parts::{byte, part};
use lines::refusal::Told;
use std::io;

// The id ##CC.
const CONVERSION: u64 = 0x43432323;

// The place of the block.
const AT: usize = 8;

// What the image is made of.
#[derive(Clone, Copy)]
pub struct Image {
    size: usize,
    length: u64,
    reserved: u64,
    links: u64,
    values: u64,
    byte: u8,
}

impl Image {
    pub fn new([size, length, reserved, links, values, byte]: [u64; 6]) -> Self {
        Self {
            size: size as usize,
            length,
            reserved: reserved % 0x100000000,
            links,
            values: values % 0x10000,
            byte: (byte % 256) as u8,
        }
    }

    // The byte of the line, and over it the block: its header, its links, whose bytes are 7, and its fields. The values, the excess and what stands around
    // the block keep that byte.
    fn build(self, mem: &mut [u8]) {
        let fields = 32 + 8 * ((self.links % 65536) as usize);
        fill(mem, 0, self.size, self.byte);
        put(mem, AT, CONVERSION + (self.reserved << 32), Unit::Word);
        put(mem, 16, self.length, Unit::Word);
        put(mem, 24, self.links, Unit::Word);
        fill(mem, 32, fields, 7);
        put(mem, fields, 1 + (self.values << 48), Unit::Word);
    }
}

// The block with its own references and values, at most two of each, into the output.
fn write_back(block: Block, image: &[u8], out: &mut [u8]) -> Result<usize, Refusal> {
    let references = [0, 1].map(|i| block.reference(image, i).unwrap_or(0));
    let values = [0, 1].map(|i| block.value_word(image, i).unwrap_or(0));
    writer::write_words(
        block,
        part(&references, 0, block.reference_count() as usize),
        part(&values, 0, block.valcount as usize),
        out,
    )
}

// How many of the bytes written differ from the image's from the block's place on.
fn differing(image: &[u8], out: &[u8]) -> usize {
    let block = image.get(AT..).unwrap_or(&[]);
    let pairs = out.iter().enumerate();
    pairs
        .filter(|(k, written)| **written != byte(block, *k))
        .count()
}

fn back(rt: &impl Print, block: Block, image: &[u8]) -> io::Result<()> {
    let mut out = [170; 512];
    match write_back(block, image, &mut out) {
        Ok(length) => {
            let count = differing(image, part(&out, 0, length));
            print!(rt; ", back {length} differing {count}")
        }
        Err(refusal) => print!(rt; " refused {}", Told(refusal)),
    }
}

pub fn parse(rt: &impl Print, made: Image, mem: &mut [u8]) -> io::Result<()> {
    made.build(mem);
    let image = part(mem, 0, made.size);
    let plain = padding::parse(image, AT as u64, false);
    let kept = padding::parse(image, AT as u64, true);
    print!(rt; " plain{}, kept{}", Parsed(plain), Parsed(kept))?;
    if let Ok(block) = kept {
        back(rt, block, image)?;
    }
    Ok(())
}
