// The record of a ##CC block: read from an image, and its references and values read by place. Carries over the parsing half of base.rs.
//
// Nothing is copied: the record says where the references and the values stand, and the image is read again.

#![tactic(auto)]

pub mod view;

ghost use Rattle.std.specs.Prelude.{◌≡◌, ◌+◌, ◌-◌, ◌*◌, ◌≤◌, ◌<◌, ◌^◌};
ghost use Rattle.std.proofs.Math.ListN as ListN;
ghost use Rattle.blocks.specs.Block.{fixed_at, fields_at, range_at, range_size, has_range, block_at, opened, parsed_for_repair, few_links, retired, parsed};
ghost use Rattle.blocks.specs.View.{seen};
ghost use Rattle.blocks.specs.Make.{empty_of, with_links, with_details, with_range, with_padding};
ghost use Rattle.blocks.specs.Place.{reference_of, value_word_of, value_of};

use common::header::Header;
use common::refusal::Refusal;
use view::View;
use words::Cursor;

#[derive(Clone, Copy)]
pub struct Block {
    // As the header has them.
    pub length: u64,
    pub links: u64,
    // The four fixed links; 0 is NIL.
    pub name: u64,
    pub unit: u64,
    pub comment: u64,
    pub inverse: u64,
    // The type by its number, as the block has it: an unknown one is kept, and written as it stands.
    pub kind: u8,
    pub precision: u8,
    pub flags: u16,
    // The stored reference count, which sets no reading.
    pub refcount: u16,
    pub valcount: u16,
    // There whole or not at all.
    pub range: Option<Range>,
    // The places of the first reference and of the first value.
    pub firstref: u64,
    pub firstval: u64,
    // The four bytes behind the id, and how far the block length exceeds what was read; 0 where parsing does not keep them.
    pub reserved: u32,
    pub excess: u64,
}

// The four fixed links. A record lists them and the fields below again, and does not hold these structs: whoever reads a record names its fields alone.
#[derive(Clone, Copy)]
pub struct Fixed {
    pub name: u64,
    pub unit: u64,
    pub comment: u64,
    pub inverse: u64,
}

// The eight bytes behind the references.
#[derive(Clone, Copy)]
pub struct Fields {
    pub kind: u8,
    pub precision: u8,
    pub flags: u16,
    pub refcount: u16,
    pub valcount: u16,
}

// The two range fields, as floats and as the words that spelled them: of a NaN the float does not tell its 64 bits.
#[derive(Clone, Copy)]
pub struct Range {
    pub minimum: f64,
    pub maximum: f64,
    pub minword: u64,
    pub maxword: u64,
}

fn fixed_at(image: &[u8], at: usize) -> Fixed
    requires { at + 32 ≤ ListN.length image.now }
    ensures { result ≡ fixed_at image.now at }
{
    let (name, cursor) = Cursor::new(image, at).read_link();
    let (unit, cursor) = cursor.read_link();
    let (comment, cursor) = cursor.read_link();
    let (inverse, _) = cursor.read_link();
    Fixed {
        name,
        unit,
        comment,
        inverse,
    }
}

fn fields_at(image: &[u8], at: usize) -> Fields
    requires { at + 8 ≤ ListN.length image.now }
    ensures { result ≡ fields_at image.now at }
{
    let (kind, cursor) = Cursor::new(image, at).read_u8();
    let (precision, cursor) = cursor.read_u8();
    let (flags, cursor) = cursor.read_u16();
    let (refcount, cursor) = cursor.read_u16();
    let (valcount, _) = cursor.read_u16();
    Fields {
        kind,
        precision,
        flags,
        refcount,
        valcount,
    }
}

fn range_at(image: &[u8], at: usize, ranged: bool) -> Option<Range>
    requires { at + range_size ranged ≤ ListN.length image.now }
    ensures { result ≡ range_at image.now at ranged }
{
    if ranged {
        let (minimum, minword, cursor) = Cursor::new(image, at).read_f64();
        let (maximum, maxword, _) = cursor.read_f64();
        Some(Range {
            minimum,
            maximum,
            minword,
            maxword,
        })
    } else {
        None
    }
}

pub fn range_size(ranged: bool) -> usize
    ensures { (result ≡ range_size ranged) × (result ≤ 16) }
{
    if ranged { 16 } else { 0 }
}

// The range is there by the block length, links as written in the header; the flags play no part.
fn has_range(length: u64, links: u64, valcount: u16) -> bool
    requires { links < 2 ^ 60 }
    ensures { result ≡ has_range length links valcount }
{
    24 + 8 * links + 8 + 8 * (valcount as u64) + 16 <= length
}

// The references past the four fixed links; none where the count is below 4.
fn less_fixed(links: u64) -> u64
    ensures { result ≡ links - 4 }
{
    links.saturating_sub(Block::FIXED)
}

impl Block {
    pub const HEADER: usize = 24;
    // The fixed links: name, unit, comment, inverse.
    pub const FIXED: u64 = 4;
    // The deepest block that is walked, with the root at depth 0.
    pub const DEPTH: u32 = 20;

    // A block of a type with nothing in it: no text, no reference, no value, no range, no padding.
    pub fn new(kind: u8) -> Block
        ensures { result ≡ empty_of kind }
    {
        Block {
            length: 64,
            links: Block::FIXED,
            name: 0,
            unit: 0,
            comment: 0,
            inverse: 0,
            kind,
            precision: 0,
            flags: 0,
            refcount: 0,
            valcount: 0,
            range: None,
            firstref: 56,
            firstval: 64,
            reserved: 0,
            excess: 0,
        }
    }

    // The block with these fixed links.
    pub fn with_links(mut self, name: u64, unit: u64, comment: u64, inverse: u64) -> Block
        ensures { result ≡ with_links self name unit comment inverse }
    {
        self.name = name;
        self.unit = unit;
        self.comment = comment;
        self.inverse = inverse;
        self
    }

    // The block with these details.
    pub fn with_details(mut self, precision: u8, flags: u16, refcount: u16) -> Block
        ensures { result ≡ with_details self precision flags refcount }
    {
        self.precision = precision;
        self.flags = flags;
        self.refcount = refcount;
        self
    }

    // The block with a range.
    pub fn with_range(mut self, minimum: f64, maximum: f64) -> Block
        ensures { result ≡ with_range self minimum maximum }
    {
        self.range = Some(Range {
            minimum,
            maximum,
            minword: floats::to_bits(minimum),
            maxword: floats::to_bits(maximum),
        });
        self
    }

    // The block with these reserved bytes, and with so many zero bytes behind its values.
    pub fn with_padding(mut self, reserved: u32, excess: u64) -> Block
        ensures { result ≡ with_padding self reserved excess }
    {
        self.reserved = reserved;
        self.excess = excess;
        self
    }

    // The record of a block that lies whole in the image, as it was seen.
    fn assembled(image: &[u8], at: usize, view: View) -> Block
        requires { (at + 64 + 8 * view.refs ≤ ListN.length image.now) × (seen image.now at ≡ Some view) }
        ensures { result ≡ block_at image.now at }
    {
        let head = Header::read(image, at);
        let fixed = fixed_at(image, at + Block::HEADER);
        let place = at + 56 + 8 * (view.refs as usize);
        let fields = fields_at(image, place);
        let ranged = has_range(head.length, head.links, fields.valcount);
        let range = range_at(image, place + 8, ranged);
        Block {
            length: head.length,
            links: head.links,
            name: fixed.name,
            unit: fixed.unit,
            comment: fixed.comment,
            inverse: fixed.inverse,
            kind: fields.kind,
            precision: fields.precision,
            flags: fields.flags,
            refcount: fields.refcount,
            valcount: fields.valcount,
            range,
            firstref: view.firstref,
            firstval: view.firstval,
            reserved: 0,
            excess: 0,
        }
    }

    // The block at `at`, whose header lies in the image and has the id ##CC, whatever its link count: whole, or Short.
    pub fn read(image: &[u8], at: usize) -> Result<Block, Refusal>
        requires { at + 24 ≤ ListN.length image.now }
        ensures { result ≡ opened image.now at }
    {
        let view = View::look(image, at).ok_or(Refusal::Short(at as u64))?;
        Ok(Block::assembled(image, at, view))
    }

    // The block at an address of an image, whatever its link count, as document 01 reads it: for the repair.
    #[tactic(auto, using(common::proofs::Headers::inside_fits), unfolding(crate::specs::Block::parsed_for_repair))]
    pub fn parse_for_repair(image: &[u8], address: u64) -> Result<Block, Refusal>
        ensures { result ≡ parsed_for_repair image.now address }
    {
        if !Header::is_inside(image, address) {
            return Err(Refusal::Outside(address));
        }
        let at = address as usize;
        if !Header::is_conversion(image, at) {
            return Err(Refusal::NotConversion(address));
        }
        Block::read(image, at)
    }

    // Whether the block at `at`, whose header lies in the image, has under four links.
    #[tactic(auto, unfolding(crate::specs::Block::few_links))]
    pub fn has_few_links(image: &[u8], at: usize) -> bool
        requires { at + 24 ≤ ListN.length image.now }
        ensures { result ≡ few_links image.now at }
    {
        words::u64_at(image, at + 16) < Block::FIXED
    }

    // Whether a ##CC block with under four links stands at an address.
    #[tactic(auto, using(common::proofs::Headers::inside_fits), unfolding(crate::specs::Block::retired))]
    fn is_retired(image: &[u8], address: u64) -> bool
        ensures { result ≡ retired image.now address }
    {
        if !Header::is_inside(image, address) {
            return false;
        }
        let at = address as usize;
        Header::is_conversion(image, at) && Block::has_few_links(image, at)
    }

    // The block at an address of an image.
    #[tactic(auto, unfolding(crate::specs::Block::parsed))]
    pub fn parse(image: &[u8], address: u64) -> Result<Block, Refusal>
        ensures { result ≡ parsed image.now address }
    {
        if Block::is_retired(image, address) {
            return Err(Refusal::FewLinks(address));
        }
        Block::parse_for_repair(image, address)
    }

    // How many references it has.
    pub fn reference_count(self) -> u64
        ensures { result ≡ self.links - 4 }
    {
        less_fixed(self.links)
    }

    // The i-th reference.
    #[tactic(auto, unfolding(crate::specs::Place::reference_of, crate::specs::View::reference_in))]
    pub fn reference(self, image: &[u8], i: u64) -> Option<u64>
        ensures { result ≡ reference_of image.now self i }
    {
        View::from(self).reference(image, i)
    }

    // The i-th value's 64 bits.
    #[tactic(auto, unfolding(crate::specs::Place::value_word_of, crate::specs::View::value_word_in))]
    pub fn value_word(self, image: &[u8], i: u64) -> Option<u64>
        ensures { result ≡ value_word_of image.now self i }
    {
        View::from(self).value_word(image, i)
    }

    // The i-th value.
    #[tactic(auto, unfolding(crate::specs::Place::value_of, crate::specs::Place::value_word_of, crate::specs::View::value_in, crate::specs::View::value_word_in))]
    pub fn value(self, image: &[u8], i: u64) -> Option<f64>
        ensures { result ≡ value_of image.now self i }
    {
        View::from(self).value(image, i)
    }
}
