// Reading a text block. The text is a part of the image; nothing is copied.
ghost use Rattle.std.specs.Prelude.{◌≡◌, ◌+◌, ◌≤◌, length};
ghost use Rattle.texts.specs.Read.{id_word, read_as, read_at, reading};

use common::header::Header;
use common::refusal::Refusal;
use common::text::{Span, run_at, text_end};

// The id of a text block.
#[derive(Clone, Copy, Debug, PartialEq, Eq)]
pub enum TextId {
    // ##TX, a plain text: what conversions take.
    Tx,
    // ##MD, a text that is XML.
    Md,
}

// A block's id, and where its text stands in the image.
#[derive(Clone, Copy, Debug, PartialEq, Eq)]
pub struct TextRead {
    pub id: TextId,
    pub text: Span,
}

impl TextId {
    // "##MD" as a little-endian number.
    pub const METADATA: u32 = 0x444d_2323;

    // The four bytes of the id as a little-endian number.
    pub fn word(self) -> u32
        ensures { result ≡ id_word self }
    {
        match self {
            TextId::Tx => Header::TEXT,
            TextId::Md => TextId::METADATA,
        }
    }
}

// The text of the block at `at`, which has this id.
#[tactic(auto, unfolding(crate::specs::Read::read_as))]
fn read_as(id: TextId, image: &[u8], at: usize) -> Result<TextRead, Refusal>
    requires { at + 24 ≤ length image.now }
    ensures { result ≡ read_as id image.now at }
{
    let run = run_at(image, at, id.word()).ok_or(Refusal::Short(at as u64))?;
    let text = Span {
        from: run.from,
        to: text_end(image, run),
    };
    Ok(TextRead { id, text })
}

// The block at `at`, whose header lies in the image, by its id.
#[tactic(auto, using(crate::proofs::Reading::read_as_id), unfolding(crate::specs::Read::read_at, common::specs::Header::has_id))]
fn read_at(image: &[u8], at: usize) -> Result<TextRead, Refusal>
    requires { at + 24 ≤ length image.now }
    ensures { result ≡ read_at image.now at }
{
    match words::u32_at(image, at) {
        Header::TEXT => read_as(TextId::Tx, image, at),
        TextId::METADATA => read_as(TextId::Md, image, at),
        _ => Err(Refusal::NotTextBlock(at as u64)),
    }
}

// The text block at an address of an image. Address 0 is an address like any other: it is no link.
#[tactic(auto, using(common::proofs::Headers::inside_fits), unfolding(crate::specs::Read::reading))]
pub fn read(image: &[u8], address: u64) -> Result<TextRead, Refusal>
    ensures { result ≡ reading image.now address }
{
    if !Header::is_inside(image, address) {
        return Err(Refusal::Outside(address));
    }
    read_at(image, address as usize)
}
