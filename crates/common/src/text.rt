// The text of a text block, found as a part of the image. Carries over `read_string_block` of common.rs, and text_block.rs.
//
// Where a text may run is told by its block's header. Its end, the first zero byte, is looked for only where the text itself is needed: a file can
// lead to one long text from many places.
ghost use Rattle.std.specs.Prelude.{◌≡◌, ◌+◌, ◌≤◌, length};
ghost use Rattle.words.specs.Words.{PartIn};
ghost use Rattle.common.specs.Text.{run_at, run_of, text_bytes, text_of};

use crate::header::Header;

// A part of an image: from the first place up to the second, which is not its own any more. That it lies in its image is a clause (`PartIn`) where its
// bytes are read, and no ghost field: the span holds places alone, which are what C is answered, and no image.
#[derive(Clone, Copy, Debug, PartialEq, Eq)]
pub struct Span {
    pub from: usize,
    pub to: usize,
}

// Where the text of the block at `at` may run, whose header lies in the image, if it has this id.
#[tactic(auto, unfolding(crate::specs::Text::run_at, crate::specs::Text::is_whole_text, crate::specs::Header::has_id, crate::specs::Header::header_at))]
pub fn run_at(image: &[u8], at: usize, id: u32) -> Option<Span>
    requires { at + 24 ≤ length image.now }
    ensures { result ≡ run_at id image.now at }
{
    let head = Header::read(image, at);
    if head.id != id {
        return None;
    }
    if head.length < 24 {
        return None;
    }
    if ((image.len() - at) as u64) < head.length {
        return None;
    }
    Some(Span {
        from: at + Header::SIZE,
        to: at + (head.length as usize),
    })
}

// Where the text that a link leads to may run: up to its block's length. No byte of the text is looked at.
#[tactic(auto, using(crate::proofs::Headers::inside_fits), unfolding(crate::specs::Text::run_of))]
pub fn run_of(image: &[u8], link: u64) -> Option<Span>
    ensures { result ≡ run_of image.now link }
{
    if link == 0 {
        return None;
    }
    if Header::is_inside(image, link) {
        run_at(image, link as usize, Header::TEXT)
    } else {
        None
    }
}

// The end of the text that may run there: its first zero byte, or the end of the run.
pub fn text_end(image: &[u8], run: Span) -> usize
    requires { PartIn image.now run.from run.to }
    ensures { result ≡ run.from + length (text_bytes image.now run.from run.to) }
{
    for i in run.from..run.to {
        if image[i] == 0 {
            return i;
        }
    }
    run.to
}

// The text that a link leads to.
#[tactic(auto, unfolding(crate::specs::Text::text_of))]
pub fn text_of(image: &[u8], link: u64) -> Option<Span>
    ensures { result ≡ text_of image.now link }
{
    let run = run_of(image, link)?;
    Some(Span {
        from: run.from,
        to: text_end(image, run),
    })
}
