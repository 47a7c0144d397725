// The second entry of type 10, with no copying. Carries over `apply_text_to_text` of text.rs, whose answer is a part of the image or the input.
ghost use Rattle.std.specs.Prelude.{◌≡◌, ◌+◌, ◌≤◌, length};
ghost use Rattle.blocks.specs.View.{seen};
ghost use Rattle.conversion.specs.Shown.{of_block, shown_for, ShownIn, showing};

use blocks::view::View;
use common::text::{Span, text_end};
use leads::keys::translate as translate_block;
use leads::lead::Lead;
use tree::check;

// The root, whose header lies in the image. A text that is chosen is looked at once, to its end.
fn shown_by(image: &[u8], address: u64, question: &[u8]) -> Option<Span>
    requires { address + 24 ≤ length image.now }
    ensures { (result ≡ of_block image.now question.now (seen image.now address)) × ShownIn image.now result }
{
    let b = View::look(image, address as usize)?;
    // Text to text, by its number, as the view and the definition have it: a ConversionType would be made of it for one comparison.
    if b.kind != 10 {
        return None;
    }
    match translate_block(image, b, question) {
        Lead::Words(run) => Some(Span {
            to: text_end(image, run),
            ..run
        }),
        Lead::Nested(_) | Lead::Nil | Lead::Elsewhere => None,
    }
}

// Which part of the image is shown, if one is, and not the question.
pub fn shown_for(image: &[u8], address: u64, limit: u32, question: &[u8]) -> Option<Span>
    ensures { (result ≡ shown_for image.now address limit question.now) × ShownIn image.now result }
{
    check(image, address, limit).ok()?;
    shown_by(image, address, question)
}

// What the text to text conversion at an address makes of a question: a part of the image, or the question itself where the check refuses, the
// root has another type, or no text is chosen.
pub fn translate<'a>(image: &'a [u8], address: u64, limit: u32, question: &'a [u8]) -> &'a [u8]
    ensures { result.now ≡ showing image.now question.now (shown_for image.now address limit question.now) }
{
    match shown_for(image, address, limit, question) {
        Some(part) => &image[part.from..part.to],
        None => question,
    }
}
