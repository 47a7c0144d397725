// Where a reference leads: to a text, to a nested conversion, nowhere, or elsewhere. Carries over the lookups by `cc_ref` of text.rs, which the
// crate resolves ahead of time and which are read from the image here.
ghost use Rattle.std.specs.Prelude.{◌≡◌};
ghost use Rattle.leads.specs.Lead.{lead_of, lead_at, nested_at};

use blocks::view::View;
use common::header::Header;
use common::text::{Span, run_of};

#[derive(Clone, Copy)]
pub enum Lead {
    // A text, by where it may run in the image; it ends at the first zero byte there.
    Words(Span),
    // The address of a ##CC block.
    Nested(u64),
    // NIL, or no such reference.
    Nil,
    Elsewhere,
}

fn nested_at(image: &[u8], link: u64) -> Lead
    ensures { result ≡ nested_at image.now link }
{
    if Header::is_inside(image, link) && Header::is_conversion(image, link as usize) {
        Lead::Nested(link)
    } else {
        Lead::Elsewhere
    }
}

pub fn lead_of(image: &[u8], link: u64) -> Lead
    ensures { result ≡ lead_of image.now link }
{
    if link == 0 {
        return Lead::Nil;
    }
    match run_of(image, link) {
        Some(run) => Lead::Words(run),
        None => nested_at(image, link),
    }
}

// Where the i-th reference of a block leads.
pub fn lead_at(image: &[u8], b: View, i: u64) -> Lead
    ensures { result ≡ lead_at image.now b i }
{
    match b.reference(image, i) {
        Some(link) => lead_of(image, link),
        None => Lead::Nil,
    }
}
