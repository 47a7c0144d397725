// Texts as keys of a block's references. Carries over the searches of `apply_text_to_value` and `apply_text_to_text` in text.rs.
ghost use Rattle.std.specs.Prelude.{◌≡◌, ◌-◌, ◌/◌, ◌≤◌, ◌<◌, [], length};
ghost use Rattle.words.specs.Words.{PartIn};
ghost use Rattle.common.specs.Text.{text_bytes};
ghost use Rattle.leads.specs.Keys.{same_bytes, is_key, first_text, value_key, output_at, translated};
ghost use Rattle.leads.specs.Lead.{lead_at};

use crate::lead::{Lead, lead_at};
use blocks::view::View;
use common::text::Span;

// Whether a text that runs up to `to` ends at p.
fn is_end(image: &[u8], p: usize, to: usize) -> bool
    requires { to ≤ length image.now }
    ensures { result ≡ same_bytes (text_bytes image.now p to) [] }
{
    to <= p || image[p] == 0
}

// Whether the text that may run there is `text`. It is looked at up to the first difference, and no further than one byte past the
// end of `text`: the slices' `starts_with` and `==` would look past the first difference.
fn is_same(image: &[u8], run: Span, text: &[u8]) -> bool
    requires { PartIn image.now run.from run.to }
    ensures { result ≡ same_bytes (text_bytes image.now run.from run.to) text.now }
{
    if run.to - run.from < text.len() {
        return false;
    }
    for (i, c) in text.iter().enumerate() {
        let b = image[run.from + i];
        // A zero byte ends the text, and is no part of it.
        if b != *c || b == 0 {
            return false;
        }
    }
    is_end(image, run.from + text.len(), run.to)
}

// Whether the i-th reference leads to a text that equals `text`.
fn is_key(image: &[u8], b: View, i: u64, text: &[u8]) -> bool
    ensures { result ≡ is_key image.now text.now (lead_at image.now b i) }
{
    match lead_at(image, b, i) {
        Lead::Words(run) => is_same(image, run, text),
        Lead::Nested(_) | Lead::Nil | Lead::Elsewhere => false,
    }
}

// The first of n keys, at every stride-th reference, that equals `text`; n, and not None, if there is none: that is the index of what is answered then
// (`first_text`).
fn find_text(image: &[u8], b: View, text: &[u8], stride: u64, n: u64) -> u64
    requires { (stride ≤ 2) × (n ≤ length image.now) }
    ensures { result ≡ first_text image.now b text.now stride 0 n }
{
    for j in 0..n {
        if is_key(image, b, stride * j, text) {
            return j;
        }
    }
    n
}

// Text to value: the index of the value, which may not be there.
pub fn value_key(image: &[u8], b: View, text: &[u8]) -> u64
    requires { b.refs ≤ length image.now }
    ensures { result ≡ value_key image.now b text.now }
{
    find_text(image, b, text, 1, b.refs)
}

fn pairs_of(refs: u64) -> u64
    ensures { (result ≡ (refs - 1) / 2) × (result ≤ refs) }
{
    refs.saturating_sub(1) / 2
}

// The reference that holds the answer: behind the key, or behind all pairs.
fn output_of(j: u64, pairs: u64) -> u64
    requires { pairs < 9223372036854775808 }
    ensures { result ≡ output_at j pairs }
{
    if j < pairs { 2 * j + 1 } else { 2 * pairs }
}

// Text to text: where the chosen reference leads.
pub fn translate(image: &[u8], b: View, text: &[u8]) -> Lead
    requires { b.refs ≤ length image.now }
    ensures { result ≡ translated image.now b text.now }
{
    let pairs = pairs_of(b.refs);
    let j = find_text(image, b, text, 2, pairs);
    lead_at(image, b, output_of(j, pairs))
}
