// Types 7 and 8: a search, and then the reference at the index decides. Carries over the part of `apply_value_to_text` and
// `apply_range_to_text` in text.rs that asks no other block.
ghost use Rattle.std.specs.Prelude.{◌≡◌};
ghost use Rattle.rules.specs.Numbers.{taken};
ghost use Rattle.steps.specs.Choice.{default_of, decided, by_reference, chosen_key, chosen_range, malformed_range, ChoiceIn};
ghost use Rattle.steps.specs.Fits.{Fits};
ghost use Rattle.leads.specs.Lead.{LeadIn};

use crate::plain::{Plain, values_of};
use blocks::view::View;
use common::text::Span;
use leads::lead::{Lead, lead_at};
use rules::number::{Value, take};
use rules::search::{Searched, search_key, search_range};

// What the deciding reference leads to: a nested block, which gets the original value, or an answer.
#[derive(Clone, Copy)]
pub enum Choice {
    Nested(u64),
    Done(Plain),
}

// The default conversion, which only type 8 has: the last of more than two references, if it is a ##CC.
fn default_of(image: &[u8], b: View, fallback: bool) -> Choice
    ensures { (result ≡ default_of image.now b fallback) × ChoiceIn image.now result }
{
    if !fallback || b.refs <= 2 {
        return Choice::Done(Plain::Unchanged);
    }
    match lead_at(image, b, b.refs - 1) {
        Lead::Nested(a) => Choice::Nested(a),
        Lead::Words(_) | Lead::Nil | Lead::Elsewhere => Choice::Done(Plain::Unchanged),
    }
}

fn decide(image: &[u8], b: View, lead: Lead, matched: bool, fallback: bool) -> Choice
    requires { LeadIn image.now lead }
    ensures { (result ≡ decided lead matched (default_of image.now b fallback)) × ChoiceIn image.now result }
{
    match lead {
        Lead::Words(run) => Choice::Done(Plain::Words(run)),
        Lead::Nested(a) => Choice::Nested(a),
        // The empty text.
        Lead::Nil if matched => Choice::Done(Plain::Words(Span { from: 0, to: 0 })),
        Lead::Nil | Lead::Elsewhere => default_of(image, b, fallback),
    }
}

// The reference at the index decides.
fn follow(image: &[u8], b: View, s: Searched, fallback: bool) -> Choice
    ensures { (result ≡ by_reference image.now b s fallback) × ChoiceIn image.now result }
{
    let lead = lead_at(image, b, s.index() as u64);
    decide(image, b, lead, s.is_match(), fallback)
}

// Type 7, which has no default conversion. It and type 8 stay two functions: they share `follow`, and a search handed in would need a closure for one
// line, with a flag for the default beside it, and a table to tell of where type 7 has none.
pub fn chosen_key(image: &[u8], b: View, v: Value) -> Choice
    requires { Fits image.now b }
    ensures { (result ≡ chosen_key image.now b (taken v)) × ChoiceIn image.now result }
{
    match take(v) {
        Some(taken) => follow(
            image,
            b,
            search_key(values_of(image, b), taken.number),
            false,
        ),
        None => Choice::Done(Plain::Unchanged),
    }
}

// What type 8 chose, and whether the table that it consulted is malformed.
#[derive(Clone, Copy)]
pub struct Consulted {
    pub choice: Choice,
    pub malformed: bool,
}

// Type 8. Text and "other" consult no table.
pub fn chosen_range(image: &[u8], b: View, v: Value) -> Consulted
    requires { Fits image.now b }
    ensures { (result.choice ≡ chosen_range image.now b (taken v)) × (result.malformed ≡ malformed_range image.now b (taken v))
        × ChoiceIn image.now result.choice }
{
    match take(v) {
        Some(taken) => {
            let s = search_range(values_of(image, b), taken.whole, taken.number);
            Consulted {
                choice: follow(image, b, s, true),
                malformed: s.is_malformed(),
            }
        }
        None => Consulted {
            choice: Choice::Done(Plain::Unchanged),
            malformed: false,
        },
    }
}
