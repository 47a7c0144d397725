// Applying a conversion to a value, block by block. The functions call each other: `apply` calls `value_to_text`, `range_to_text` and
// `bit_groups`, which call `apply` on nested blocks with one level less. Carries over `apply_decoded` of logic.rs, the text rules of text.rs
// and bitfield.rs.
//
// Only bit groups write: a text that runs in the image is said by where it runs, and its end is not looked for. They measure and write by the same
// functions, see crate `pieces`. The engine is total over every image; a block that cannot be opened stops it, which an accepted check rules out.

#![tactic(auto)]

ghost use Rattle.std.specs.Prelude.{◌≡◌, ◌+◌, ◌≤◌, length};
ghost use Rattle.leads.specs.Lead.{LeadIn};
ghost use Rattle.rules.specs.Numbers.{taken};
ghost use Rattle.steps.specs.Fits.{Fits};
ghost use Rattle.steps.specs.Choice.{chosen_key, chosen_range, malformed_range, ChoiceIn};
ghost use Rattle.pieces.specs.Did.{NoWords};
ghost use Rattle.pieces.specs.Write.{PlaceIn};
ghost use Rattle.engine.specs.Apply.{mask_at, group_count, applied, passed_on, noting, part_of, after_bar, bit_groups, Does};

use blocks::view::View;
use leads::lead::{Lead, lead_at};
use pieces::label::{paste_bar, paste_label};
use pieces::paste::{Place, paste};
use pieces::said::{Outcome, Said, told};
use rules::number::Value;
use steps::choice::{Choice, chosen_key, chosen_range};
use steps::step::{Asked, Step};

// How many groups a block has: a group has a mask and a reference.
fn group_count(b: View) -> u64
    ensures { result ≡ group_count b }
{
    b.refs.min(b.valcount as u64)
}

// The bits of the i-th value; a value that is not there masks all.
fn mask_at(image: &[u8], b: View, i: u64) -> u64
    ensures { result ≡ mask_at image.now b i }
{
    b.value_word(image, i).unwrap_or(0)
}

// The block at `at`, applied to a value: one block begun, and those that its rule begins. `left` falls from block to block, so it is no part of `asked`.
#[cycle(apply_bit_groups_part_pass_on_range_to_text_value_to_text)]
pub fn apply(
    asked: &Asked<'_>,
    at: u64,
    v: Value,
    left: u32,
    out: &mut [u8],
    place: Place,
) -> Outcome
    requires { PlaceIn out.old place × (at + 24 ≤ length asked.now.image.now) }
    ensures { Does asked.now.image.now out.old out.new place.pos place.lim
        (applied left asked.now.mode asked.now.image.now asked.now.text.now at v) result }
{
    if left == 0 {
        return Outcome::quiet(Said::Broken).counted();
    }
    let below = left - 1;
    match asked.step_at(at, v) {
        Step::ByKey(b) => value_to_text(asked, b, v, below, out, place).counted(),
        Step::ByRange(b) => range_to_text(asked, b, v, below, out, place).counted(),
        Step::ByBits(b, bits) => bit_groups(asked, b, bits, below, out, place).counted(),
        Step::Done(p) => told(p).counted(),
    }
}

// Type 7. It stays a function beside type 8's, as document 01 names both; what they have in common is `pass_on`.
#[cycle(apply_bit_groups_part_pass_on_range_to_text_value_to_text)]
fn value_to_text(
    asked: &Asked<'_>,
    b: View,
    v: Value,
    left: u32,
    out: &mut [u8],
    place: Place,
) -> Outcome
    requires { PlaceIn out.old place × Fits asked.now.image.now b }
    ensures { Does asked.now.image.now out.old out.new place.pos place.lim
        (passed_on (applied left asked.now.mode asked.now.image.now asked.now.text.now) asked.now.image.now v
        (chosen_key asked.now.image.now b (taken v))) result }
{
    let choice = chosen_key(asked.image, b, v);
    pass_on(asked, choice, v, left, out, place)
}

// Type 8, which says whether the table that it consulted is malformed.
#[cycle(apply_bit_groups_part_pass_on_range_to_text_value_to_text)]
fn range_to_text(
    asked: &Asked<'_>,
    b: View,
    v: Value,
    left: u32,
    out: &mut [u8],
    place: Place,
) -> Outcome
    requires { PlaceIn out.old place × Fits asked.now.image.now b }
    ensures { Does asked.now.image.now out.old out.new place.pos place.lim
        (noting (malformed_range asked.now.image.now b (taken v))
        (passed_on (applied left asked.now.mode asked.now.image.now asked.now.text.now) asked.now.image.now v
        (chosen_range asked.now.image.now b (taken v)))) result }
{
    let c = chosen_range(asked.image, b, v);
    pass_on(asked, c.choice, v, left, out, place).noting(c.malformed)
}

// What types 7 and 8 chose: a nested block gets the original value.
#[cycle(apply_bit_groups_part_pass_on_range_to_text_value_to_text)]
fn pass_on(
    asked: &Asked<'_>,
    c: Choice,
    v: Value,
    left: u32,
    out: &mut [u8],
    place: Place,
) -> Outcome
    requires { PlaceIn out.old place × ChoiceIn asked.now.image.now c }
    ensures { Does asked.now.image.now out.old out.new place.pos place.lim
        (passed_on (applied left asked.now.mode asked.now.image.now asked.now.text.now) asked.now.image.now v c) result }
{
    match c {
        Choice::Nested(at) => apply(asked, at, v, left, out, place),
        Choice::Done(p) => told(p),
    }
}

// One part of a bit group's text, with "|" before it where another stands before: a direct text, or what a nested block makes of the masked
// value, with its name. Any other answer is no part.
#[cycle(apply_bit_groups_part_pass_on_range_to_text_value_to_text)]
fn part(
    asked: &Asked<'_>,
    lead: Lead,
    masked: u64,
    left: u32,
    started: bool,
    out: &mut [u8],
    place: Place,
) -> Outcome
    requires { PlaceIn out.old place × LeadIn asked.now.image.now lead }
    ensures { Does asked.now.image.now out.old out.new place.pos place.lim
        (after_bar started
        (part_of (applied left asked.now.mode asked.now.image.now asked.now.text.now) asked.now.image.now lead masked)) result
        × NoWords result.said }
{
    match lead {
        Lead::Words(run) => {
            let start = paste_bar(started, out, place);
            let end = paste(asked.image, run, out, start);
            Outcome::quiet(Said::Text(end.pos))
        }
        Lead::Nested(at) => {
            let start = paste_label(asked.image, at, started, out, place);
            let x = apply(asked, at, Value::Unsigned(masked), left, out, start);
            match x.said {
                Said::Words(run) => {
                    let end = paste(asked.image, run, out, start);
                    Outcome {
                        said: Said::Text(end.pos),
                        ..x
                    }
                }
                _ => x,
            }
        }
        Lead::Nil | Lead::Elsewhere => Outcome::quiet(Said::Unchanged),
    }
}

// Type 11, of the bits that reach the masks.
#[cycle(apply_bit_groups_part_pass_on_range_to_text_value_to_text)]
fn bit_groups(
    asked: &Asked<'_>,
    b: View,
    bits: u64,
    left: u32,
    out: &mut [u8],
    place: Place,
) -> Outcome
    requires { PlaceIn out.old place }
    ensures { Does asked.now.image.now out.old out.new place.pos place.lim
        (bit_groups (applied left asked.now.mode asked.now.image.now asked.now.text.now) asked.now.image.now b bits) result }
{
    let mut next = place;
    let mut started = false;
    let mut visits: u32 = 0;
    let mut malformed = false;
    for i in 0..group_count(b) {
        let lead = lead_at(asked.image, b, i);
        let masked = bits & mask_at(asked.image, b, i);
        let x = part(asked, lead, masked, left, started, out, next);
        visits = visits.saturating_add(x.visits);
        malformed |= x.malformed;
        match x.said {
            Said::Text(end) => {
                next.pos = end;
                started = true;
            }
            // Two arms, so that a wrong build can turn one of them.
            Said::Formula => {
                return Outcome {
                    said: Said::Formula,
                    visits,
                    malformed,
                };
            }
            Said::Broken => {
                return Outcome {
                    said: Said::Broken,
                    visits,
                    malformed,
                };
            }
            // `Words` is not met: a part is spelled out.
            Said::Number(_) | Said::Words(_) | Said::Unchanged | Said::Unknown => {}
        }
    }
    Outcome {
        said: Said::Text(next.pos),
        visits,
        malformed,
    }
}
