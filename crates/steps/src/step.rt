// A block is opened, and its type says what is to be done with a value. Carries over the dispatch of `apply_decoded` in logic.rs.
ghost use Rattle.std.specs.Prelude.{◌≡◌, ◌+◌, ◌≤◌, length};
ghost use Rattle.common.specs.Types.{type_of};
ghost use Rattle.steps.specs.Fits.{Fits};
ghost use Rattle.steps.specs.Step.{grouped, typed, step_of, StepIn};

use crate::mode::{Edition, Mode, bits_of};
use crate::plain::{Plain, number_rule, text_to_text, text_to_value, values_of};
use blocks::view::View;
use common::types::ConversionType;
use rules::number::Value;

// Types 7, 8 and 11 go on to other blocks; bit groups take the bits that reach the masks.
#[derive(Clone, Copy)]
pub enum Step {
    ByKey(View),
    ByRange(View),
    ByBits(View, u64),
    Done(Plain),
}

// Type 11, which edition 4.10 does not know, and which leaves all but integers unchanged.
fn groups(mode: Mode, b: View, v: Value) -> Step
    ensures { result ≡ grouped mode b v }
{
    match mode.edition {
        Edition::Mdf410 => Step::Done(Plain::Unchanged),
        Edition::Mdf420 => match bits_of(mode, v) {
            Some(bits) => Step::ByBits(b, bits),
            None => Step::Done(Plain::Unchanged),
        },
    }
}

// What goes with a value from block to block: the mode, the image, and the bytes of a text value.
#[derive(Clone, Copy)]
pub struct Asked<'a> {
    pub mode: Mode,
    pub image: &'a [u8],
    pub text: &'a [u8],
}

impl Asked<'_> {
    // `Fits` stays a clause, also in `plain` and `choice`, and is no field: the step hands the view on, which is asked of the image by place wherever it stands.
    fn by_type(&self, b: View, v: Value) -> Step
        requires { Fits self.now.image.now b }
        ensures { (result ≡ typed self.now.mode self.now.image.now self.now.text.now b v (type_of b.kind))
            × StepIn self.now.image.now result }
    {
        let kind = ConversionType::from(b.kind);
        match kind {
            ConversionType::ValueToText => Step::ByKey(b),
            ConversionType::RangeToText => Step::ByRange(b),
            ConversionType::BitGroups => groups(self.mode, b, v),
            ConversionType::TextToValue => Step::Done(text_to_value(self.image, b, v, self.text)),
            ConversionType::TextToText => Step::Done(text_to_text(self.image, b, v, self.text)),
            _ => Step::Done(number_rule(values_of(self.image, b), kind, v)),
        }
    }

    // The block at `at`, whose header lies in the image.
    pub fn step_at(&self, at: u64, v: Value) -> Step
        requires { at + 24 ≤ length self.now.image.now }
        ensures { (result ≡ step_of self.now.mode self.now.image.now self.now.text.now at v)
            × StepIn self.now.image.now result }
    {
        match View::look(self.image, at as usize) {
            Some(b) => self.by_type(b, v),
            None => Step::Done(Plain::Broken),
        }
    }
}
