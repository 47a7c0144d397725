// The rules that ask no other block: types 0 to 6, 9 and 10, and unknown. Carries over `apply_decoded` of logic.rs for these, and
// `apply_text_to_value` and `apply_text_to_text` of text.rs.
ghost use Rattle.std.specs.Prelude.{◌≡◌};
ghost use Rattle.rules.specs.Numbers.{taken};
ghost use Rattle.rules.specs.Values.{values as stored};
ghost use Rattle.rules.specs.Stored.{listed};
ghost use Rattle.steps.specs.Plain.{by_number, by_taken, is_text_value, text_to_value, text_to_text, PlainIn};
ghost use Rattle.steps.specs.Fits.{Fits};

use blocks::view::View;
use common::text::Span;
use common::types::ConversionType;
use leads::keys::{translate, value_key};
use leads::lead::Lead;
use rules::linear::{apply_linear, apply_rational};
use rules::number::{Value, take};
use rules::stored::Values;
use rules::table_lookup::{apply_range_value, apply_table};

// An answer that needs no other block. `Formula` and `Broken` stop the application: a formula is met, or a block cannot be opened. They are no `Err`: what
// an application says comes with its visits, which count where it is stopped too, so that no `?` would come of it.
#[derive(Clone, Copy)]
pub enum Plain {
    Number(f64),
    // A text, by where it may run in the image; it ends at the first zero byte there.
    Words(Span),
    Unchanged,
    Unknown,
    Formula,
    Broken,
}

// The values of a block.
pub fn values_of(image: &[u8], b: View) -> Values<'_>
    requires { Fits image.now b }
    ensures { listed result ≡ stored image.now b.firstval b.valcount }
{
    Values {
        image,
        first: b.firstval as usize,
        count: b.valcount as usize,
    }
}

// Types 1 to 6 of a number x, which came from an integer where `whole` is true.
fn by_number(values: Values, kind: ConversionType, whole: bool, x: f64) -> Plain
    ensures { result ≡ by_number kind whole (listed values.entry) x }
{
    match kind {
        ConversionType::Linear => Plain::Number(apply_linear(values, x)),
        ConversionType::Rational => Plain::Number(apply_rational(values, x)),
        ConversionType::Formula => Plain::Formula,
        ConversionType::TableInterpolated => Plain::Number(apply_table(values, false, x)),
        ConversionType::TableNearest => Plain::Number(apply_table(values, true, x)),
        ConversionType::RangeToValue => Plain::Number(apply_range_value(values, whole, x)),
        _ => Plain::Unchanged,
    }
}

// Types 0 to 6 and unknown: only a number is changed.
pub fn number_rule(values: Values, kind: ConversionType, v: Value) -> Plain
    ensures { result ≡ by_taken kind (listed values.entry) (taken v) }
{
    match take(v) {
        Some(taken) => by_number(values, kind, taken.whole, taken.number),
        None => Plain::Unchanged,
    }
}

fn is_text(v: Value) -> bool
    ensures { result ≡ is_text_value v }
{
    matches!(v, Value::Text)
}

// Type 9: the first reference whose text equals the input gives its value.
pub fn text_to_value(image: &[u8], b: View, v: Value, text: &[u8]) -> Plain
    requires { Fits image.now b }
    ensures { result ≡ text_to_value image.now b text.now (is_text_value v) }
{
    if !is_text(v) {
        return Plain::Unchanged;
    }
    match b.value(image, value_key(image, b, text)) {
        Some(x) => Plain::Number(x),
        None => Plain::Unknown,
    }
}

// Type 10: the chosen output text, or the input as it is.
pub fn text_to_text(image: &[u8], b: View, v: Value, text: &[u8]) -> Plain
    requires { Fits image.now b }
    ensures { (result ≡ text_to_text image.now b text.now (is_text_value v)) × PlainIn image.now result }
{
    if !is_text(v) {
        return Plain::Unchanged;
    }
    match translate(image, b, text) {
        Lead::Words(run) => Plain::Words(run),
        Lead::Nested(_) | Lead::Nil | Lead::Elsewhere => Plain::Unchanged,
    }
}
