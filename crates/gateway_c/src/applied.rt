// Applying, one function for each kind of value, so that a signed value cannot be handed on as its 64 bits unseen.
ghost use Rattle.std.specs.Prelude.{◌≡◌, []};
ghost use Rattle.rules.specs.declared.number.Value.TheVariants.{Unsigned, Signed, Float, Text, Other};
ghost use Rattle.steps.specs.Mode.{standard};
ghost use Rattle.conversion.specs.Entry.{applying};
ghost use Rattle.faces.specs.Applied.{face, call_face};

use conversion::logic::apply;
use faces::applied::MdfApplied;
use rules::number::Value;

#[unsafe(no_mangle)]
pub extern "C" fn mdf_apply_unsigned(
    image: &[u8],
    address: u64,
    limit: u32,
    value: u64,
    out: &mut [u8],
) -> MdfApplied
    ensures { face result out.new ≡ call_face (applying standard image.now address limit (Unsigned value) [] out.old) }
{
    MdfApplied::from(apply(image, address, limit, Value::Unsigned(value), b"", out))
}

#[unsafe(no_mangle)]
pub extern "C" fn mdf_apply_signed(
    image: &[u8],
    address: u64,
    limit: u32,
    value: i64,
    out: &mut [u8],
) -> MdfApplied
    ensures { face result out.new ≡ call_face (applying standard image.now address limit (Signed value) [] out.old) }
{
    MdfApplied::from(apply(image, address, limit, Value::Signed(value), b"", out))
}

#[unsafe(no_mangle)]
pub extern "C" fn mdf_apply_float(
    image: &[u8],
    address: u64,
    limit: u32,
    value: f64,
    out: &mut [u8],
) -> MdfApplied
    ensures { face result out.new ≡ call_face (applying standard image.now address limit (Float value) [] out.old) }
{
    MdfApplied::from(apply(image, address, limit, Value::Float(value), b"", out))
}

#[unsafe(no_mangle)]
pub extern "C" fn mdf_apply_text(
    image: &[u8],
    address: u64,
    limit: u32,
    text: &[u8],
    out: &mut [u8],
) -> MdfApplied
    ensures { face result out.new ≡ call_face (applying standard image.now address limit Text text.now out.old) }
{
    MdfApplied::from(apply(image, address, limit, Value::Text, text, out))
}

#[unsafe(no_mangle)]
pub extern "C" fn mdf_apply_other(
    image: &[u8],
    address: u64,
    limit: u32,
    out: &mut [u8],
) -> MdfApplied
    ensures { face result out.new ≡ call_face (applying standard image.now address limit Other [] out.old) }
{
    MdfApplied::from(apply(image, address, limit, Value::Other, b"", out))
}
