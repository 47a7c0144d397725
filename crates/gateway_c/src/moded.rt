// Applying in a mode, one function for each kind of value, as in `applied`.
ghost use Rattle.std.specs.Prelude.{◌≡◌, []};
ghost use Rattle.rules.specs.declared.number.Value.TheVariants.{Unsigned, Signed, Float, Text, Other};
ghost use Rattle.modes.specs.Asked.{applying_at};
ghost use Rattle.faces.specs.Applied.{face, call_face};

use faces::applied::{MdfApplied, MdfMode};
use modes::apply_at;
use rules::number::Value;

#[unsafe(no_mangle)]
pub extern "C" fn mdf_apply_mode_unsigned(
    image: &[u8],
    address: u64,
    limit: u32,
    mode: MdfMode,
    value: u64,
    out: &mut [u8],
) -> MdfApplied
    ensures { face result out.new
        ≡ call_face (applying_at mode.edition mode.width image.now address limit (Unsigned value) [] out.old) }
{
    MdfApplied::from(apply_at(
        mode.edition,
        mode.width,
        image,
        address,
        limit,
        Value::Unsigned(value),
        b"",
        out,
    ))
}

#[unsafe(no_mangle)]
pub extern "C" fn mdf_apply_mode_signed(
    image: &[u8],
    address: u64,
    limit: u32,
    mode: MdfMode,
    value: i64,
    out: &mut [u8],
) -> MdfApplied
    ensures { face result out.new
        ≡ call_face (applying_at mode.edition mode.width image.now address limit (Signed value) [] out.old) }
{
    MdfApplied::from(apply_at(
        mode.edition,
        mode.width,
        image,
        address,
        limit,
        Value::Signed(value),
        b"",
        out,
    ))
}

#[unsafe(no_mangle)]
pub extern "C" fn mdf_apply_mode_float(
    image: &[u8],
    address: u64,
    limit: u32,
    mode: MdfMode,
    value: f64,
    out: &mut [u8],
) -> MdfApplied
    ensures { face result out.new
        ≡ call_face (applying_at mode.edition mode.width image.now address limit (Float value) [] out.old) }
{
    MdfApplied::from(apply_at(
        mode.edition,
        mode.width,
        image,
        address,
        limit,
        Value::Float(value),
        b"",
        out,
    ))
}

#[unsafe(no_mangle)]
pub extern "C" fn mdf_apply_mode_text(
    image: &[u8],
    address: u64,
    limit: u32,
    mode: MdfMode,
    text: &[u8],
    out: &mut [u8],
) -> MdfApplied
    ensures { face result out.new
        ≡ call_face (applying_at mode.edition mode.width image.now address limit Text text.now out.old) }
{
    MdfApplied::from(apply_at(
        mode.edition,
        mode.width,
        image,
        address,
        limit,
        Value::Text,
        text,
        out,
    ))
}

#[unsafe(no_mangle)]
pub extern "C" fn mdf_apply_mode_other(
    image: &[u8],
    address: u64,
    limit: u32,
    mode: MdfMode,
    out: &mut [u8],
) -> MdfApplied
    ensures { face result out.new
        ≡ call_face (applying_at mode.edition mode.width image.now address limit Other [] out.old) }
{
    MdfApplied::from(apply_at(
        mode.edition,
        mode.width,
        image,
        address,
        limit,
        Value::Other,
        b"",
        out,
    ))
}
