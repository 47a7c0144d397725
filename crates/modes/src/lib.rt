// Applying in a mode that the caller gives in numbers: the edition of MDF (request [8]) and the width of the signal (request [2]). The crate has no
// such entry; its rule is that of edition 4.20 and width 64.

#![tactic(auto)]

ghost use Rattle.std.specs.Prelude.{◌≡◌};
ghost use Rattle.conversion.specs.Entry.{call};
ghost use Rattle.modes.specs.Asked.{is_edition, is_width, edition_named, mode_asked, applying_at};

use common::refusal::Refusal;
use conversion::logic::{Applied, apply_in};
use rules::number::Value;
use steps::mode::{Edition, Mode};

// The edition that a number names: 410 is 4.10, and 420 is 4.20. No other can be named. No TryFrom: an edition is a type of steps', where it has no
// number.
fn edition_of(edition: u32) -> Result<Edition, Refusal>
    ensures { result ≡ edition_named edition }
{
    match edition {
        410 => Ok(Edition::Mdf410),
        420 => Ok(Edition::Mdf420),
        _ => Err(Refusal::Edition),
    }
}

// Whether a number names an edition.
pub fn is_edition(edition: u32) -> bool
    ensures { result ≡ is_edition edition }
{
    edition_of(edition).is_ok()
}

// A signal has 1 to 64 bits.
pub fn is_width(width: u32) -> bool
    ensures { result ≡ is_width width }
{
    (1..=64).contains(&width)
}

// A wrong edition is refused before a wrong width.
fn mode_of(edition: u32, width: u32) -> Result<Mode, Refusal>
    ensures { result ≡ mode_asked edition width }
{
    let edition = edition_of(edition)?;
    if is_width(width) {
        Ok(Mode { width, edition })
    } else {
        Err(Refusal::Width)
    }
}

// As `apply`, in an edition and for a signal of so many bits. In 4.10 a block of type 11 leaves its value unchanged; in 4.20 no more than so many low
// bits of a whole number reach its masks. A mode that is none is refused before anything else is looked at.
pub fn apply_at(
    edition: u32,
    width: u32,
    image: &[u8],
    address: u64,
    limit: u32,
    value: Value,
    text: &[u8],
    out: &mut [u8],
) -> Applied
    ensures { call result out.new
        ≡ applying_at edition width image.now address limit value text.now out.old }
{
    match mode_of(edition, width) {
        Ok(mode) => apply_in(mode, image, address, limit, value, text, out),
        Err(refusal) => Applied::refused(refusal),
    }
}
