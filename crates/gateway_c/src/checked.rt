// The check of an address, and which part of an image a text to text conversion shows.
ghost use Rattle.std.specs.Prelude.{◌≡◌, length as length_of};
ghost use Rattle.tree.specs.Walk.{checked};
ghost use Rattle.conversion.specs.Shown.{shown_for};
ghost use Rattle.faces.specs.Checked.{checked_face, shown_face};

use conversion::shown::shown_for;
use faces::checked::{MdfChecked, MdfShown, shown_face};
use tree::check;

#[unsafe(no_mangle)]
pub extern "C" fn mdf_check(image: &[u8], address: u64, limit: u32) -> MdfChecked
    ensures { result ≡ checked_face (checked image.now address limit) }
{
    MdfChecked::from(check(image, address, limit))
}

#[unsafe(no_mangle)]
pub extern "C" fn mdf_translate(image: &[u8], address: u64, limit: u32, question: &[u8]) -> MdfShown
    ensures { result ≡ shown_face (shown_for image.now address limit question.now) (length_of question.now) }
{
    shown_face(shown_for(image, address, limit, question), question.len())
}
