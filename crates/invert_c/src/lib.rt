// The static library of the one function of C's that makes the inverse of a block, beside `gateway_c`. It is compiled by Rattle's own compiler: its search
// for a repeated text fills arrays, which the other zeroes first by a call of the C library's memset, and the archive calls no library.

#![tactic(auto)]

ghost use Rattle.std.specs.Prelude.{◌≡◌};
ghost use Rattle.inverse.specs.Invert.{inverting};
ghost use Rattle.faces.specs.Inverted.{face_inverted, inverting_face};

use faces::inverted::MdfInverted;
use inverse::invert;

#[unsafe(no_mangle)]
pub extern "C" fn mdf_invert(image: &[u8], address: u64, out: &mut [u8]) -> MdfInverted
    ensures { face_inverted result out.new ≡ inverting_face (inverting image.now address out.old) }
{
    MdfInverted::from(invert(image, address, out))
}
