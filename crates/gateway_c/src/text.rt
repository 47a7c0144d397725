// Text blocks, read and written.
ghost use Rattle.std.specs.Prelude.{◌≡◌};
ghost use Rattle.texts.specs.Read.{reading};
ghost use Rattle.texts.specs.Write.{writing_text};
ghost use Rattle.faces.specs.Block.{face_wrote, writing_face};
ghost use Rattle.faces.specs.Text.{id_of, text_face};

use faces::text::{MdfText, id_of, text_face};
use faces::written::MdfWritten;
use texts::read::read;
use texts::write::write;

#[unsafe(no_mangle)]
pub extern "C" fn mdf_text_read(image: &[u8], address: u64) -> MdfText
    ensures { result ≡ text_face (reading image.now address) }
{
    text_face(read(image, address))
}

#[unsafe(no_mangle)]
pub extern "C" fn mdf_text_write(metadata: bool, text: &[u8], out: &mut [u8]) -> MdfWritten
    ensures { face_wrote result out.new ≡ writing_face (writing_text (id_of metadata) text.now out.old) }
{
    MdfWritten::from(write(id_of(metadata), text, out))
}
