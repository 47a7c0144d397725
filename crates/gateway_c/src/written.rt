// Writing a block.
ghost use Rattle.std.specs.Prelude.{◌≡◌};
ghost use Rattle.writer.specs.Write.{writing};
ghost use Rattle.faces.specs.Block.{record_of, face_wrote, writing_face};

use blocks::Block;
use faces::block::MdfBlock;
use faces::written::MdfWritten;
use writer::write_words;

#[unsafe(no_mangle)]
pub extern "C" fn mdf_write(
    block: MdfBlock,
    refs: &[u64],
    words: &[u64],
    out: &mut [u8],
) -> MdfWritten
    ensures { face_wrote result out.new ≡ writing_face (writing (record_of block) refs.now words.now out.old) }
{
    MdfWritten::from(write_words(Block::from(block), refs, words, out))
}
