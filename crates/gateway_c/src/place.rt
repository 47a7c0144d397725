// The references and the values of a block, read by place: C has a function for each.
ghost use Rattle.std.specs.Prelude.{◌≡◌};
ghost use Rattle.blocks.specs.Place.{reference_of, value_word_of};
ghost use Rattle.faces.specs.Place.{place_face};

use blocks::Block;
use faces::place::MdfWord;

#[unsafe(no_mangle)]
pub extern "C" fn mdf_reference(image: &[u8], address: u64, index: u64) -> MdfWord
    ensures { result ≡ place_face reference_of image.now address index }
{
    match Block::parse(image, address) {
        Ok(b) => MdfWord::from(b.reference(image, index)),
        Err(r) => MdfWord::from(r),
    }
}

#[unsafe(no_mangle)]
pub extern "C" fn mdf_value_word(image: &[u8], address: u64, index: u64) -> MdfWord
    ensures { result ≡ place_face value_word_of image.now address index }
{
    match Block::parse(image, address) {
        Ok(b) => MdfWord::from(b.value_word(image, index)),
        Err(r) => MdfWord::from(r),
    }
}
