// Parsing a block, plainly and with its padding kept.
ghost use Rattle.std.specs.Prelude.{◌≡◌, true};
ghost use Rattle.blocks.specs.Block.{parsed};
ghost use Rattle.padding.specs.Kept.{parsed_in};
ghost use Rattle.faces.specs.Block.{parsed_face};

use faces::block::MdfParsed;

#[unsafe(no_mangle)]
pub extern "C" fn mdf_parse(image: &[u8], address: u64) -> MdfParsed
    ensures { result ≡ parsed_face (parsed image.now address) }
{
    MdfParsed::from(padding::parse(image, address, false))
}

#[unsafe(no_mangle)]
pub extern "C" fn mdf_parse_kept(image: &[u8], address: u64) -> MdfParsed
    ensures { result ≡ parsed_face (parsed_in true image.now address) }
{
    MdfParsed::from(padding::parse(image, address, true))
}
