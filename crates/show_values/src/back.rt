// A text is asked back from a value to text conversion: the conversion's inverse is set behind the image, and converts the text there.
use common::refusal::Refusal;
use conversion::logic::{Applied, apply};
use inverse::invert;
use rules::number::Value;

// Room for the image and for what is set behind it.
const WHOLE: usize = 65536;

// A number is answered, so that no room for a text is needed.
pub fn ask(image: &[u8], address: u64, limit: u32, text: &[u8]) -> Applied {
    // An array, as `out` of a line is: what is lent has one size.
    let mut whole = [0; WHOLE];
    let Some((front, behind)) = whole.split_at_mut_checked(image.len()) else {
        return Applied::refused(Refusal::Room);
    };
    front.copy_from_slice(image);
    match invert(image, address, behind) {
        Ok(_) => apply(
            &whole,
            image.len() as u64,
            limit,
            Value::Text,
            text,
            &mut [0],
        ),
        Err(refusal) => Applied::refused(refusal),
    }
}
