// Converts values by the conversions of an MDF image, and writes for each a line: the conversion's name, the value, its answer, and how many
// blocks were checked and applied.
//
// Standard input has at most 65535 bytes, numbers little-endian: the number of requests in 8 bytes, the requests, 72 bytes each, and the image
// up to the end. A request has eight bytes each for the conversion's address, the kind of the value, the value, the visit limit, the room for a
// text answer, at most 4096 bytes, the width of the signal, and the number of the edition, these two 2^32 where it names none; then 16 bytes for the
// text of a value that is one, with zeros behind it. Kind 0 is unsigned, 1 signed in two's complement, 2 a float by its 64 bits, 3 a text, whose length
// stands for the value, 4 other, and 5 a text that is asked back: the inverse of the conversion is set behind the image, and converts it there.

#![tactic(auto)]

mod asked;
mod back;
mod line;
mod said;

use asked::Asked;
use lines::input::read_full;
use std::io;

// The most bytes of the input, and one more.
const INPUT: usize = 65536;

// The requests, and the image behind them. None where there are fewer bytes than the requests take.
fn cut(input: &[u8]) -> Option<(&[[u8; Asked::SIZE]], &[u8])> {
    let (count, rest) = input.split_first_chunk::<8>()?;
    let size = usize::from_le_bytes(*count).checked_mul(Asked::SIZE)?;
    let (requests, image) = rest.split_at_checked(size)?;
    let (requests, _) = requests.as_chunks();
    Some((requests, image))
}

// What cannot be written of a line is left out, and the next one is tried.
fn list(rt: &impl Print, input: &[u8]) -> io::Result<()> {
    if input.len() == INPUT {
        return println!(rt; "bad input: more than 65535 bytes");
    }
    let Some((requests, image)) = cut(input) else {
        return println!(rt; "bad input: fewer bytes than the requests take");
    };
    for request in requests {
        let _ = line::write(rt, image, Asked::new(request));
    }
    Ok(())
}

fn main(rt: HostRuntime) {
    // An array: no input needs more, and no memory is asked for.
    let mut buffer = [0; INPUT];
    let count = read_full(&mut rt.reader(), &mut buffer);
    let _ = list(&rt, &buffer[..count]);
}
