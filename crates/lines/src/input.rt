// Input, as far as it can be read.
ghost use Rattle.std.specs.Prelude.{◌≤◌, length};

use std::io::Read;

// Reads until the buffer is full or the input ends, and answers how many bytes there were: input that cannot be read any more has ended. By hand:
// std's `read_exact` does not tell how many there were, and its `read_to_end` asks for less than there is room for at first.
pub fn read_full(input: &mut impl Read, buffer: &mut [u8]) -> usize
    ensures { result ≤ length buffer.new }
{
    let mut count = 0;
    while count < buffer.len() {
        match input.read(&mut buffer[count..]) {
            Ok(0) | Err(_) => break,
            Ok(more) => count += more,
        }
    }
    count
}
