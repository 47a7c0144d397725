// Reads one ##CC block of at most 30,000 bytes from standard input and writes it to standard output with the four fixed links that every block has to
// have now: link counts 0 to 3 become 4. Longer input gives the line `bad input`, and an input that is no whole block `refused` and the number.

#![tactic(auto)]

use repair::repair;

// The most bytes that are written.
const OUTPUT: usize = 30000;

// By the kit's `io`, as this program knows no failure: input that cannot be read any more has ended, and output that is not taken is left out.
fn main() {
    let mut input = io::large_buffer();
    let count = io::read_full(0, &mut input);
    let mut out = [0; OUTPUT];
    if let Ok(length) = repair(&input[..count], &mut out) {
        io::write_all(1, &out[..length]);
    }
}
