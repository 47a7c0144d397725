// The repair of a ##CC block with under four links, which parsing refuses: the block is read as document 01 reads it, and written with the four fixed
// links that it has. Carries over nothing of the crate, which still reads such blocks.
//
// The references and values are copied as words, so that a NaN keeps its pattern.

#![tactic(auto)]

ghost use Rattle.std.specs.Prelude.{◌≡◌, ◌+◌, ◌*◌, ◌≤◌};
ghost use Rattle.std.proofs.Math.ListN as ListN;
ghost use Rattle.words.specs.Words.{words as words_at};
ghost use Rattle.blocks.specs.Block.{parsed_for_repair};
ghost use Rattle.common.specs.Written.{write_call, holding};
ghost use Rattle.repair.specs.Repair.{refused_line, rewritten, repaired};

use blocks::Block;
use common::refusal::Refusal;

// The most bytes of an input.
const MOST: usize = 30000;

// The words that lie in so many.
const WORDS: usize = 3750;

// The words of the input from `first` on, as many as there is room for.
fn gather(input: &[u8], first: usize, room: &mut [u64])
    requires { first + 8 * ListN.length room.old ≤ ListN.length input.now }
    ensures { room.new ≡ words_at input.now first (ListN.length room.old) }
{
    for (i, word) in room.iter_mut().enumerate() {
        *word = words::u64_at(input, first + 8 * i);
    }
}

// The block that was read from the input, written.
fn rewrite(block: Block, input: &[u8], out: &mut [u8]) -> Result<usize, Refusal>
    requires { (ListN.length input.now ≤ 30000) × (parsed_for_repair input.now 0 ≡ Ok block) }
    ensures { write_call result out.new ≡ holding (rewritten input.now (Ok block)) out.old }
{
    // Fixed memory in place of a Vec: no heap.
    let mut refs = [0; WORDS];
    let refs = &mut refs[..block.reference_count() as usize];
    gather(input, block.firstref as usize, refs);
    let mut values = [0; WORDS];
    let values = &mut values[..block.valcount as usize];
    gather(input, block.firstval as usize, values);
    writer::write_words(block, refs, values, out)
}

// A line, where the output has room for it.
fn say(line: &[u8], out: &mut [u8]) -> Result<usize, Refusal>
    ensures { write_call result out.new ≡ holding line.now out.old }
{
    if out.len() < line.len() {
        return Err(Refusal::Room);
    }
    out[..line.len()].copy_from_slice(line);
    Ok(line.len())
}

// Why a block was not read. The number has one digit.
fn say_refused(number: u8, out: &mut [u8]) -> Result<usize, Refusal>
    requires { number ≤ 9 }
    ensures { write_call result out.new ≡ holding (refused_line number) out.old }
{
    let mut line = *b"refused 0\n";
    line[8] = 48 + number;
    say(&line, out)
}

// What is printed for an input.
pub fn repair(input: &[u8], out: &mut [u8]) -> Result<usize, Refusal>
    ensures { write_call result out.new ≡ holding (repaired input.now) out.old }
{
    if MOST < input.len() {
        return say(b"bad input\n", out);
    }
    match Block::parse_for_repair(input, 0) {
        Ok(block) => rewrite(block, input, out),
        Err(r) => say_refused(r.number(), out),
    }
}
