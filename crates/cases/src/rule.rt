// The number rules, by the digit of their block type.
ghost use Rattle.std.specs.Prelude.{◌+◌, ◌*◌, ◌≤◌, length};

use crate::build::{AROUND, FIRST, MOST};
use crate::memory::Memory;
use crate::say::{Float, Index};
use lines::parts::part;
use rules::linear::{apply_linear, apply_rational};
use rules::number::{Taken, Value, take};
use rules::search::{search_key, search_range};
use rules::stored::Values;
use rules::table_lookup::{apply_range_value, apply_table};
use std::io;

// The number itself by 0.
fn answer(rt: &impl Print, digit: u8, image: &[u8], n: usize, taken: Taken) -> io::Result<()>
    requires { 27 + n * 8 ≤ length image.now }
{
    let Taken { number: x, whole } = taken;
    let values = Values {
        image,
        first: FIRST,
        count: n,
    };
    let y = match digit {
        b'1' => apply_linear(values, x),
        b'2' => apply_rational(values, x),
        b'4' => apply_table(values, false, x),
        b'5' => apply_table(values, true, x),
        b'6' => apply_range_value(values, whole, x),
        b'7' => return rt.print(Index(search_key(values, x))),
        b'8' => return rt.print(Index(search_range(values, whole, x))),
        _ => x,
    };
    rt.print(Float(y))
}

// A rule's answer to a value. A command may have put any count there: of more than the most values nothing is said.
pub fn ask(rt: &impl Print, digit: u8, value: Value, memory: &Memory) -> io::Result<()> {
    let Some(taken) = take(value) else {
        return rt.print("none");
    };
    let image = part(&memory.bytes, 0, AROUND);
    let n = memory.count();
    if n <= MOST && FIRST + 8 * n <= image.len() {
        return answer(rt, digit, image, n, taken);
    }
    Ok(())
}
