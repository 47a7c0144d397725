// The searches of types 7 and 8: the index of a key or of a range, and whether it matched, or that the table of ranges is malformed. Carries over
// `find_range_to_text_index` and the key search of text.rs.
ghost use Rattle.std.specs.Prelude.{◌≡◌, ◌<◌};
ghost use Rattle.std.specs.Float.Ieee.{eq};
ghost use Rattle.rules.specs.Stored.{stored_value, listed};
ghost use Rattle.rules.specs.Search.{deciding, is_match, is_malformed, first_key, key_search, first_range, malformed, range_search, searched};

use crate::stored::Values;
use crate::table_lookup::is_held_at;

// A match and no match carry the index whose reference decides; a malformed table, for which index 0 decides, carries whether that counts as a
// match.
#[derive(Clone, Copy)]
pub enum Searched {
    Matched(usize),
    Unmatched(usize),
    Malformed(bool),
}

impl Searched {
    // The index whose reference decides.
    pub fn index(self) -> usize
        ensures { result ≡ deciding self }
    {
        match self {
            Searched::Matched(i) => i,
            Searched::Unmatched(i) => i,
            Searched::Malformed(_) => 0,
        }
    }

    pub fn is_match(self) -> bool
        ensures { result ≡ is_match self }
    {
        match self {
            Searched::Matched(_) => true,
            Searched::Unmatched(_) => false,
            Searched::Malformed(matched) => matched,
        }
    }

    // As a match, like the other two: each case is said once.
    pub fn is_malformed(self) -> bool
        ensures { result ≡ is_malformed self }
    {
        match self {
            Searched::Matched(_) => false,
            Searched::Unmatched(_) => false,
            Searched::Malformed(_) => true,
        }
    }
}

fn searched_at(i: usize, n: usize) -> Searched
    ensures { result ≡ searched i n }
{
    if i < n {
        Searched::Matched(i)
    } else {
        Searched::Unmatched(i)
    }
}

// The i-th value is x. A NaN pattern equals nothing, so it is passed over before it is turned into the one NaN.
fn is_key_at(values: Values, i: usize, x: f64) -> bool
    requires { i < values.count }
    ensures { result ≡ eq (stored_value values.entry i) x }
{
    let word = values.word(i);
    !floats::is_nan_pattern(word) && floats::from_bits(word) == x
}

// How many keys stand before the first that is x; all of them, and not None, if none is: that is the index of the default (`first_key`). The search for a
// range is a loop of its own, since its test reads two values and its index is of pairs.
fn key_index(values: Values, x: f64) -> usize
    ensures { result ≡ first_key (listed values.entry) x }
{
    for i in 0..values.count {
        if is_key_at(values, i, x) {
            return i;
        }
    }
    values.count
}

pub fn search_key(values: Values, x: f64) -> Searched
    ensures { result ≡ key_search (listed values.entry) x }
{
    searched_at(key_index(values, x), values.count)
}

// How many ranges stand before the first that holds x; all of them if none does (`first_range`).
fn range_index(values: Values, whole: bool, x: f64) -> usize
    ensures { result ≡ first_range whole (listed values.entry) x }
{
    let pairs = values.count / 2;
    for i in 0..pairs {
        if is_held_at(values, 2 * i, whole, x) {
            return i;
        }
    }
    pairs
}

// A table of ranges of this length is malformed.
fn is_malformed_length(n: usize) -> bool
    ensures { result ≡ malformed n }
{
    n < 2 || n % 2 == 1
}

pub fn search_range(values: Values, whole: bool, x: f64) -> Searched
    ensures { result ≡ range_search whole (listed values.entry) x }
{
    let n = values.count;
    if is_malformed_length(n) {
        // From length 3 on it counts as a match.
        return Searched::Malformed(2 < n);
    }
    searched_at(range_index(values, whole, x), n / 2)
}
