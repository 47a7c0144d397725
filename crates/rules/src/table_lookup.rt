// Tables of pairs, interpolated or nearest, and range to value. Carries over table_lookup.rs.
ghost use Rattle.std.specs.Prelude.{◌≡◌, ◌&&◌, cond, ◌+◌, ◌<◌, drop};
ghost use Rattle.std.specs.Float.Ieee.{le, lt};
ghost use Rattle.rules.specs.Stored.{stored_value, listed};
ghost use Rattle.rules.specs.Table.{between, scan, table, holds, range_value};

use crate::stored::Values;

fn is_between(k0: f64, x: f64, k1: f64) -> bool
    ensures { result ≡ (le k0 x && le x k1) }
{
    k0 <= x && x <= k1
}

fn at_between(near: bool, k0: f64, v0: f64, k1: f64, v1: f64, x: f64) -> f64
    ensures { result ≡ between near k0 v0 k1 v1 x }
{
    if near {
        if k1 - x < x - k0 { v1 } else { v0 }
    } else {
        v0 + ((x - k0) / (k1 - k0)) * (v1 - v0)
    }
}

// The first neighbours around x. A key is read once: the upper one is the next turn's lower.
fn apply_scan(values: Values, near: bool, x: f64) -> f64
    requires { 1 < values.count }
    ensures { result ≡ scan near (stored_value values.entry 0) (stored_value values.entry 1) (drop 2 (listed values.entry)) x }
{
    let mut k0 = values.at(0);
    for i in 1..values.count / 2 {
        let k1 = values.at(2 * i);
        if is_between(k0, x, k1) {
            return at_between(near, k0, values.at(2 * i - 1), k1, values.at(2 * i + 1), x);
        }
        k0 = k1;
    }
    x
}

pub fn apply_table(values: Values, near: bool, x: f64) -> f64
    ensures { result ≡ table near (listed values.entry) x }
{
    let n = values.count;
    if n < 2 || n % 2 == 1 {
        return x;
    }
    if x <= values.at(0) {
        return values.at(1);
    }
    if x >= values.at(n - 2) {
        return values.at(n - 1);
    }
    apply_scan(values, near, x)
}

// x is under the upper bound that is the i-th value, which is in the range for integers, and not for floats. Nothing is under a NaN pattern, so
// it is passed over before it is turned into the one NaN; what is above the bound needs no look at which of the two it is.
fn is_under_at(values: Values, i: usize, whole: bool, x: f64) -> bool
    requires { i < values.count }
    ensures { result ≡ cond whole (le x (stored_value values.entry i)) (lt x (stored_value values.entry i)) }
{
    let word = values.word(i);
    if floats::is_nan_pattern(word) {
        return false;
    }
    let high = floats::from_bits(word);
    x <= high && (whole || x < high)
}

// The range from the i-th value to the next holds x. Most ranges fail by their upper bound, so it is tested first, and the lower one is read only
// where it holds.
pub fn is_held_at(values: Values, i: usize, whole: bool, x: f64) -> bool
    requires { i + 1 < values.count }
    ensures { result ≡ holds whole (stored_value values.entry i) (stored_value values.entry (i + 1)) x }
{
    is_under_at(values, i + 1, whole, x) && values.at(i) <= x
}

pub fn apply_range_value(values: Values, whole: bool, x: f64) -> f64
    ensures { result ≡ range_value whole (listed values.entry) x }
{
    let n = values.count;
    if n < 4 || n % 3 != 1 {
        return x;
    }
    for i in 0..n / 3 {
        if is_held_at(values, 3 * i, whole, x) {
            return values.at(3 * i + 2);
        }
    }
    values.at(n - 1)
}
