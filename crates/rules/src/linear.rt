// Linear and rational. Carries over linear.rs.
ghost use Rattle.std.specs.Prelude.{◌≡◌, ◌+◌, ◌<◌};
ghost use Rattle.rules.specs.Stored.{stored_value, listed};
ghost use Rattle.rules.specs.Linear.{linear, rational, poly};

use crate::stored::Values;

pub fn apply_linear(values: Values, x: f64) -> f64
    ensures { result ≡ linear (listed values.entry) x }
{
    if values.count < 2 {
        return x;
    }
    values.at(0) + values.at(1) * x
}

// One half of the fraction, by three values from the i-th on.
fn polynomial(values: Values, i: usize, x: f64) -> f64
    requires { i + 2 < values.count }
    ensures { result ≡ poly (stored_value values.entry i) (stored_value values.entry (i + 1)) (stored_value values.entry (i + 2)) x }
{
    ((values.at(i) * x) * x + values.at(i + 1) * x) + values.at(i + 2)
}

pub fn apply_rational(values: Values, x: f64) -> f64
    ensures { result ≡ rational (listed values.entry) x }
{
    if values.count < 6 {
        return x;
    }
    polynomial(values, 0, x) / polynomial(values, 3, x)
}
