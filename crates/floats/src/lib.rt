// f64 and its 64 bits, both ways and for every pattern; whole numbers rounded to f64, by its bits and with no float operation.
// Carries over the integer half of `extract_numeric` in linear.rs and the crate's uses of `f64::from_bits` and `to_bits`.
//
// The language has one NaN and leaves its own `from_bits` and `to_bits` undefined there, so both functions here test for it first. The tests are not left
// to std's functions: what a NaN is read as and written as is a number of this code. The bits that `from_u64` and `from_i64` put together are no NaN's,
// and are read without a test.

#![tactic(auto)]

ghost use Rattle.std.specs.Prelude.{◌≡◌, pos, from_bits, to_bits};
ghost use Rattle.std.specs.Float.{binary64};
ghost use Rattle.std.specs.Float.Ieee.{of_int, nan_bits};
ghost use Rattle.std.specs.Float.Ieee.Nearest.{closest};
ghost use Rattle.floats.specs.Twos.{twos};
ghost use Rattle.floats.specs.Kept.{kept_bits};

// Whether 64 bits spell a NaN: those below the sign are above infinity's.
pub fn is_nan_pattern(bits: u64) -> bool
    ensures { result ≡ nan_bits binary64 bits }
{
    bits % 0x8000_0000_0000_0000 > 0x7ff0_0000_0000_0000
}

// The float that 64 bits spell. A NaN pattern, whichever it is, spells the one NaN.
pub fn from_bits(bits: u64) -> f64
    ensures { result ≡ from_bits binary64 bits }
{
    if is_nan_pattern(bits) {
        0.0 / 0.0
    } else {
        f64::from_bits(bits)
    }
}

// The 64 bits of a float. A NaN reads back as 0x7ff8_0000_0000_0000.
pub fn to_bits(x: f64) -> u64
    ensures { result ≡ to_bits binary64 x }
{
    if x.is_nan() {
        0x7ff8_0000_0000_0000
    } else {
        f64::to_bits(x)
    }
}

// The bits to write for a float that was read from `word`: its own, and of a NaN those of `word` if they spell one.
pub fn kept_bits(x: f64, word: u64) -> u64
    ensures { result ≡ kept_bits x word }
{
    if x.is_nan() && is_nan_pattern(word) {
        word
    } else {
        to_bits(x)
    }
}

// m / 2048 to the nearest whole number, a tie to the even one: the upper 53 bits of m, rounded by the 11 below them.
fn rounded(m: u64) -> u64
    ensures { result ≡ closest m 2048 }
{
    let kept = m / 2048;
    let dropped = m % 2048;
    if dropped < 1024 {
        kept
    } else if dropped > 1024 {
        kept + 1
    } else {
        kept + kept % 2
    }
}

// The bits of the f64 nearest to n. The leading one of n is bit 63 - zeros, so the exponent's field is 1086 - zeros. Of the 53 digits the leading one
// is not written: here it is added to a field that is 1 less. Where rounding carries into a 54th digit the sum is right too: the field has 1 more, and
// the digits are zeros.
fn nearest_bits(n: u64) -> u64
    ensures { result ≡ to_bits binary64 (of_int binary64 (pos n)) }
{
    if n == 0 {
        return 0;
    }
    let zeros = n.leading_zeros();
    (1085 - (zeros as u64)) * 0x0010_0000_0000_0000 + rounded(n << zeros)
}

// The f64 nearest to n, a tie going to the even one.
pub fn from_u64(n: u64) -> f64
    ensures { result ≡ of_int binary64 (pos n) }
{
    f64::from_bits(nearest_bits(n))
}

// The same for a signed number: -3 is -3.0 and not the float of its 64 bits.
pub fn from_i64(n: i64) -> f64
    ensures { result ≡ of_int binary64 n }
{
    let below_sign = nearest_bits(n.unsigned_abs());
    if n >= 0 {
        f64::from_bits(below_sign)
    } else {
        f64::from_bits(0x8000_0000_0000_0000 + below_sign)
    }
}

// The 64 bits of a signed number, in two's complement.
#[tactic(auto, using(crate::proofs::Signed::bits_as_read), unfolding(crate::specs::Twos::twos))]
pub fn bits_of_i64(n: i64) -> u64
    ensures { result ≡ twos n }
{
    n.cast_unsigned()
}
