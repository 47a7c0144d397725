// The keys of a value to text block: the first that cannot be a key of a text to value block, and why.

#![tactic(auto)]

ghost use Rattle.std.specs.Prelude.{◌≡◌, ℕ, false, ◌+◌, ◌*◌, ◌<◌};
ghost use Rattle.std.specs.Float.Ieee.{is_nan};
ghost use Rattle.words.specs.Words.{word64, PartIn};
ghost use Rattle.common.specs.Text.{text_bytes};
ghost use Rattle.repeats.specs.Repeats.{text_at, first_of};
ghost use Rattle.keys.specs.Keys.{key_at, key_among, is_empty, unusable, why_unusable, first_fault, KeysIn, Numbers, FirstYes};

use blocks::view::View;
use common::refusal::Refusal;
use common::text::Span;
use leads::lead::{Lead, lead_at};
use repeats::first_repeat;

// The 64 bits of the i-th key. `KeysIn` stays a clause, here and below, and is no field: each function asks for as many keys as it reads.
fn key_word(image: &[u8], b: View, i: usize) -> u64
    requires { KeysIn image.now b (i + 1) }
    ensures { result ≡ word64 image.now (b.firstval + 8 * i) }
{
    let first = b.firstval as usize;
    words::u64_at(image, first + 8 * i)
}

// Whether the i-th key is a NaN.
fn is_nan_key(image: &[u8], b: View, i: usize) -> bool
    requires { KeysIn image.now b (i + 1) }
    ensures { result ≡ is_nan (key_at image.now b i) }
{
    floats::is_nan_pattern(key_word(image, b, i))
}

// Whether the text that may run there is empty.
fn is_empty_run(image: &[u8], run: Span) -> bool
    requires { PartIn image.now run.from run.to }
    ensures { result ≡ is_empty (text_bytes image.now run.from run.to) }
{
    run.to <= run.from || image[run.from] == 0
}

// Whether the i-th reference gives no text, or an empty one.
fn has_no_text(image: &[u8], b: View, i: usize) -> bool
    ensures { result ≡ is_empty (text_at image.now b i) }
{
    match lead_at(image, b, i as u64) {
        Lead::Words(run) => is_empty_run(image, run),
        Lead::Nested(_) | Lead::Nil | Lead::Elsewhere => true,
    }
}

// Whether the i-th key is a NaN or has no text.
fn is_unusable(image: &[u8], b: View, i: usize) -> bool
    requires { KeysIn image.now b (i + 1) }
    ensures { result ≡ unusable image.now b i }
{
    is_nan_key(image, b, i) || has_no_text(image, b, i)
}

// The i-th key as a float. It is no NaN, so its bits need no test.
fn number_at(image: &[u8], b: View, i: usize) -> f64
    requires { KeysIn image.now b (i + 1) × (is_nan (key_at image.now b i) ≡ false) }
    ensures { result ≡ key_at image.now b i }
{
    f64::from_bits(key_word(image, b, i))
}

// Whether the i-th key is equal to an earlier one, as a float: 0 and -0 are equal. All before it are looked at, so that the machine can look at many at a
// time.
fn is_repeated_key(image: &[u8], b: View, i: usize) -> bool
    requires { KeysIn image.now b (i + 1) × Numbers image.now b (i + 1) }
    ensures { result ≡ key_among image.now b i i }
{
    let key = number_at(image, b, i);
    let mut found = false;
    for j in 0..i {
        found = found | (number_at(image, b, j) == key);
    }
    found
}

// The first of n keys that is doubted; n, and not None, if there is none: it then bounds the next search, and so `first_of` answers.
fn first_doubted<F: Fn(usize) -> bool>(n: usize, doubted: F) -> usize
    requires { (i : ℕ) → i < n → F.pre doubted i }
    ensures { FirstYes (F.post doubted) n result }
{
    for i in 0..n {
        if doubted(i) {
            return i;
        }
    }
    n
}

// Why the i-th key cannot be used: 14 before 12.
fn why_unusable(image: &[u8], b: View, i: usize) -> Refusal
    requires { (i < 65535) × KeysIn image.now b (i + 1) }
    ensures { result ≡ why_unusable image.now b i }
{
    let index = i as u32;
    if is_nan_key(image, b, i) {
        Refusal::Key(index)
    } else {
        Refusal::NotText(index)
    }
}

// The first fault of the keys. Those before the first unusable one are asked for repeats, first of a text and then, before the first of these, of a key.
pub fn first_fault(image: &[u8], b: View) -> Result<(), Refusal>
    requires { KeysIn image.now b b.valcount }
    ensures { result ≡ first_fault image.now b 0 b.valcount }
{
    let n = usize::from(b.valcount);
    let usable = first_doubted(n, |i| is_unusable(image, b, i));
    let unlike = first_repeat(image, b, usable);
    let i = first_doubted(unlike, |i| is_repeated_key(image, b, i));
    if i < usable {
        return Err(Refusal::Repeated(i as u32));
    }
    if usable < n {
        return Err(why_unusable(image, b, usable));
    }
    Ok(())
}
