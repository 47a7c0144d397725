// Little-endian numbers in bytes: read at a place, read by a cursor, and written at a place.
// Carries over `read_link`, `read_u64` and the `LittleEndian` calls of base.rs and common.rs.
//
// These are inner functions: each asks that its place lies in the bytes, and whoever calls it has shown that.
// The compiler turns the bytes of a number into one load or one store. For each size there is a function of one line: one generic function for all sizes
// would need a trait with an `impl` for each, and calls that name the type.

#![tactic(auto)]

ghost use Rattle.std.specs.Prelude.{◌≡◌, ℕ, [], ◌∷◌, map, take, drop, ◌+◌, ◌*◌, ◌≤◌, ◌<◌, ◌^◌, length, get_or};
ghost use Rattle.std.specs.Float.{binary64};
ghost use Rattle.std.specs.Float.Ieee.{to_bits};
ghost use Rattle.words.specs.Words.{word16, word32, word64, value_at, bytes2, bytes4, bytes8, put, links, zeros};

// Each byte is named: so the compiler makes one load of them with no test, where a part of so many bytes would be tested for its length (in a check of 127
// blocks that was 200 million instructions in place of 167).
pub fn u16_at(s: &[u8], at: usize) -> u16
    requires { at + 2 ≤ length s.now }
    ensures { result ≡ word16 s.now at }
{
    u16::from_le_bytes([s[at], s[at + 1]])
}

pub fn u32_at(s: &[u8], at: usize) -> u32
    requires { at + 4 ≤ length s.now }
    ensures { result ≡ word32 s.now at }
{
    u32::from_le_bytes([s[at], s[at + 1], s[at + 2], s[at + 3]])
}

pub fn u64_at(s: &[u8], at: usize) -> u64
    requires { at + 8 ≤ length s.now }
    ensures { result ≡ word64 s.now at }
{
    u64::from_le_bytes([
        s[at],
        s[at + 1],
        s[at + 2],
        s[at + 3],
        s[at + 4],
        s[at + 5],
        s[at + 6],
        s[at + 7],
    ])
}

// Bytes and a place in them. A method reads what stands there, and hands back the cursor with it, moved behind what was read: docs/RULES.md has this form.
#[derive(Clone, Copy)]
pub struct Cursor<'a> {
    pub bytes: &'a [u8],
    pub at: usize,
}

impl<'a> Cursor<'a> {
    pub fn new(bytes: &'a [u8], at: usize) -> Self
        ensures bytes { result.bytes.now ≡ bytes.now }
        ensures place { result.at ≡ at }
    {
        Cursor { bytes, at }
    }

    // The cursor so many bytes further on.
    fn moved(self, by: usize) -> Self
        requires { self.at + by < 2 ^ 64 }
        ensures bytes { result.bytes.now ≡ self.entry.bytes.now }
        ensures place { result.at ≡ self.entry.at + by }
    {
        Cursor::new(self.bytes, self.at + by)
    }

    pub fn read_u8(self) -> (u8, Self)
        requires { self.at + 1 ≤ length self.bytes.now }
        ensures value { result.0 ≡ get_or self.entry.bytes.now self.entry.at 0 }
        ensures bytes { result.1.bytes.now ≡ self.entry.bytes.now }
        ensures place { result.1.at ≡ self.entry.at + 1 }
    {
        (self.bytes[self.at], self.moved(1))
    }

    pub fn read_u16(self) -> (u16, Self)
        requires { self.at + 2 ≤ length self.bytes.now }
        ensures value { result.0 ≡ word16 self.entry.bytes.now self.entry.at }
        ensures bytes { result.1.bytes.now ≡ self.entry.bytes.now }
        ensures place { result.1.at ≡ self.entry.at + 2 }
    {
        (u16_at(self.bytes, self.at), self.moved(2))
    }

    pub fn read_link(self) -> (u64, Self)
        requires { self.at + 8 ≤ length self.bytes.now }
        ensures value { result.0 ≡ word64 self.entry.bytes.now self.entry.at }
        ensures bytes { result.1.bytes.now ≡ self.entry.bytes.now }
        ensures place { result.1.at ≡ self.entry.at + 8 }
    {
        (u64_at(self.bytes, self.at), self.moved(8))
    }

    // A float, and the 64 bits that spelled it: of a NaN the float does not tell them.
    pub fn read_f64(self) -> (f64, u64, Self)
        requires { self.at + 8 ≤ length self.bytes.now }
        ensures value { result.0 ≡ value_at self.entry.bytes.now self.entry.at }
        ensures word { result.1 ≡ word64 self.entry.bytes.now self.entry.at }
        ensures bytes { result.2.bytes.now ≡ self.entry.bytes.now }
        ensures place { result.2.at ≡ self.entry.at + 8 }
    {
        let (word, next) = self.read_link();
        (floats::from_bits(word), word, next)
    }
}

// These bytes, from a place on.
fn put_bytes<const N: usize>(out: &mut [u8], at: usize, bytes: [u8; N])
    requires { at + N ≤ length out.old }
    ensures { out.new ≡ put out.old at bytes.entry }
{
    out[at..at + N].copy_from_slice(&bytes);
}

pub fn put_u8(out: &mut [u8], at: usize, v: u8)
    requires { at + 1 ≤ length out.old }
    ensures { out.new ≡ put out.old at (v ∷ []) }
{
    out[at] = v;
}

pub fn put_u16(out: &mut [u8], at: usize, v: u16)
    requires { at + 2 ≤ length out.old }
    ensures { out.new ≡ put out.old at (bytes2 v) }
{
    put_bytes(out, at, u16::to_le_bytes(v));
}

pub fn put_u32(out: &mut [u8], at: usize, v: u32)
    requires { at + 4 ≤ length out.old }
    ensures { out.new ≡ put out.old at (bytes4 v) }
{
    put_bytes(out, at, u32::to_le_bytes(v));
}

pub fn put_u64(out: &mut [u8], at: usize, v: u64)
    requires { at + 8 ≤ length out.old }
    ensures { out.new ≡ put out.old at (bytes8 v) }
{
    put_bytes(out, at, u64::to_le_bytes(v));
}

// What is written as 64 bits: a number as it is, and a float by its bits.
pub trait Word: Copy {
    ghost bits: { Self → ℕ };

    fn bits(self) -> u64
        ensures { result ≡ bits self };
}

impl Word for u64 {
    ghost bits = { λ v. v };

    fn bits(self) -> u64 {
        self
    }
}

impl Word for f64 {
    ghost bits = { to_bits binary64 };

    fn bits(self) -> u64 {
        floats::to_bits(self)
    }
}

// Words one behind the other, each by its 64 bits.
pub fn put_words<W: Word>(out: &mut [u8], at: usize, vs: &[W])
    requires { at + 8 * length vs.now ≤ length out.old }
    ensures { out.new ≡ put out.old at (links (map W.bits vs.now)) }
{
    for (i, v) in vs.iter().enumerate() {
        put_u64(out, at + 8 * i, v.bits());
    }
}

// Eight zero bytes. Where they are zero already nothing is stored: a loop of mere stores would become a call of the C library's memset, and the archive
// calls no library.
fn put_zero_word(out: &mut [u8], at: usize)
    requires { at + 8 ≤ length out.old }
    ensures { out.new ≡ put out.old at (zeros 8) }
{
    if u64_at(out, at) != 0 {
        put_u64(out, at, 0);
    }
}

// One zero byte, likewise. One function for any size would compare arrays, byte for byte.
fn put_zero(out: &mut [u8], at: usize)
    requires { at + 1 ≤ length out.old }
    ensures { out.new ≡ put out.old at (zeros 1) }
{
    if out[at] != 0 {
        out[at] = 0;
    }
}

// The first of so many zero bytes: eight of them where there are eight or more, else one. Answers how many.
fn put_first_zeros(out: &mut [u8], at: usize, count: usize) -> usize
    requires { (1 ≤ count) × (at + count ≤ length out.old) }
    ensures { (1 ≤ result) × (result ≤ count) × (out.new ≡ put out.old at (zeros result)) }
{
    if 8 <= count {
        put_zero_word(out, at);
        8
    } else {
        put_zero(out, at);
        1
    }
}

// So many zero bytes. A `for` over words and one over the bytes that are left are no plainer, and make 1,183 bytes of code of `mdf_write` where this makes
// 1,040; `fill` would be that memset.
pub fn put_zeros(out: &mut [u8], at: usize, count: usize)
    requires { at + count ≤ length out.old }
    ensures { out.new ≡ put out.old at (zeros count) }
{
    let mut i = 0;
    while i < count {
        i += put_first_zeros(out, at + i, count - i);
    }
}
