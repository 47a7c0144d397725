// Which of a block's texts is the first that is equal to an earlier one. Carries over nothing of the crate.
//
// A file may have 65,535 texts with long beginnings in common, so not each is compared with each from its first byte on. The texts are gone through
// in chunks of 255. For each text of a chunk it is kept which text before it in the chunk has the most bytes in common with it, how many, and the
// byte behind them. A text is held against those of the chunk in order: from what it has in common with one follows, for most, what it has in common
// with a later one. No byte of it is found to match twice in a chunk, so a chunk costs a text at most its length and 255 short steps.
//
// Most texts behind a chunk are none of the chunk's: so each text of the chunk has a hash, and a text behind it is held against the chunk only if
// its own hash, for which its bytes are read once, is one of those. A file gains nothing by equal hashes: its texts are then held against the chunk,
// at the cost above.
//
// The texts of a chunk have the numbers from 1 on. Number 0 is the empty text, so that every other number has one below it.

#![tactic(auto)]

ghost use Rattle.std.specs.Prelude.{◌≡◌, ◌+◌, ◌-◌, min, ◌≤◌, ◌<◌, length, get_or};
ghost use Rattle.repeats.specs.Repeats.{text_at, text_repeated, first_of};
ghost use Rattle.repeats.specs.Scan.{in_common, run_text, RunIn, RunOf, MetBy, Through, Kept, Held, Agreed, FirstRepeat, Gone};
ghost use Rattle.repeats.specs.Scan.{Told, hash_of, Hashed, NoneIs};

use blocks::view::View;
use common::text::Span;
use leads::lead::{Lead, lead_at};

// The texts of a chunk and the empty one.
const NUMBERS: usize = 256;

// The texts of a chunk.
const CHUNK: usize = 255;

// What is kept of a text of a chunk, beside how much it has in common with the text of a number below its own: that number, and the byte of its own
// behind what they have in common.
#[derive(Clone, Copy)]
struct Row {
    below: u8,
    mark: u8,
}

// A chunk of the texts, from the index `start` on: what is kept of each number under `count`.
#[derive(Drop)]
struct Chunk<'a> {
    image: &'a [u8],
    b: View,
    start: usize,
    count: usize,
    rows: [Row; NUMBERS],
    // How much the text of each number has in common with that below it. Beside the rows: within them it made each 16 bytes of which 6 are empty, and a
    // text of a chunk that is new took up to 1.3 times the time.
    shared: [usize; NUMBERS],
    ghost few: { (0 < count) × (count ≤ 256) × (start + count ≤ 65536) },
    ghost kept: { Kept image.now b start rows shared count },
}

// The run of the i-th text. No text is as an empty one.
fn run_at(image: &[u8], b: View, i: usize) -> Span
    ensures { RunOf image.now b i result }
{
    match lead_at(image, b, i as u64) {
        Lead::Words(run) => run,
        Lead::Nested(_) | Lead::Nil | Lead::Elsewhere => Span { from: 0, to: 0 },
    }
}

// The byte of a text at a place, and 0 at its end.
fn byte_at(image: &[u8], t: Span, i: usize) -> u8
    requires { RunIn image.now t × (i ≤ length (run_text image.now t)) }
    ensures { result ≡ get_or (run_text image.now t) i 0 }
{
    let p = t.from + i;
    if p < t.to { image[p] } else { 0 }
}

// Two texts that have their first `a` bytes in common, compared from there on: where they differ first, or none where they are the same.
fn compare(image: &[u8], x: Span, y: Span, a: usize) -> Option<usize>
    requires { RunIn image.now x × RunIn image.now y × (a ≤ in_common (run_text image.now x) (run_text image.now y)) }
    ensures { MetBy (run_text image.now x) (run_text image.now y) result }
{
    let mut i = a;
    // No `for`: the texts' ends show only on the way.
    loop {
        let c = byte_at(image, x, i);
        if c != byte_at(image, y, i) {
            return Some(i);
        }
        // Neither text has a zero byte: both end here.
        if c == 0 {
            return None;
        }
        i += 1;
    }
}

// The text q against the i-th, where q has `a` bytes in common with a third text, the i-th has `s`, and behind these the i-th has the byte `mark`.
// If a and s differ, the smaller is what q and the i-th have in common. Else one byte of q tells, for most, and only where it matches is the i-th
// text looked at.
fn meet(image: &[u8], b: View, q: Span, i: usize, a: usize, s: usize, mark: u8) -> Option<usize>
    requires { RunIn image.now q × Through (run_text image.now q) (text_at image.now b i) a s mark }
    ensures { MetBy (run_text image.now q) (text_at image.now b i) result }
{
    if a < s {
        return Some(a);
    }
    if s < a {
        return Some(s);
    }
    if byte_at(image, q, a) != mark {
        return Some(a);
    }
    let t = run_at(image, b, i);
    // Two references to one text block: it is not compared with itself.
    if t == q {
        return None;
    }
    compare(image, q, t, a)
}

// The hash of a text, 32 bits wide.
fn hash_of(image: &[u8], q: Span) -> u32
    requires { RunIn image.now q }
    ensures { result ≡ hash_of (run_text image.now q) }
{
    let mut h: u32 = 2166136261;
    for &byte in &image[q.from..q.to] {
        if byte == 0 {
            return h;
        }
        h = h.wrapping_mul(16777619).wrapping_add(u32::from(byte));
    }
    h
}

// Which of the first `count` is the largest. The proof needs only that it is one of them; that it is the largest makes the search quick.
fn largest(agree: &[usize], count: usize) -> usize
    requires { (0 < count) × (count ≤ length agree.now) }
    ensures { result < count }
{
    let mut best = 0;
    for k in 1..count {
        if agree[best] < agree[k] {
            best = k;
        }
    }
    best
}

// Whether one of the hashes is h. It does not stop at the first, so that the compiler can compare several at a time.
fn is_among(hashes: &[u32], h: u32) -> bool
    ensures { NoneIs hashes.now (length hashes.now) h result }
{
    let mut found = false;
    for &hash in hashes {
        found = found | (hash == h);
    }
    found
}

impl Chunk<'_> {
    ghost use Rattle.repeats.specs.Chunk.{SameTexts, Filled};

    // Whether the text q is that of a number. If not, what it has in common with each is put into `agree`.
    fn hold(&self, q: Span, agree: &mut [usize; NUMBERS]) -> bool
        requires { RunIn self.now.image.now q }
        ensures { Held self.now.image.now self.now.b self.now.start (run_text self.now.image.now q) agree.new self.now.count result }
    {
        // Read once: for all that the compiler knows, a write to `agree` could change them.
        let (image, b, start) = (self.image, self.b, self.start);
        agree[0] = 0;
        for k in 1..self.count {
            let row = self.rows[k];
            let a = agree[row.below as usize];
            match meet(image, b, q, start + k - 1, a, self.shared[k], row.mark) {
                Some(m) => {
                    agree[k] = m;
                }
                None => {
                    return true;
                }
            }
        }
        false
    }

    // The text q, which is new in the chunk and has been held against it, gets the next number.
    fn note(&mut self, q: Span, agree: &[usize; NUMBERS])
        requires room { (self.old.count < 256) × (self.old.start + self.old.count < 65536) }
        requires next { RunOf self.old.image.now self.old.b (self.old.start + self.old.count - 1) q }
        requires agreed { Agreed self.old.image.now self.old.b self.old.start (run_text self.old.image.now q) agree.now self.old.count }
        ensures { SameTexts self.old self.new × (self.new.count ≡ self.old.count + 1) }
    {
        let below = largest(agree, self.count);
        let shared = agree[below];
        self.rows[self.count] = Row {
            below: below as u8,
            mark: byte_at(self.image, q, shared),
        };
        self.shared[self.count] = shared;
        self.count += 1;
    }

    // The chunk's own texts, up to the index `stop`: the first that is equal to one before it, or `stop`. Where none is found the end is answered, here
    // and below, and not None: it bounds what is asked next.
    fn fill(&mut self, stop: usize, agree: &mut [usize; NUMBERS]) -> usize
        requires { (self.old.count ≡ 1) × (self.old.start ≤ stop) × (stop ≤ 65535) × (stop ≤ self.old.start + 255) }
        ensures { Filled self.old self.new stop result }
    {
        for i in self.start..stop {
            let q = run_at(self.image, self.b, i);
            if self.hold(q, agree) {
                return i;
            }
            self.note(q, agree);
        }
        stop
    }

    // The hashes of the chunk's texts, from 0 on, so that the machine can compare several at a time: the first is that of number 1. They are taken once it
    // is known that the chunk's own texts differ: where one comes again, no text is read for a hash.
    fn hash_all(&self, hashes: &mut [u32; NUMBERS])
        ensures { Hashed self.now.image.now self.now.b self.now.start (self.now.count - 1) hashes.new }
    {
        for k in 0..self.count - 1 {
            hashes[k] = hash_of(self.image, run_at(self.image, self.b, self.start + k));
        }
    }

    // Whether the text q is that of a number. Its hash tells, for most, that it is not.
    fn is_one_of(&self, hashes: &[u32; NUMBERS], q: Span, agree: &mut [usize; NUMBERS]) -> bool
        requires run { RunIn self.now.image.now q }
        requires hashed { Hashed self.now.image.now self.now.b self.now.start (self.now.count - 1) hashes.now }
        ensures { Told self.now.image.now self.now.b self.now.start (run_text self.now.image.now q) self.now.count result }
    {
        is_among(&hashes[..self.count - 1], hash_of(self.image, q)) && self.hold(q, agree)
    }

    // The texts behind the chunk, from the index `stop` on: the first under `bound` that is equal to one of the chunk's, or `bound`.
    fn search(
        &self,
        hashes: &[u32; NUMBERS],
        stop: usize,
        bound: usize,
        agree: &mut [usize; NUMBERS],
    ) -> usize
        requires stop { (stop + 1 ≡ self.now.start + self.now.count) × (stop ≤ bound) × (bound ≤ 65535) }
        requires hashed { Hashed self.now.image.now self.now.b self.now.start (self.now.count - 1) hashes.now }
        ensures { Gone self.now.image.now self.now.b self.now.start stop bound result }
    {
        for i in stop..bound {
            if self.is_one_of(hashes, run_at(self.image, self.b, i), agree) {
                return i;
            }
        }
        bound
    }
}

// The first text under `bound` that is equal to an earlier one of the chunk that begins at `start`, or `bound`.
fn repeat_of(image: &[u8], b: View, start: usize, bound: usize) -> usize
    requires { (start ≤ bound) × (bound ≤ 65535) }
    ensures { FirstRepeat image.now b start (start + 255) bound result }
{
    // Filled, here and below, with numbers that are known only at run time: with a constant, or with a byte, the compiler would call the C library's
    // memset, and the archive calls no library.
    let row = Row {
        below: (start % 256) as u8,
        mark: 0,
    };
    let mut chunk = Chunk {
        image,
        b,
        start,
        count: 1,
        rows: [row; NUMBERS],
        shared: [start; NUMBERS],
    };
    // Beside the chunk: within it the worst image took 7.18 s in place of 5.54 s.
    let mut agree = [start; NUMBERS];
    let stop = bound.min(start + CHUNK);
    let r = chunk.fill(stop, &mut agree);
    if r < stop {
        return r;
    }
    let mut hashes = [start as u32; NUMBERS];
    chunk.hash_all(&mut hashes);
    chunk.search(&hashes, stop, bound, &mut agree)
}

// The first of the n texts that is equal to an earlier one; n if there is none.
pub fn first_repeat(image: &[u8], b: View, n: usize) -> usize
    requires { n ≤ 65535 }
    ensures { result ≡ first_of (text_repeated image.now b) 0 n }
{
    let mut bound = n;
    let mut start = 0;
    // No `for`: the end falls from turn to turn.
    while start < bound {
        bound = repeat_of(image, b, start, bound);
        start += CHUNK;
    }
    bound
}
