// Parts of slices, and bytes and words found in them. Where a slice does not have the part, all of it is taken; a byte or a word that it
// does not have is 0.

pub fn part<T>(s: &[T], from: usize, to: usize) -> &[T] {
    s.get(from..to).unwrap_or(s)
}

// Not by `get_mut`: a part that is lent and handed back on one path alone gets no proof.
pub fn room(s: &mut [u8], from: usize, to: usize) -> &mut [u8] {
    if from <= to && to <= s.len() {
        return &mut s[from..to];
    }
    s
}

pub fn byte(s: &[u8], at: usize) -> u8 {
    s.get(at).copied().unwrap_or(0)
}

pub fn word(s: &[u8], at: usize) -> u64 {
    match s.get(at..) {
        Some(rest) if 8 <= rest.len() => words::u64_at(rest, 0),
        _ => 0,
    }
}
