// The values that a block stores.
ghost use Rattle.std.specs.Prelude.{◌+◌, ◌*◌, ◌<◌, ◌≤◌, length};

use crate::number::value_at;

// `count` values in the image, from the place `first` on. No slice of floats: the image has bytes, at any place.
#[derive(Clone, Copy)]
pub struct Values<'a> {
    pub image: &'a [u8],
    pub first: usize,
    pub count: usize,
    pub ghost inside: { first + count * 8 ≤ length image.now },
}

impl Values<'_> {
    ghost use Rattle.std.specs.Prelude.{◌≡◌};
    ghost use Rattle.words.specs.Words.{word64};
    ghost use Rattle.rules.specs.Stored.{stored_value};

    // The 64 bits of the i-th.
    pub(crate) fn word(self, i: usize) -> u64
        requires { i < self.count }
        ensures { result ≡ word64 self.entry.image.now (self.entry.first + i * 8) }
    {
        words::u64_at(self.image, self.first + i * 8)
    }

    pub(crate) fn at(self, i: usize) -> f64
        requires { i < self.count }
        ensures { result ≡ stored_value self.entry i }
    {
        value_at(self.image, self.first + i * 8)
    }
}
