// What walking and applying need of a block: five numbers in place of the whole record. A block is looked at in four reads, and a
// view is passed on cheaply.
ghost use Rattle.std.specs.Prelude.{◌≡◌, ◌+◌, ◌≤◌};
ghost use Rattle.std.proofs.Math.ListN as ListN;
ghost use Rattle.blocks.specs.Place.{word_in};
ghost use Rattle.blocks.specs.View.{view_of, seen, reference_in, value_word_in, value_in};

use crate::{Block, has_range, less_fixed, range_size};

// The image stands beside a view and not within it: a record is read by place in any image, also in one that it was not parsed in (`reference_of`), and each
// definition has the image first.
// The counts stay beside their places, and are no struct of both: one is a u64 and the other a u16, by which a sum with eight times it fits.
#[derive(Clone, Copy)]
pub struct View {
    pub kind: u8,
    // The references past the four fixed links, and the place of the first.
    pub refs: u64,
    pub firstref: u64,
    // The values, and the place of the first.
    pub valcount: u16,
    pub firstval: u64,
}

// The word at the i-th of `count` places, eight bytes each, from `first` on, where that place is there and lies in the image.
#[tactic(auto, unfolding(crate::specs::Place::word_in))]
fn word_in(image: &[u8], first: u64, count: u64, i: u64) -> Option<u64>
    ensures { result ≡ word_in image.now first count i }
{
    if i < count && i < (image.len() as u64).saturating_sub(first) / 8 {
        Some(words::u64_at(image, (first + 8 * i) as usize))
    } else {
        None
    }
}

// The view of a block that was parsed.
impl From<Block> for View {
    ghost from_gives = { λ b view. view ≡ view_of b };

    fn from(b: Block) -> View {
        View {
            kind: b.kind,
            refs: less_fixed(b.links),
            firstref: b.firstref,
            valcount: b.valcount,
            firstval: b.firstval,
        }
    }
}

impl View {
    // The block at `at`, whose header lies in the image, if the image does not cut it off: only the link count, the value count, the block length and the type are read.
    pub fn look(image: &[u8], at: usize) -> Option<View>
        requires { at + 24 ≤ ListN.length image.now }
        ensures { result ≡ seen image.now at }
    {
        let links = words::u64_at(image, at + 16);
        let refs = less_fixed(links);
        let room = image.len() - at;
        if room < 64 {
            return None;
        }
        if (((room - 64) / 8) as u64) < refs {
            return None;
        }
        let place = at + 56 + 8 * (refs as usize);
        let valcount = words::u16_at(image, place + 6);
        let ranged = has_range(words::u64_at(image, at + 8), links, valcount);
        let firstval = place + 8 + range_size(ranged);
        if firstval + 8 * (valcount as usize) <= image.len() {
            Some(View {
                kind: image[place],
                refs,
                firstref: (at + 56) as u64,
                valcount,
                firstval: firstval as u64,
            })
        } else {
            None
        }
    }

    // The i-th reference.
    #[tactic(auto, unfolding(crate::specs::View::reference_in))]
    pub fn reference(self, image: &[u8], i: u64) -> Option<u64>
        ensures { result ≡ reference_in image.now self i }
    {
        word_in(image, self.firstref, self.refs, i)
    }

    // The i-th value's 64 bits.
    #[tactic(auto, unfolding(crate::specs::View::value_word_in))]
    pub fn value_word(self, image: &[u8], i: u64) -> Option<u64>
        ensures { result ≡ value_word_in image.now self i }
    {
        word_in(image, self.firstval, self.valcount as u64, i)
    }

    // The i-th value.
    #[tactic(auto, unfolding(crate::specs::View::value_in))]
    pub fn value(self, image: &[u8], i: u64) -> Option<f64>
        ensures { result ≡ value_in image.now self i }
    {
        Some(floats::from_bits(self.value_word(image, i)?))
    }
}
