// The header of a block. Carries over `BlockHeader` of common.rs.
ghost use Rattle.std.specs.Prelude.{◌≡◌, ◌+◌, ◌≤◌, length as length_of};
ghost use Rattle.common.specs.Header.{header_at, header_bytes, inside, is_conversion};
ghost use Rattle.words.specs.Words.{put};

// The 24 bytes that every block begins with.
#[derive(Clone, Copy)]
pub struct Header {
    pub id: u32,
    pub reserved: u32,
    pub length: u64,
    pub links: u64,
}

// An image and a place in it stay two parameters, and that a header lies there a clause: the walks keep places alone, of one image, so that a struct of
// both would be made, and its fact shown again, at each call.
impl Header {
    pub const SIZE: usize = 24;
    // "##CC" and "##TX" as little-endian numbers.
    pub const CONVERSION: u32 = 0x4343_2323;

    pub const TEXT: u32 = 0x5854_2323;

    // Whether a header at `address` lies in the image. The sum address + 24 is not made: it could wrap.
    #[tactic(auto, unfolding(crate::specs::Header::inside))]
    pub fn is_inside(image: &[u8], address: u64) -> bool
        ensures { result ≡ inside image.now address }
    {
        image.len() >= Header::SIZE && address <= (image.len() - Header::SIZE) as u64
    }

    // Whether the header at `at` is a conversion's.
    #[tactic(auto, unfolding(crate::specs::Header::is_conversion))]
    pub fn is_conversion(image: &[u8], at: usize) -> bool
        requires { at + 24 ≤ length_of image.now }
        ensures { result ≡ is_conversion image.now at }
    {
        words::u32_at(image, at) == Header::CONVERSION
    }

    #[tactic(auto, unfolding(crate::specs::Header::header_at))]
    pub fn read(image: &[u8], at: usize) -> Header
        requires { at + 24 ≤ length_of image.now }
        ensures { result ≡ header_at image.now at }
    {
        Header {
            id: words::u32_at(image, at),
            reserved: words::u32_at(image, at + 4),
            length: words::u64_at(image, at + 8),
            links: words::u64_at(image, at + 16),
        }
    }

    // Its bytes, from byte 0 of `out` on.
    pub fn put(self, out: &mut [u8])
        requires { 24 ≤ length_of out.old }
        ensures { out.new ≡ put out.old 0 (header_bytes self.id self.reserved self.length self.links) }
    {
        words::put_u32(out, 0, self.id);
        words::put_u32(out, 4, self.reserved);
        words::put_u64(out, 8, self.length);
        words::put_u64(out, 16, self.links);
    }
}
