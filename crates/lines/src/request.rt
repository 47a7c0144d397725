// What a call of the library is asked, the numbers that a request is read from, and asking it.
ghost use Rattle.std.specs.Prelude.{◌≡◌, ◌*◌, ◌%◌, ◌^◌, ◌≤◌, length, None};
ghost use Rattle.words.specs.Words.{words};

use conversion::logic::{Applied, apply};
use modes::apply_at;
use rules::number::Value;

// Those of a call that takes none.
const STANDARD_WIDTH: u32 = 64;

const STANDARD_EDITION: u32 = 420;

// The first numbers of 8 bytes each.
pub fn numbers<const N: usize>(bytes: &[u8]) -> [u64; N]
    requires { N * 8 ≤ length bytes.now }
    ensures { result ≡ words bytes.now 0 N }
{
    let mut all = [0; N];
    for (i, number) in all.iter_mut().enumerate() {
        *number = words::u64_at(bytes, 8 * i);
    }
    all
}

#[derive(Clone, Copy)]
pub struct Request {
    pub address: u64,
    pub value: Value,
    pub limit: u32,
    pub room: usize,
    pub width: Option<u32>,
    pub edition: Option<u32>,
}

impl Request {
    // Of a call with no width and no edition. The visit limit has 32 bits.
    pub fn new(address: u64, value: Value, limit: u64, room: u64) -> Self
        ensures address { result.address ≡ address }
        ensures value { result.value ≡ value }
        ensures limit { result.limit ≡ limit % 2 ^ 32 }
        ensures room { result.room ≡ room }
        ensures mode { (result.width ≡ None) × (result.edition ≡ None) }
    {
        Self {
            address,
            value,
            limit: (limit % 4294967296) as u32,
            room: room as usize,
            width: None,
            edition: None,
        }
    }

    // With a width or an edition the entry that takes both is asked, with the standard one in the place of one that is not given; else the one that
    // takes none.
    pub fn ask(self, image: &[u8], text: &[u8], out: &mut [u8]) -> Applied {
        let Request {
            address,
            value,
            limit,
            room: _,
            width,
            edition,
        } = self;
        if width.is_none() && edition.is_none() {
            return apply(image, address, limit, value, text, out);
        }
        let width = width.unwrap_or(STANDARD_WIDTH);
        let edition = edition.unwrap_or(STANDARD_EDITION);
        apply_at(edition, width, image, address, limit, value, text, out)
    }
}
