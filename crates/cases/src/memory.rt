// The one memory that the commands build and ask of.
use lines::build::{Unit, put};
use lines::parts::{part, word};

// 600000 bytes, in which a block of 65535 values has room, and behind them the numbers that the cases share. A command may write and read these by
// their places, as all other bytes, so they are no fields.
#[derive(Drop)]
pub struct Memory {
    pub bytes: [u8; 600056],
}

// The address, the visit limit, the room, the width and the edition of a call, the size of the image, and the count of the values that the rules are
// asked with.
pub const ADDRESS: usize = 600000;

const LIMIT: usize = 600008;

const ROOM: usize = 600016;

const WIDTH: usize = 600024;

const EDITION: usize = 600032;

const SIZE: usize = 600040;

const COUNT: usize = 600048;

impl Memory {
    // Each byte is 170 at first.
    pub fn new() -> Self {
        Memory {
            bytes: [170; 600056],
        }
    }

    fn shared(&self, place: usize) -> u64 {
        word(&self.bytes, place)
    }

    pub fn address(&self) -> u64 {
        self.shared(ADDRESS)
    }

    pub fn limit(&self) -> u32 {
        (self.shared(LIMIT) % 4294967296) as u32
    }

    pub fn room(&self) -> usize {
        self.shared(ROOM) as usize
    }

    // From 2^32 on a width or an edition is none.
    pub fn width(&self) -> Option<u32> {
        u32::try_from(self.shared(WIDTH)).ok()
    }

    pub fn edition(&self) -> Option<u32> {
        u32::try_from(self.shared(EDITION)).ok()
    }

    pub fn image(&self) -> &[u8] {
        part(&self.bytes, 0, self.shared(SIZE) as usize)
    }

    pub fn set_size(&mut self, size: u64) {
        put(&mut self.bytes, SIZE, size, Unit::Word);
    }

    pub fn count(&self) -> usize {
        self.shared(COUNT) as usize
    }

    pub fn set_count(&mut self, count: usize) {
        put(&mut self.bytes, COUNT, count as u64, Unit::Word);
    }
}
