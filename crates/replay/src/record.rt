// A record of the input, read into the buffer and taken from it.
use lines::input::read_full;
use lines::parts::{part, room};
use lines::request::{Request, numbers};
use lines::value::Kind;
use std::io::Read;

// Room for a record.
pub const BUFFER: usize = 65536;

// The numbers before a record's text and image: what is asked, and where the text and the image end.
#[derive(Clone, Copy)]
struct Head {
    request: Request,
    text_end: usize,
    image_end: usize,
}

impl Head {
    // Their bytes.
    const SIZE: usize = 56;

    // Those at the start of the buffer.
    fn new(buffer: &[u8; BUFFER]) -> Self {
        let [address, kind, bits, limit, room, text, image] = numbers::<7>(buffer);
        let text_end = Self::SIZE.wrapping_add(text as usize);
        Self {
            request: Request::new(address, Kind::from(kind).value(bits), limit, room),
            text_end,
            image_end: text_end.wrapping_add(image as usize),
        }
    }
}

#[derive(Clone, Copy)]
pub struct Record<'a> {
    pub request: Request,
    pub text: &'a [u8],
    pub image: &'a [u8],
}

impl<'a> Record<'a> {
    // The record at the start of the buffer. A text or an image that the buffer does not have is all of it.
    pub fn new(buffer: &'a [u8; BUFFER]) -> Self {
        let head = Head::new(buffer);
        let (text_end, image_end) = (head.text_end, head.image_end);
        Self {
            request: head.request,
            text: part(buffer, Head::SIZE, text_end),
            image: part(buffer, text_end, image_end),
        }
    }
}

// Reads a record to the start of the buffer: its numbers, and what they say is behind them, for which all of the buffer is read where it has no such part.
// Answers whether the record was there, whole.
pub fn read(input: &mut impl Read, buffer: &mut [u8; BUFFER]) -> bool {
    let head = read_full(input, &mut buffer[..Head::SIZE]);
    let end = Head::new(buffer).image_end;
    let rest = read_full(input, room(buffer, Head::SIZE, end));
    head.wrapping_add(rest) == end
}
