// What a request of the input asks.
use lines::request::{Request, numbers};
use lines::value::Kind;
use rules::number::Value;

// The number of the kind of a text that is asked back, which the input has and no value is of.
const BACK: u64 = 5;

#[derive(Clone, Copy)]
pub enum Asked<'a> {
    // A value is converted, with the text of one that is a text.
    Value(Request, &'a [u8]),
    // A text is asked back.
    Back {
        address: u64,
        limit: u32,
        text: &'a [u8],
    },
}

impl<'a> Asked<'a> {
    // The bytes of a request.
    pub const SIZE: usize = 72;

    // A text that is longer than its 16 bytes is the whole request.
    pub fn new(bytes: &'a [u8; Asked::SIZE]) -> Self {
        let [address, kind, bits, limit, room, width, edition] = numbers::<7>(bytes);
        let text = bytes[56..].get(..bits as usize).unwrap_or(bytes);
        let request = Request {
            width: u32::try_from(width).ok(),
            edition: u32::try_from(edition).ok(),
            ..Request::new(address, Kind::from(kind).value(bits), limit, room)
        };
        match request.value {
            _ if kind == BACK => Asked::Back {
                address,
                limit: request.limit,
                text,
            },
            Value::Text => Asked::Value(request, text),
            _ => Asked::Value(request, &[]),
        }
    }
}
