// Bytes put into the output. Places stop one behind the room, so that no image can wrap them.
ghost use Rattle.std.specs.Prelude.{◌≡◌, [], ◌∷◌, ◌+◌, ◌-◌, ◌≤◌, ◌<◌, min, length};
ghost use Rattle.words.specs.Words.{part, PartIn};
ghost use Rattle.common.specs.Text.{text_bytes};
ghost use Rattle.pieces.specs.Write.{Wrote, PlaceIn, Put};

use common::text::{Span, text_end};

// Where bytes go in an output: from `pos` on, and nothing from `lim` on. It stands beside the output: a struct that held the output too would have to
// say in each contract that it holds the same one as before.
#[derive(Clone, Copy)]
pub struct Place {
    pub pos: usize,
    pub lim: usize,
}

// One byte.
pub fn paste_byte(b: u8, out: &mut [u8], place: Place) -> Place
    requires { PlaceIn out.old place }
    ensures { Put out.old out.new place (b ∷ []) result }
{
    if place.pos < place.lim {
        out[place.pos] = b;
    }
    if out.len() < place.pos {
        return place;
    }
    Place {
        pos: place.pos + 1,
        ..place
    }
}

// How far a text's run is looked at, if it is to stand at `pos`: no further than one byte past the room.
fn reach(run: Span, room: usize, pos: usize) -> usize
    requires { run.from ≤ run.to }
    ensures { result ≡ min run.to (run.from + (room + 1 - pos)) }
{
    if room < pos {
        return run.from;
    }
    if run.to - run.from <= room - pos {
        run.to
    } else {
        run.from + (room - pos) + 1
    }
}

// The end of a text that is to stand at `pos`, or one byte past the room.
pub fn measure(image: &[u8], run: Span, room: usize, pos: usize) -> usize
    requires { PartIn image.now run.from run.to }
    ensures { result ≡ run.from + min (length (text_bytes image.now run.from run.to)) (room + 1 - pos) }
{
    let seen = Span {
        to: reach(run, room, pos),
        ..run
    };
    text_end(image, seen)
}

// The bytes of a part of the image. It stops at `lim`: measuring takes no time. No call of the C library's memcpy comes of this loop: the compiler cannot
// tell that the two slices share no byte.
pub fn copy(image: &[u8], span: Span, out: &mut [u8], place: Place)
    requires { (place.lim ≤ length out.old) × PartIn image.now span.from span.to }
    ensures { Wrote out.old out.new place.pos place.lim (part image.now span.from span.to) }
{
    let n = (span.to - span.from).min(place.lim.saturating_sub(place.pos));
    for i in 0..n {
        out[place.pos + i] = image[span.from + i];
    }
}

// The text that may run in a part of the image.
pub fn paste(image: &[u8], run: Span, out: &mut [u8], place: Place) -> Place
    requires { PlaceIn out.old place × PartIn image.now run.from run.to }
    ensures { Put out.old out.new place (text_bytes image.now run.from run.to) result }
{
    let end = measure(image, run, out.len(), place.pos);
    let text = Span { to: end, ..run };
    copy(image, text, out, place);
    Place {
        pos: place.pos + (end - run.from),
        ..place
    }
}
