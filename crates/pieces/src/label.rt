// What stands before a part of a bit group's text: "|" between two parts, and the nested block's name with " = ". Carries over the naming
// and joining of bitfield.rs.
ghost use Rattle.std.specs.Prelude.{◌≡◌, ◌++◌, ◌+◌, ◌≤◌, length};
ghost use Rattle.pieces.specs.Label.{name_at, bar, equals, name_by, label as label_of};
ghost use Rattle.pieces.specs.Write.{PlaceIn, Put};

use crate::paste::{Place, paste, paste_byte};
use common::text::{Span, run_of};

// Where the name of the block at `at` may run: the first of its four fixed links leads to it, where the image goes so far.
fn name_at(image: &[u8], at: u64) -> Option<Span>
    requires { at + 24 ≤ length image.now }
    ensures { result ≡ name_at image.now at }
{
    let from = at as usize;
    if image.len() - from < 32 {
        return None;
    }
    run_of(image, words::u64_at(image, from + 24))
}

pub fn paste_bar(started: bool, out: &mut [u8], place: Place) -> Place
    requires { PlaceIn out.old place }
    ensures { Put out.old out.new place (bar started) result }
{
    if started {
        paste_byte(b'|', out, place)
    } else {
        place
    }
}

fn paste_equals(out: &mut [u8], place: Place) -> Place
    requires { PlaceIn out.old place }
    ensures { Put out.old out.new place equals result }
{
    let space = paste_byte(b' ', out, place);
    let sign = paste_byte(b'=', out, space);
    paste_byte(b' ', out, sign)
}

// The name of the block at `at` and " = ", if it has a name.
fn paste_name(image: &[u8], at: u64, out: &mut [u8], place: Place) -> Place
    requires { PlaceIn out.old place × (at + 24 ≤ length image.now) }
    ensures { Put out.old out.new place (name_by image.now (name_at image.now at)) result }
{
    match name_at(image, at) {
        Some(run) => {
            let behind = paste(image, run, out, place);
            paste_equals(out, behind)
        }
        None => place,
    }
}

// All that stands before the part that the block at `at` gives.
pub fn paste_label(image: &[u8], at: u64, started: bool, out: &mut [u8], place: Place) -> Place
    requires { PlaceIn out.old place × (at + 24 ≤ length image.now) }
    ensures { Put out.old out.new place (bar started ++ label_of image.now at) result }
{
    let behind = paste_bar(started, out, place);
    paste_name(image, at, out, behind)
}
