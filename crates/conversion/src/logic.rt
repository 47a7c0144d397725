// One call checks an address and applies the conversion there to a value. Carries over the use of `resolve_all_dependencies_with_address`
// and `apply_decoded` one after the other; the crate's `String` is a lent output here.
//
// A text is known, or measured, before it is written, so that a refusal leaves the output as it was: one that is a part of the image is copied
// from there, and one that bit groups put together is written in a second pass.
ghost use Rattle.std.specs.Prelude.{◌≡◌, ◌+◌, ◌≤◌, length};
ghost use Rattle.words.specs.Words.{PartIn};
ghost use Rattle.common.specs.Text.{text_bytes};
ghost use Rattle.pieces.specs.Answer as says;
ghost use Rattle.pieces.specs.Did.{Says, SaidIn};
ghost use Rattle.pieces.specs.declared.said.Said.TheVariants.{Text};
ghost use Rattle.tree.specs.Walk.{checked as checked_tree};
ghost use Rattle.steps.specs.Mode.{standard};
ghost use Rattle.engine.specs.Apply.{applied as applied_to};
ghost use Rattle.conversion.specs.Laid.{Laid, Answered};
ghost use Rattle.conversion.specs.Entry.{refusal_number, address_in, call, settled, refused_before, applying};

use common::refusal::Refusal;
use common::text::Span;
use engine::apply as apply_block;
use pieces::paste::{Place, copy, measure, paste};
use pieces::said::Said;
use rules::number::Value;
use steps::mode::Mode;
use steps::step::Asked;
use tree::check;

// Document 01's answers. A refusal stands among them, and not in a Result beside them: docs/RULES.md has one enum, of which `refusal_number`,
// `address_in` and `answer_face` say each case, and a refusal of applying comes with N and M as every answer does.
#[derive(Clone, Copy)]
pub enum Answer {
    Number(f64),
    // The length of the text, which stands in the output from byte 0 on.
    Text(usize),
    Unchanged,
    Unknown,
    Refused(Refusal),
}

impl Answer {
    // The refusal's number; 0 where nothing is refused.
    pub fn refusal(self) -> u8
        ensures { result ≡ refusal_number self }
    {
        match self {
            Answer::Refused(refusal) => refusal.number(),
            _ => 0,
        }
    }

    // The address that refusals 1 to 6 and 18 carry.
    pub fn address(self) -> Option<u64>
        ensures { result ≡ address_in self }
    {
        match self {
            Answer::Refused(refusal) => refusal.address(),
            _ => None,
        }
    }
}

// The answer with the visits of the check, N, and of the application, M, and whether a malformed table of a range to text was consulted: its length is
// 0, 1 or odd. Where the check refuses, both numbers are 0 and no table was consulted.
#[derive(Clone, Copy)]
pub struct Applied {
    pub answer: Answer,
    pub checked: u32,
    pub applied: u32,
    pub malformed: bool,
}

impl Applied {
    // Refused before a block was applied.
    pub fn refused(refusal: Refusal) -> Applied
        ensures { result ≡ refused_before refusal }
    {
        Applied {
            answer: Answer::Refused(refusal),
            checked: 0,
            applied: 0,
            malformed: false,
        }
    }
}

// A text that runs in the image: it is looked at once, no further than one byte past the room, and then copied if it fits.
fn lay_run(image: &[u8], run: Span, address: u64, out: &mut [u8]) -> Answer
    requires { PartIn image.now run.from run.to }
    ensures { Answered address (says.text (text_bytes image.now run.from run.to)) out.old out.new result }
{
    let text = Span {
        to: measure(image, run, out.len(), 0),
        ..run
    };
    let size = text.to - text.from;
    if out.len() < size {
        return Answer::Refused(Refusal::Room);
    }
    copy(image, text, out, Place { pos: 0, lim: size });
    Answer::Text(size)
}

// What a writing pass says of its text: one that was put together stands in the output already.
fn lay_said(image: &[u8], said: Said, out: &mut [u8], lim: usize)
    requires { (lim ≤ length out.old) × SaidIn image.now said }
    ensures { Laid image.now lim out.old out.new said }
{
    if let Said::Words(run) = said {
        paste(image, run, out, Place { pos: 0, lim });
    }
}

// A text that bit groups put together, measured: a second pass writes it, if it fits.
fn write_text(asked: &Asked<'_>, address: u64, value: Value, size: usize, out: &mut [u8]) -> Answer
    requires { (address + 24 ≤ length asked.now.image.now)
        × Says asked.now.image.now (length out.old) 0 (applied_to 21 asked.now.mode asked.now.image.now asked.now.text.now address value).says (Text size) }
    ensures { Answered address (applied_to 21 asked.now.mode asked.now.image.now asked.now.text.now address value).says out.old out.new result }
{
    if out.len() < size {
        return Answer::Refused(Refusal::Room);
    }
    let x = apply_block(asked, address, value, 21, out, Place { pos: 0, lim: size });
    lay_said(asked.image, x.said, out, size);
    Answer::Text(size)
}

// What the measuring pass has said, as document 01's answer; a text goes to the output.
fn settle(asked: &Asked<'_>, address: u64, value: Value, said: Said, out: &mut [u8]) -> Answer
    requires { (address + 24 ≤ length asked.now.image.now)
        × Says asked.now.image.now (length out.old) 0 (applied_to 21 asked.now.mode asked.now.image.now asked.now.text.now address value).says said }
    ensures { Answered address (applied_to 21 asked.now.mode asked.now.image.now asked.now.text.now address value).says out.old out.new result }
{
    match said {
        Said::Words(run) => lay_run(asked.image, run, address, out),
        Said::Text(size) => write_text(asked, address, value, size, out),
        Said::Number(x) => Answer::Number(x),
        Said::Unchanged => Answer::Unchanged,
        Said::Unknown => Answer::Unknown,
        Said::Formula => Answer::Refused(Refusal::Formula),
        // An accepted check rules this out.
        Said::Broken => Answer::Refused(Refusal::Short(address)),
    }
}

// After a check that was accepted with n visits.
fn apply_checked(
    asked: &Asked<'_>,
    address: u64,
    limit: u32,
    n: u32,
    value: Value,
    out: &mut [u8],
) -> Applied
    requires { checked_tree asked.now.image.now address limit ≡ Ok n }
    ensures { call result out.new
        ≡ settled n address (applied_to 21 asked.now.mode asked.now.image.now asked.now.text.now address value) out.old }
{
    let x = apply_block(asked, address, value, 21, out, Place { pos: 0, lim: 0 });
    let answer = settle(asked, address, value, x.said, out);
    Applied {
        answer,
        checked: n,
        applied: x.visits,
        malformed: x.malformed,
    }
}

// In any mode. The parameters of both entries are those of the exports; within, what goes together is `Asked`.
pub fn apply_in(
    mode: Mode,
    image: &[u8],
    address: u64,
    limit: u32,
    value: Value,
    text: &[u8],
    out: &mut [u8],
) -> Applied
    ensures { call result out.new ≡ applying mode image.now address limit value text.now out.old }
{
    match check(image, address, limit) {
        Ok(n) => {
            let asked = Asked { mode, image, text };
            apply_checked(&asked, address, limit, n, value, out)
        }
        Err(refusal) => Applied::refused(refusal),
    }
}

// The conversion at an address of an image, checked with at most `limit` visits and applied to a value. A text value's bytes are `text`; a text
// answer goes to `out`.
pub fn apply(
    image: &[u8],
    address: u64,
    limit: u32,
    value: Value,
    text: &[u8],
    out: &mut [u8],
) -> Applied
    ensures { call result out.new ≡ applying standard image.now address limit value text.now out.old }
{
    apply_in(Mode::standard(), image, address, limit, value, text, out)
}
