// What an application says, with the number of blocks that it began and whether it consulted a malformed table.
ghost use Rattle.std.specs.Prelude.{◌≡◌};
ghost use Rattle.pieces.specs.Did.{quiet_of, counted_of, noted_of, said_of, told_of};

use common::text::Span;
use steps::plain::Plain;

// A text is said by where it runs in the image, with nothing written, or, where it was put together, by the place behind it, or one behind the
// room. `Formula` and `Broken` stop the application, and are no `Err`, as `steps::plain` says.
#[derive(Clone, Copy)]
pub enum Said {
    Number(f64),
    Words(Span),
    Text(usize),
    Unchanged,
    Unknown,
    Formula,
    Broken,
}

// `visits` stops at the largest u32. `malformed`: the table of a range to text that was consulted so far has length 0, 1 or an odd one.
#[derive(Clone, Copy)]
pub struct Outcome {
    pub said: Said,
    pub visits: u32,
    pub malformed: bool,
}

impl Outcome {
    // What is said with no block begun.
    pub fn quiet(said: Said) -> Outcome
        ensures { result ≡ quiet_of said }
    {
        Outcome {
            said,
            visits: 0,
            malformed: false,
        }
    }

    // The same, with one block more begun.
    pub fn counted(self) -> Outcome
        ensures { result ≡ counted_of self }
    {
        Outcome {
            visits: self.visits.saturating_add(1),
            ..self
        }
    }

    // The same, where a table was consulted too, which may be malformed.
    pub fn noting(self, malformed: bool) -> Outcome
        ensures { result ≡ noted_of malformed self }
    {
        Outcome {
            malformed: malformed | self.malformed,
            ..self
        }
    }
}

impl From<Plain> for Said {
    ghost from_gives = { λ p said. said ≡ said_of p };

    fn from(p: Plain) -> Said {
        match p {
            Plain::Number(x) => Said::Number(x),
            Plain::Words(run) => Said::Words(run),
            Plain::Unchanged => Said::Unchanged,
            Plain::Unknown => Said::Unknown,
            Plain::Formula => Said::Formula,
            Plain::Broken => Said::Broken,
        }
    }
}

// A plain answer as it is said. No `From`: an outcome is more than an answer, and this one says that nothing was begun.
pub fn told(p: Plain) -> Outcome
    ensures { result ≡ told_of p }
{
    Outcome::quiet(Said::from(p))
}
