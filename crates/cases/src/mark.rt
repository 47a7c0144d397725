// The commands among what is written as it is.
ghost use Rattle.std.specs.Prelude.{◌<◌, length, IfSome};

// How a command is marked.
#[derive(Clone, Copy, Debug, PartialEq, Eq)]
pub enum Mark {
    // By ! to the end of the line.
    Line,
    // By braces, in whose place its answer stands.
    Braces,
}

impl Mark {
    // No TryFrom: where a byte is no mark, nothing has failed.
    fn of(byte: u8) -> Option<Mark> {
        match byte {
            b'!' => Some(Mark::Line),
            b'{' => Some(Mark::Braces),
            _ => None,
        }
    }

    // What ends a command with this mark.
    fn end(self) -> u8 {
        match self {
            Mark::Line => b'\n',
            Mark::Braces => b'}',
        }
    }
}

// A command, and what stands before it and behind it.
#[derive(Clone, Copy)]
pub struct Marked<'a> {
    pub before: &'a [u8],
    pub mark: Mark,
    pub command: &'a [u8],
    pub behind: &'a [u8],
}

// The first command.
pub fn next(s: &[u8]) -> Option<Marked<'_>>
    ensures { IfSome result (λ marked. length marked.behind.now < length s.now) }
{
    let from = s.iter().position(|b| Mark::of(*b).is_some())?;
    let (before, marked) = s.split_at(from);
    let (first, others) = marked.split_first()?;
    let mark = Mark::of(*first)?;
    let end = others.iter().position(|b| *b == mark.end());
    let (command, ended) = others.split_at(end.unwrap_or(others.len()));
    Some(Marked {
        before,
        mark,
        command,
        behind: ended.get(1..).unwrap_or(ended),
    })
}
