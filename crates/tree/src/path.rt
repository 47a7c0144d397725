// The way from the root of a conversion tree down to the block at hand.
ghost use Rattle.std.specs.Prelude.{◌≤◌, length};

use blocks::Block;

// The blocks on the longest path: depths 0 to 20.
pub const LEVELS: usize = Block::DEPTH as usize + 1;

// The addresses of the blocks on the path, each at its depth: the first `depth` places. What stands behind them is written over and never read.
// An array and no Vec: no heap in the library.
#[derive(Drop)]
pub struct Path {
    pub addresses: [u64; LEVELS],
    pub depth: usize,
    pub ghost inside: { depth ≤ length addresses },
}

impl Path {
    ghost use Rattle.std.specs.Prelude.{◌≡◌, ◌+◌, ◌<◌, [], ◌∷◌, ◌++◌, take};
    ghost use Rattle.tree.specs.Walk.{on};
    ghost use Rattle.tree.specs.Path.{walked};

    // At the root, before any block.
    pub fn new() -> Self
        ensures place { result.depth ≡ 0 }
        ensures path { walked result ≡ [] }
    {
        Path {
            addresses: [0; LEVELS],
            depth: 0,
        }
    }

    pub fn contains(&self, a: u64) -> bool
        ensures { result ≡ on a (walked self.now) }
    {
        self.addresses[..self.depth].iter().any(|x| *x == a)
    }

    // One block further down.
    pub fn push(&mut self, a: u64)
        requires { self.old.depth < 21 }
        ensures place { self.new.depth ≡ self.old.depth + 1 }
        ensures path { walked self.new ≡ walked self.old ++ (a ∷ []) }
    {
        self.addresses[self.depth] = a;
        self.depth += 1;
    }

    // Back up to the block before.
    pub fn pop(&mut self)
        requires { 0 < self.old.depth }
        ensures place { self.new.depth + 1 ≡ self.old.depth }
        ensures path { walked self.new ≡ take self.new.depth (walked self.old) }
    {
        self.depth -= 1;
    }
}
