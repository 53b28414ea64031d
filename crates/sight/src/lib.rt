// Cells and groups: what literals, arrays and groups do (document 01, "Cells and operations").

#![tactic(auto)]

ghost use Rattle.std.specs.Prelude.{◌≡◌, List, ℕ, ◌+◌, ◌<◌, ◌≤◌, Ok, OnErr};
ghost use Rattle.chars.specs.Limits.{limits};
ghost use Rattle.rules.specs.Cells.{push as push_of, hide as hide_of, show as show_of};
ghost use Rattle.rules.specs.Kinds.{kinds};
ghost use Rattle.sight.specs.Arrays.{cell_of, plain_of};
ghost use Rattle.sight.specs.Stacks.{cells_in, state_in, sight_in, Hidden, Stands, Agrees};
ghost use Rattle.sight.specs.Stacks.{SameCells, SameGroups, SameNames};

use chars::refusal::Refusal;
use names::Index;

pub mod row;

// Cells on the stack, hidden ones counted.
pub const CELLS: usize = 1024;

// Kinds of cells are below it, and a cell of a count is so much more than the count. A cell stays a number, since a house has kinds of its
// own, and `plain` and `push` promise what they do of every number.
pub const KINDS: u64 = 16;

// How many cells are hidden, how many in sight, how many groups are open, and how many names defined.
#[derive(Clone, Copy, Debug, PartialEq, Eq)]
pub struct Counts {
    pub base: usize,
    pub seen: usize,
    pub depth: usize,
    pub names: usize,
}

impl Counts {
    // The same groups and names, with other cells in sight.
    pub fn with_seen(self, seen: usize) -> Counts
        ensures { result ≡ record { base = self.base; seen = seen; depth = self.depth; names = self.names } }
    {
        Counts { seen, ..self }
    }
}

// What a check holds: its cells, what `base` was outside of each open group, the index of its names and what each of them is
// (specs/Arrays.antt). Arrays of a fixed size have their counts beside them, for there is no heap. That they stand for a state
// (specs/Stacks.antt, `Stands`) is no invariant of the type: `push`, `hide` and `show` promise to ask less than that.
#[derive(Drop)]
pub struct Stack {
    pub cells: [u64; 1024],
    pub bases: [u32; 64],
    pub index: Index,
    pub whats: [u64; 128],
    pub counts: Counts,
}

// The kind of a cell: a count is a number.
pub fn plain(c: u64) -> u64
    ensures { (result ≡ plain_of c) × (result < 16) }
{
    if c < KINDS { c } else { 0 }
}

impl Stack {
    // One cell more (29).
    pub fn push(&mut self, c: u64) -> Result<(), Refusal>
        requires { cells_in self.old ≤ 1024 }
        ensures answer { (text : List ℕ) → Stands text self.old
            → Agrees (push_of limits kinds (state_in text self.old) (cell_of c)) text self.new result }
        ensures err { OnErr result (self.new ≡ self.old) }
        ensures kept { SameGroups self.old self.new × SameNames self.old self.new }
    {
        let s = self.counts;
        let top = s.base + s.seen;
        if CELLS <= top {
            return Err(Refusal::TooManyCells);
        }
        self.cells[top] = c;
        self.counts = s.with_seen(s.seen + 1);
        Ok(())
    }

    // Begin group hides all cells.
    pub fn hide(&mut self)
        requires { (self.old.counts.depth < 64) × (cells_in self.old ≤ 1024) }
        ensures answer { (text : List ℕ) → Stands text self.old
            → Agrees (hide_of limits kinds (state_in text self.old)) text self.new (Ok tt) }
        ensures kept { SameCells self.old self.new × SameNames self.old self.new }
    {
        let s = self.counts;
        self.bases[s.depth] = s.base as u32;
        self.counts = Counts {
            base: s.base + s.seen,
            seen: 0,
            depth: s.depth + 1,
            ..s
        };
    }

    // End group needs exactly one cell in sight (28), then shows the hidden ones again.
    pub fn show(&mut self) -> Result<(), Refusal>
        requires { (0 < self.old.counts.depth) × Hidden self.old × (cells_in self.old ≤ 1024) }
        ensures answer { (text : List ℕ) → Stands text self.old
            → Agrees (show_of limits kinds (state_in text self.old) (sight_in self.old)) text self.new result }
        ensures err { OnErr result (self.new ≡ self.old) }
        ensures kept { SameCells self.old self.new × SameGroups self.old self.new × SameNames self.old self.new }
    {
        let s = self.counts;
        if s.seen != 1 {
            return Err(Refusal::NotOneCell);
        }
        let depth = s.depth - 1;
        let base = self.bases[depth] as usize;
        self.counts = Counts {
            base,
            seen: s.base + 1 - base,
            depth,
            ..s
        };
        Ok(())
    }
}
