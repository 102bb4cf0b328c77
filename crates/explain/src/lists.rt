ghost use Rattle.std.specs.Prelude.{◌≡◌, ◌≤◌, length};

use rows::Row;

/// The most rows of a list.
pub(crate) const ROWS: usize = 64;

/// How many rows the list of a goal has, and that of its negation.
#[derive(Clone, Copy, Debug, PartialEq, Eq)]
pub struct Lengths {
    pub own: usize,
    pub negated: usize,
}

/// The rows that explain something, and those that explain its negation.
#[derive(Clone, Copy)]
pub(crate) struct Lists<'a> {
    pub own: &'a [Row],
    pub negated: &'a [Row],
    ghost few: { (length own.now ≤ 64) × (length negated.now ≤ 64) },
}

impl Lists<'_> {
    ghost use Rattle.logic.specs.Atoms.{nothing, exchanged};
    ghost use Rattle.explain.specs.Lists.{lists_in, lengths_of};

    /// No rows at all.
    pub fn nothing() -> Self
        ensures { lists_in result ≡ nothing }
    {
        Lists {
            own: &[],
            negated: &[],
        }
    }

    /// The same of the negation.
    pub fn exchanged(self) -> Self
        ensures { lists_in result ≡ exchanged (lists_in self.entry) }
    {
        Lists {
            own: self.negated,
            negated: self.own,
        }
    }

    /// How many rows they have.
    pub fn lengths(self) -> Lengths
        ensures { result ≡ lengths_of (lists_in self.entry) }
    {
        Lengths {
            own: self.own.len(),
            negated: self.negated.len(),
        }
    }
}
