ghost use Rattle.std.specs.Prelude.{◌≡◌, Bool, true};
ghost use Rattle.model.specs.Literals.{alike, sooner, kind_of};
ghost use Rattle.model.specs.Laws.{literal_orders};

use rows::Ordered;

/// A literal as it is given: its kind, and its first and second number. Any three bytes can be given.
#[derive(Clone, Copy, Debug, PartialEq, Eq, PartialOrd, Ord)]
pub struct Literal {
    pub kind: u8,
    pub first: u8,
    pub second: u8,
}

/// What a literal says of its two numbers: that an atom is true, that it is not, that a choice is made, or that it is not.
#[derive(Clone, Copy, Debug, PartialEq, Eq)]
pub enum Kind {
    Atom,
    NotAtom,
    Choice,
    NotChoice,
}

impl Literal {
    /// What a place without a literal holds. It is no literal that a rule can have.
    pub(crate) const BLANK: Literal = Literal {
        kind: 0,
        first: 0,
        second: 0,
    };

    /// The kind that the first of the three bytes names; none where it is over 3.
    pub fn kind(&self) -> Option<Kind>
        ensures { result ≡ kind_of self.now.kind }
    {
        match self.kind {
            0 => Some(Kind::Atom),
            1 => Some(Kind::NotAtom),
            2 => Some(Kind::Choice),
            3 => Some(Kind::NotChoice),
            _ => None,
        }
    }
}

/// A literal is at or below itself alone. They stand by kind, then first, then second.
impl Ordered for Literal {
    ghost valid = { λ _. true };

    ghost below = { alike };

    ghost before = { sooner };

    ghost orders = { literal_orders };

    fn at_or_below(&self, other: &Literal) -> bool {
        self == other
    }

    fn precedes(&self, other: &Literal) -> bool {
        self < other
    }
}
