ghost use Rattle.std.specs.Prelude.{◌≡◌};
ghost use Rattle.model.specs.Refusals.{number, place};

/// Why a call says no. A `place` is that of the literal concerned, as given and counted from 1; 0 is the head, the goal, or
/// a call without literals.
#[derive(Clone, Copy, Debug, PartialEq, Eq)]
pub enum Refusal {
    /// An alternative's number of choices is not 2 to 8.
    NumberOfChoices,
    /// An atom is not 1 to 24.
    NoAtom { place: usize },
    /// A body has more than 8 literals, repeats counted.
    NumberOfLiterals,
    /// A kind is over 3, or an atom's second number is not 0.
    NoLiteral { place: usize },
    /// An atom in a body is not lower than the head.
    NotLower { place: usize },
    /// A result list, the workspace or the report buffer is shorter than stated.
    ShortSpace,
    /// The buffer is shorter than the card to be written.
    ShortBuffer,
    /// Sixteen alternatives are held.
    NumberOfAlternatives,
    /// An alternative or choice is not declared.
    NotDeclared { place: usize },
    /// The rules would pass 128.
    NumberOfRules,
    /// The alternative is already supposed.
    AlreadySupposed,
    /// A supposition is not declared in this model.
    ForeignSupposition,
    /// A list of rows would hold a 65th while this atom is worked.
    TooManyRows { atom: u8 },
}

impl Refusal {
    /// The number by which a refusal is known.
    pub fn number(&self) -> u8
        ensures { result ≡ number self.now }
    {
        match self {
            Refusal::NumberOfChoices => 1,
            Refusal::NoAtom { .. } => 2,
            Refusal::NumberOfLiterals => 3,
            Refusal::NoLiteral { .. } => 4,
            Refusal::NotLower { .. } => 5,
            Refusal::ShortSpace => 9,
            Refusal::ShortBuffer => 10,
            Refusal::NumberOfAlternatives => 11,
            Refusal::NotDeclared { .. } => 12,
            Refusal::NumberOfRules => 13,
            Refusal::AlreadySupposed => 14,
            Refusal::ForeignSupposition => 15,
            Refusal::TooManyRows { .. } => 16,
        }
    }

    /// Which literal is concerned, or which atom.
    pub fn place(&self) -> usize
        ensures { result ≡ place self.now }
    {
        match self {
            Refusal::NoAtom { place }
            | Refusal::NoLiteral { place }
            | Refusal::NotLower { place }
            | Refusal::NotDeclared { place } => *place,
            Refusal::TooManyRows { atom } => *atom as usize,
            _ => 0,
        }
    }
}
