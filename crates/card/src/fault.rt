ghost use Rattle.std.specs.Prelude.{◌≡◌, Some};
ghost use Rattle.card.specs.Faults.{number, offset, place, refusal_text};

use model::Refusal;
use std::fmt;

/// Why a card is refused. Each case holds the offset that the refusal names.
#[derive(Clone, Copy, Debug, PartialEq, Eq)]
pub enum Fault {
    /// An alternative's number of choices is not 2 to 8.
    NumberOfChoices { offset: usize },
    /// A rule's body has more than 8 literals.
    NumberOfLiterals { offset: usize },
    /// A record's tag is unknown.
    UnknownTag { offset: usize },
    /// The card ends inside a tag or a record, or before its end record.
    EndsEarly { offset: usize },
    /// Bytes follow the end record.
    BytesAfterEnd { offset: usize },
    /// The model refuses what a record says.
    Refused { offset: usize, refusal: Refusal },
}

impl Fault {
    /// The number by which a refusal is known.
    pub fn number(&self) -> u8
        ensures { result ≡ number self.now }
    {
        match self {
            Fault::NumberOfChoices { .. } => 1,
            Fault::NumberOfLiterals { .. } => 3,
            Fault::UnknownTag { .. } => 6,
            Fault::EndsEarly { .. } => 7,
            Fault::BytesAfterEnd { .. } => 8,
            Fault::Refused { refusal, .. } => refusal.number(),
        }
    }

    /// Where on the card the refused record begins.
    pub fn offset(&self) -> usize
        ensures { result ≡ offset self.now }
    {
        match self {
            Fault::NumberOfChoices { offset }
            | Fault::NumberOfLiterals { offset }
            | Fault::UnknownTag { offset }
            | Fault::EndsEarly { offset }
            | Fault::BytesAfterEnd { offset }
            | Fault::Refused { offset, .. } => *offset,
        }
    }

    /// Which literal of the record is concerned; 0 for the head of a rule, or where none is.
    pub fn place(&self) -> usize
        ensures { result ≡ place self.now }
    {
        match self {
            Fault::Refused { refusal, .. } => refusal.place(),
            _ => 0,
        }
    }
}

/// The line of a refused card, without its end.
impl fmt::Display for Fault {
    ghost output = { λ f. Some (refusal_text f) };

    fn fmt<W: fmt::Write>(&self, f: &mut fmt::Formatter<W>) -> fmt::Result {
        let number = self.number();
        let offset = self.offset();
        let place = self.place();
        write!(f, "card {number} {offset} {place}")
    }
}
