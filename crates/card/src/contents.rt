ghost use Rattle.std.specs.Prelude.{◌≡◌, List, Some, Ok, MatchResult};
ghost use Rattle.card.specs.Encoding.{Entry};
ghost use Rattle.card.specs.Walking.{walked, answered, counted, nothing, contents_text, Whole, Broken};

use crate::{Fault, Reader, Record};
use std::fmt;

/// What is on a card.
#[derive(Clone, Copy, Debug, PartialEq, Eq)]
pub struct Contents {
    pub alternatives: usize,
    pub rules: usize,
}

impl fmt::Display for Contents {
    ghost output = { λ c. Some (contents_text c) };

    fn fmt<W: fmt::Write>(&self, f: &mut fmt::Formatter<W>) -> fmt::Result {
        write!(f, "alternatives {} rules {}", self.alternatives, self.rules)
    }
}

/// Walks over a card to its end, and counts what is on it. An accepted card is exactly the encodings of its records, and
/// every card that is exactly the encodings of records is accepted.
pub fn walk(card: &[u8]) -> Result<Contents, Fault>
    ensures defined { result ≡ answered nothing (walked card.now).records (walked card.now).fault }
    ensures law { MatchResult result (λ c. (es : List Entry) × Whole card.now es × (c ≡ counted nothing es)) (λ f. (es : List Entry) × Broken card.now es f) }
    ensures each { (es : List Entry) → Whole card.now es → result ≡ Ok (counted nothing es) }
{
    let mut reader = Reader::new(card);
    let mut contents = Contents {
        alternatives: 0,
        rules: 0,
    };
    loop {
        match reader.next_record()? {
            Record::Alternative { .. } => contents.alternatives += 1,
            Record::Rule { .. } => contents.rules += 1,
            Record::End => return Ok(contents),
        }
    }
}
