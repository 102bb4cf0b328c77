ghost use Rattle.std.specs.Prelude.{◌≡◌, ◌+◌, ◌^◌, ◌<◌, ◌≤◌, length, take, drop, MatchResult};
ghost use Rattle.card.specs.Encoding.{encoding, weight};
ghost use Rattle.card.specs.Reading.{entry, step, told, moved, front, after_al, after_ru, after_en};

use crate::Fault;

/// A record of a card. Its weights and literals are parts of the card.
#[derive(Clone, Copy)]
pub enum Record<'a> {
    /// An alternative: the raw weight of each choice, as four bytes.
    Alternative { weights: &'a [u8] },
    /// A rule: its head, and each literal of its body, as three bytes.
    Rule { head: u8, literals: &'a [u8] },
    /// The end of the card.
    End,
}

impl Record<'_> {
    /// How many bytes a record has on its card.
    fn size(&self) -> usize
        requires { length (encoding (entry self.now)) < 2 ^ 64 }
        ensures { result ≡ length (encoding (entry self.now)) }
    {
        match self {
            Record::Alternative { weights } => 3 + weights.len(),
            Record::Rule { literals, .. } => 4 + literals.len(),
            Record::End => 2,
        }
    }
}

/// Walks over a card, record by record.
#[derive(Clone, Copy)]
pub struct Reader<'a> {
    card: &'a [u8],
    offset: usize,
}

impl<'a> Reader<'a> {
    /// At the start of `card`.
    pub fn new(card: &'a [u8]) -> Reader<'a>
        ensures card { result.card.now ≡ card.now }
        ensures start { result.offset ≡ 0 }
    {
        Reader { card, offset: 0 }
    }

    /// How many bytes of the card have been read.
    pub fn offset(&self) -> usize
        ensures { result ≡ self.now.offset }
    {
        self.offset
    }

    /// The record at the offset, and goes on to the next; or the fault there, and stays.
    pub fn next_record(&mut self) -> Result<Record<'a>, Fault>
        ensures card { self.new.card ≡ self.old.card }
        ensures read { told result ≡ step self.old.card.now self.old.offset }
        ensures offset { self.new.offset ≡ self.old.offset + moved (told result) }
    {
        let record = self.record()?;
        self.offset += record.size();
        Ok(record)
    }

    /// The record at the offset.
    fn record(&self) -> Result<Record<'a>, Fault>
        ensures { told result ≡ step self.now.card.now self.now.offset }
    {
        let offset = self.offset;
        match self.rest() {
            [b'A', b'L', body @ ..] => self.alternative(body),
            [b'R', b'U', body @ ..] => self.rule(body),
            [b'E', b'N'] => Ok(Record::End),
            [b'E', b'N', ..] => Err(Fault::BytesAfterEnd { offset: offset + 2 }),
            [_, _, ..] => Err(Fault::UnknownTag { offset }),
            _ => Err(Fault::EndsEarly { offset }),
        }
    }

    /// The bytes from the offset on; none where it lies past the end.
    fn rest(&self) -> &'a [u8]
        ensures { result.now ≡ drop self.now.offset self.now.card.now }
    {
        self.card.get(self.offset..).unwrap_or(&[])
    }

    /// An alternative out of the bytes after its tag.
    fn alternative(&self, body: &'a [u8]) -> Result<Record<'a>, Fault>
        ensures { told result ≡ after_al self.now.offset body.now }
    {
        let offset = self.offset;
        let [choices, rest @ ..] = body else {
            return Err(Fault::EndsEarly { offset });
        };
        if !(2..=8).contains(choices) {
            return Err(Fault::NumberOfChoices { offset });
        }
        let weights = self.part(rest, 4 * *choices as usize)?;
        Ok(Record::Alternative { weights })
    }

    /// A rule out of the bytes after its tag.
    fn rule(&self, body: &'a [u8]) -> Result<Record<'a>, Fault>
        ensures { told result ≡ after_ru self.now.offset body.now }
    {
        let offset = self.offset;
        let [head, literals, rest @ ..] = body else {
            return Err(Fault::EndsEarly { offset });
        };
        if *literals > 8 {
            return Err(Fault::NumberOfLiterals { offset });
        }
        let literals = self.part(rest, 3 * *literals as usize)?;
        Ok(Record::Rule {
            head: *head,
            literals,
        })
    }

    /// The first `size` bytes, which belong to the record at the offset.
    fn part(&self, bytes: &'a [u8], size: usize) -> Result<&'a [u8], Fault>
        ensures { MatchResult result (λ bs. (size ≤ length bytes.now) × (bs.now ≡ take size bytes.now)) (λ f. (length bytes.now < size) × (f ≡ Fault.EndsEarly self.now.offset)) }
    {
        let offset = self.offset;
        bytes.get(..size).ok_or(Fault::EndsEarly { offset })
    }
}

/// The raw weight of the choice `index`, counted from 0, out of the weights of an alternative's record.
pub fn raw_weight(weights: &[u8], index: usize) -> Option<u32>
    ensures { result ≡ weight weights.now index }
{
    let (each, _) = weights.as_chunks();
    let bytes = each.get(index)?;
    Some(u32::from_le_bytes(*bytes))
}
