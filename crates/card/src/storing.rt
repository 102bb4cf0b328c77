ghost use Rattle.std.specs.Prelude.{◌≡◌, ℕ, ◌+◌, ◌^◌, ◌<◌, ◌≤◌, true, List, ◌++◌, length, drop, is_ok, OnOk, MatchResult};
ghost use Rattle.std.specs.List.{flat_map, All, AllByRecursion};
ghost use Rattle.rows.specs.Lending.{Grown};
ghost use Rattle.model.specs.Alternatives.{weights_of};
ghost use Rattle.model.specs.Models.{alternatives};
ghost use Rattle.model.specs.Rules.{literals};
ghost use Rattle.card.specs.Storing.{weight_bytes, literal_bytes, alternative_bytes, rule_bytes, stored, Fit, ReadsBack};

use model::{Alternative, Literal, Model, Refusal, Rule};
use rows::{Full, Lent};

/// Writes the card of a model into the front of `buffer`, and says how many bytes it has. The bytes past them stay.
/// A buffer that is too short stays as it is. The card loads as that model again.
pub fn store(model: &Model, buffer: &mut [u8]) -> Result<usize, Refusal>
    ensures defined { MatchResult result (λ n. (n ≡ length (stored model.now)) × (buffer.new ≡ stored model.now ++ drop n buffer.old)) (λ f. (f ≡ Refusal.ShortBuffer) × (length buffer.old < length (stored model.now)) × (buffer.new ≡ buffer.old)) }
    ensures bounded { length (stored model.now) ≤ 4146 }
    ensures back { is_ok result ≡ true → ReadsBack model.now }
{
    if buffer.len() < model.size() {
        return Err(Refusal::ShortBuffer);
    }
    let mut card = Lent::new(buffer);
    model.write(&mut card).map_err(|_| Refusal::ShortBuffer)?;
    Ok(card.len())
}

/// What has bytes on a card.
trait Stored {
    ghost bytes: { Self → List ℕ };

    /// That it has few enough parts for one byte to count them.
    ghost few: { Self → Type 0 } = { λ _. Unit {0} };

    /// What the type of its numbers says.
    ghost fits: { Self → Type 0 } = { λ _. Unit {0} };

    /// How many bytes it has.
    fn size(&self) -> usize
        requires { length (bytes self.now) < 2 ^ 64 }
        ensures { result ≡ length (bytes self.now) };

    /// Writes its bytes behind what the card holds. Refused where they do not fit.
    fn write(&self, card: &mut Lent<'_, u8>) -> Result<(), Full>
        requires { few self.now }
        ensures grown { Grown card.old card.new (bytes self.now) result }
        ensures fits { OnOk result (fits self.now) };
}

/// How many bytes these have, one after the other.
fn size_of_each<T: Stored>(each: &[T]) -> usize
    requires { length (flat_map T.bytes each.now) < 2 ^ 64 }
    ensures { result ≡ length (flat_map T.bytes each.now) }
{
    each.iter().map(|x| x.size()).sum()
}

/// Writes these, one after the other.
fn write_each<T: Stored>(each: &[T], card: &mut Lent<'_, u8>) -> Result<(), Full>
    requires { All T.few each.now }
    ensures grown { Grown card.old card.new (flat_map T.bytes each.now) result }
    ensures fits { OnOk result (AllByRecursion T.fits each.now) }
{
    for x in each {
        x.write(card)?;
    }
    Ok(())
}

/// All alternatives, then the rules, then the end record.
impl Stored for Model {
    ghost bytes = { stored };

    ghost fits = { λ m. AllByRecursion Fit (alternatives m) };

    fn size(&self) -> usize {
        size_of_each(self.alternatives()) + size_of_each(self.rules()) + 2
    }

    fn write(&self, card: &mut Lent<'_, u8>) -> Result<(), Full> {
        write_each(self.alternatives(), card)?;
        write_each(self.rules(), card)?;
        card.extend_from_slice(b"EN")
    }
}

impl Stored for Alternative {
    ghost bytes = { alternative_bytes };

    ghost few = { λ a. length (weights_of a) ≤ 8 };

    ghost fits = { λ a. Fit (weights_of a) };

    fn size(&self) -> usize {
        3 + size_of_each(self.weights())
    }

    fn write(&self, card: &mut Lent<'_, u8>) -> Result<(), Full> {
        let weights = self.weights();
        card.extend_from_slice(&[b'A', b'L', weights.len() as u8])?;
        write_each(weights, card)
    }
}

impl Stored for Rule {
    ghost bytes = { rule_bytes };

    ghost few = { λ r. length (literals r) ≤ 8 };

    fn size(&self) -> usize {
        4 + size_of_each(self.body())
    }

    fn write(&self, card: &mut Lent<'_, u8>) -> Result<(), Full> {
        let body = self.body();
        card.extend_from_slice(&[b'R', b'U', self.head(), body.len() as u8])?;
        write_each(body, card)
    }
}

/// A raw weight, the lowest byte first.
impl Stored for u32 {
    ghost bytes = { weight_bytes };

    ghost fits = { λ w. w < 2 ^ 32 };

    fn size(&self) -> usize {
        4
    }

    fn write(&self, card: &mut Lent<'_, u8>) -> Result<(), Full> {
        card.extend_from_slice(&self.to_le_bytes())
    }
}

impl Stored for Literal {
    ghost bytes = { literal_bytes };

    fn size(&self) -> usize {
        3
    }

    fn write(&self, card: &mut Lent<'_, u8>) -> Result<(), Full> {
        card.extend_from_slice(&[self.kind, self.first, self.second])
    }
}
