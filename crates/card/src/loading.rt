ghost use Rattle.std.specs.Prelude.{◌≡◌, ◌*◌, ◌<◌, ◌≤◌, ◌/◌, true, ℕ, List, [], ◌∷◌, ◌++◌, length, replicate, OnErr, OnOk};
ghost use Rattle.std.proofs.Common.{rules as tries};
ghost use Rattle.model.specs.Journal.{Journal, Agrees, fresh};
ghost use Rattle.card.specs.Encoding.{Framed, alternative, rule};
ghost use Rattle.card.specs.Loading.{weights, literals, taking, holding, told_held, loaded_from, loaded, none, recorded};
ghost use Rattle.card.specs.Reading.{entry};
ghost use Rattle.card.specs.LoadingLemmas.{weights_none, literals_none};
ghost use Rattle.card.specs.Walking.{walked, Whole};

use crate::{Fault, Reader, Record};
use model::{Literal, Model, Refusal, Suppositions};

/// A value that a record holds in `N` bytes, which are few.
trait Packed<const N: usize>: Copy {
    /// What bytes mean, `N` of them to a value; fewer than `N` mean nothing.
    ghost unpacked: { List ℕ → List Self };

    /// The value that `N` bytes mean.
    fn unpack(bytes: &[u8; N]) -> Self
        ensures { (rest : List ℕ) → unpacked (bytes.now ++ rest) ≡ result ∷ unpacked rest };

    ghost few: { (0 < N) × (N < 9) };

    ghost none: { (bytes : List ℕ) → length bytes < N → unpacked bytes ≡ [] };
}

/// A raw weight: its lowest byte first.
impl Packed<4> for u32 {
    ghost unpacked = { weights };

    ghost few = { Prim.search tries };

    ghost none = { weights_none };

    fn unpack(bytes: &[u8; 4]) -> u32 {
        u32::from_le_bytes(*bytes)
    }
}

/// A literal: its kind, and its first and second number.
impl Packed<3> for Literal {
    ghost unpacked = { literals };

    ghost few = { Prim.search tries };

    ghost none = { literals_none };

    fn unpack(bytes: &[u8; 3]) -> Literal {
        let [kind, first, second] = *bytes;
        Literal {
            kind,
            first,
            second,
        }
    }
}

/// The values that bytes hold, in the front of `places`.
fn read_each<'a, T: Packed<N>, const N: usize>(bytes: &[u8], places: &'a mut [T]) -> &'a [T]
    requires { length bytes.now / N ≤ length places.old }
    ensures { result.now ≡ T.unpacked bytes.now }
{
    let (each, _) = bytes.as_chunks::<N>();
    // By index, since a proof learns nothing of what is written through a zip with `iter_mut`.
    for (i, part) in each.iter().enumerate() {
        places[i] = T::unpack(part);
    }
    &places[..each.len()]
}

/// The call that an alternative's record makes.
fn take_alternative(model: &mut Model, bytes: &[u8]) -> Result<(), Refusal>
    requires { length bytes.now ≤ 4 * 8 }
    ensures defined { told_held result model.new ≡ taking (holding model.old) (alternative bytes.now) }
    ensures journal { (j : Journal) (s : Suppositions) → Agrees j model.old s → OnOk result (Agrees (recorded j (alternative bytes.now ∷ [])) model.new s) }
{
    model.declare(read_each(bytes, &mut [0; 8]))
}

/// The call that a rule's record makes.
fn take_rule(model: &mut Model, head: u8, bytes: &[u8]) -> Result<(), Refusal>
    requires { length bytes.now ≤ 3 * 8 }
    ensures defined { told_held result model.new ≡ taking (holding model.old) (rule head bytes.now) }
    ensures journal { (j : Journal) (s : Suppositions) → Agrees j model.old s → OnOk result (Agrees (recorded j (rule head bytes.now ∷ [])) model.new s) }
{
    let mut places = [Literal {
        kind: 0,
        first: 0,
        second: 0,
    }; 8];
    model.state(head, read_each(bytes, &mut places))
}

/// The call that a record makes; the end record makes none.
fn take_record(model: &mut Model, found: Record) -> Result<(), Refusal>
    requires { Framed (entry found) }
    ensures defined { told_held result model.new ≡ taking (holding model.old) (entry found.entry) }
    ensures journal { (j : Journal) (s : Suppositions) → Agrees j model.old s → OnOk result (Agrees (recorded j (entry found.entry ∷ [])) model.new s) }
{
    match found {
        Record::Alternative { weights } => take_alternative(model, weights),
        Record::Rule { head, literals } => take_rule(model, head, literals),
        Record::End => Ok(()),
    }
}

/// Takes the records of a card one after the other, up to the end record or the first refusal.
fn take_records(model: &mut Model, card: &[u8]) -> Result<(), Fault>
    ensures defined { told_held result model.new ≡ loaded_from 0 (holding model.old) (walked card.now).records (walked card.now).fault }
    ensures journal { (j : Journal) (s : Suppositions) → Agrees j model.old s → OnOk result (Agrees (recorded j (walked card.now).records) model.new s) }
{
    let mut reader = Reader::new(card);
    loop {
        let offset = reader.offset();
        let found = reader.next_record()?;
        if let Record::End = found {
            return Ok(());
        }
        take_record(model, found).map_err(|refusal| Fault::Refused { offset, refusal })?;
    }
}

/// Loads a card: the model is then what the card's records make of an empty one. A refused card leaves the empty model,
/// whatever was there before.
pub fn load(model: &mut Model, card: &[u8]) -> Result<(), Fault>
    ensures defined { told_held result model.new ≡ loaded card.now }
    ensures refused { OnErr result (holding model.new ≡ none) }
    ensures law { OnOk result (Whole card.now (walked card.now).records) }
    ensures journal { (s : Suppositions) → s.choices ≡ replicate 16 0 → OnOk result (Agrees (recorded fresh (walked card.now).records) model.new s) }
{
    *model = Model::new();
    let answer = take_records(model, card);
    if answer.is_err() {
        *model = Model::new();
    }
    answer
}
