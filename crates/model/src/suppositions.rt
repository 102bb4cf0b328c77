ghost use Rattle.std.specs.Prelude.{◌≡◌, ◌≤◌, [], replicate, is_ok, slice_index};
ghost use Rattle.model.specs.Journal.{Journal, Agrees, fresh, feed, checks};
ghost use Rattle.model.specs.Models.{alternatives, rules};
ghost use Rattle.model.specs.Supposed.{checking};

use crate::model::ALTERNATIVES;
use crate::{Model, Refusal};

/// For each alternative the choice at which it is supposed, or 0.
#[derive(Clone, Copy, Debug, PartialEq, Eq)]
pub struct Suppositions {
    pub(crate) choices: [u8; ALTERNATIVES],
}

impl Suppositions {
    /// Nothing supposed.
    pub fn none() -> Suppositions
        ensures empty { result.choices ≡ replicate 16 0 }
        ensures journal { (m : Model) → alternatives m ≡ [] → rules m ≡ [] → Agrees fresh m result }
    {
        Suppositions {
            choices: [0; ALTERNATIVES],
        }
    }

    /// The choice at which each alternative is supposed, or 0.
    pub fn choices(&self) -> &[u8; 16]
        ensures { result.now ≡ self.now.choices }
    {
        &self.choices
    }

    /// The choice at which the alternative at a place is supposed, counted from 0, or 0.
    pub fn at(&self, place: usize) -> u8
        ensures choice { result ≡ slice_index self.now.choices place }
        ensures past { 16 ≤ place → result ≡ 0 }
    {
        self.choices.get(place).copied().unwrap_or(0)
    }

    /// Whether `choice` may be supposed at `alternative`, both counted from 1.
    pub fn check(&self, model: &Model, alternative: u8, choice: u8) -> Result<(), Refusal>
        ensures defined { result ≡ checking (alternatives model.now) self.now.choices alternative choice }
        ensures journal { (j : Journal) → Agrees j model.now self.now → Agrees (feed j (checks alternative choice) (is_ok result)) model.now self.now }
    {
        if !model.is_declared(alternative, choice) {
            return Err(Refusal::NotDeclared { place: 0 });
        }
        if self.at(alternative as usize - 1) != 0 {
            return Err(Refusal::AlreadySupposed);
        }
        Ok(())
    }
}
