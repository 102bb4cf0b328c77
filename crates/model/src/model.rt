ghost use Rattle.std.specs.Prelude.{◌≡◌, ◌-◌, ◌≤◌, true, length, take, drop, replicate};
ghost use Rattle.model.specs.Alternatives.{blank_alternative, canonical_alternatives};
ghost use Rattle.model.specs.Holding.{sizes_of, sound_rules};
ghost use Rattle.model.specs.Rules.{minimal_rules, blank_rule};

use crate::{Alternative, Rule};

/// The most alternatives and the most rules of a model.
pub(crate) const ALTERNATIVES: usize = 16;

pub(crate) const RULES: usize = 128;

/// A model of a board: alternatives, and rules of which none is below another, in order.
/// The places past those that are in use are blank, so equal models are equal values.
// Arrays with counts: there is no heap, and equal models are to be equal values to the last place.
#[derive(Drop)]
pub struct Model {
    pub(crate) declared: usize,
    pub(crate) alternatives: [Alternative; ALTERNATIVES],
    pub(crate) held: usize,
    pub(crate) rules: [Rule; RULES],
    ghost places: { length alternatives ≡ 16 },
    ghost few: { declared ≤ 16 },
    ghost canonical: { canonical_alternatives (take declared alternatives) ≡ true },
    ghost unused: { drop declared alternatives ≡ replicate (16 - declared) blank_alternative },
    ghost shelves: { length rules ≡ 128 },
    ghost within: { held ≤ 128 },
    ghost sound: { sound_rules (sizes_of (take declared alternatives)) (take held rules) ≡ true },
    ghost minimal: { minimal_rules (take held rules) ≡ take held rules },
    ghost unheld: { drop held rules ≡ replicate (128 - held) blank_rule },
}
