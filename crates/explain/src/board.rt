ghost use Rattle.std.specs.Prelude.{◌≡◌, ◌≤◌, false, [], length, slice_index_or};
ghost use Rattle.std.specs.Range.{range_inclusive_end, range_inclusive_exhausted};
ghost use Rattle.explain.specs.Options.{numbers_in, options_of};

use model::{Model, Suppositions};
use std::ops::RangeInclusive;

/// A model, and what is supposed in it.
#[derive(Clone, Copy)]
pub struct Board<'a> {
    pub model: &'a Model,
    pub suppositions: &'a Suppositions,
}

impl Board<'_> {
    /// The choices that a world may take at a place counted from 0: the supposed one alone, or those that are declared.
    pub fn options_at(self, place: usize) -> RangeInclusive<u8>
        ensures are { slice_index_or (options_of self.entry) place [] ≡ numbers_in result }
        ensures fresh { range_inclusive_exhausted result ≡ false }
        ensures none { numbers_in result ≡ [] → range_inclusive_end result ≡ 0 }
        ensures few { length (numbers_in result) ≤ 8 }
    {
        match self.suppositions.at(place) {
            0 => 1..=self.model.choices_at(place),
            supposed => supposed..=supposed,
        }
    }
}
