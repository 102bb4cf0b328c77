ghost use Rattle.std.specs.Prelude.{◌≡◌, true, replicate, slice_set};
ghost use Rattle.rows.specs.Rows.{contains, compatible, union, earlier, SaysBoth};

/// The number of alternatives.
pub const PLACES: usize = 16;

/// A composite choice: one number for each alternative, 0 where it is untouched, otherwise the choice made there.
#[derive(Clone, Copy, Debug, PartialEq, Eq, PartialOrd, Ord)]
pub struct Row {
    pub choices: [u8; PLACES],
}

impl Row {
    /// The row that touches no alternative.
    pub fn empty() -> Row
        ensures { result.choices ≡ replicate 16 0 }
    {
        Row {
            choices: [0; PLACES],
        }
    }

    /// This row with one choice more, or another one, at a place counted from 0. A place past the last leaves it as it is.
    pub fn with(mut self, place: usize, choice: u8) -> Row
        ensures { result.choices ≡ slice_set self.choices place choice }
    {
        // Not by `get_mut`: what is written through it into an array does not come out in the proof.
        if place < PLACES {
            self.choices[place] = choice;
        }
        self
    }

    /// Whether this row agrees with `other` wherever `other` has a choice.
    pub fn contains(&self, other: &Row) -> bool
        ensures { result ≡ contains self.now.choices other.now.choices }
    {
        self.choices
            .iter()
            .zip(&other.choices)
            .all(|(mine, theirs)| *theirs == 0 || mine == theirs)
    }

    /// Whether the two rows agree wherever both have a choice.
    pub fn compatible(&self, other: &Row) -> bool
        ensures { result ≡ compatible self.now.choices other.now.choices }
    {
        self.choices.iter().zip(&other.choices).all(|(mine, theirs)| {
            *mine == 0 || *theirs == 0 || mine == theirs
        })
    }

    /// The choices of this row, and those of `other` where this one has none.
    /// Where the two are compatible, the rows that contain their union are those that contain both.
    pub fn union(&self, other: &Row) -> Row
        ensures merged { result.choices ≡ union self.now.choices other.now.choices }
        ensures both { compatible self.now.choices other.now.choices ≡ true → SaysBoth result.choices self.now.choices other.now.choices }
    {
        let mut choices = self.choices;
        // By index, since a proof learns nothing of what is written through a zip with `iter_mut`.
        for (place, theirs) in other.choices.iter().enumerate() {
            if choices[place] == 0 {
                choices[place] = *theirs;
            }
        }
        Row { choices }
    }

    /// Whether this row has the smaller number at the first place where the two differ.
    pub fn precedes(&self, other: &Row) -> bool
        ensures { result ≡ earlier self.now.choices other.now.choices }
    {
        self < other
    }
}
