ghost use Rattle.std.specs.Prelude.{◌≡◌, ◌≤◌, length};
ghost use Rattle.model.specs.Alternatives.{weights_of, alternative_of};

/// The most choices of an alternative.
pub(crate) const CHOICES: usize = 8;

/// An alternative: how many choices it has, and the raw weight of each. The places past the last choice hold 0.
// An array with a count: there is no heap, and equal alternatives are to be equal values to the last place.
#[derive(Clone, Copy, PartialEq, Eq)]
pub struct Alternative {
    pub(crate) choices: u8,
    pub(crate) weights: [u32; CHOICES],
}

impl Alternative {
    /// What a place without an alternative holds.
    pub(crate) const BLANK: Alternative = Alternative {
        choices: 0,
        weights: [0; CHOICES],
    };

    /// The alternative with these raw weights.
    pub(crate) fn new(weights: &[u32]) -> Alternative
        requires { length weights.now ≤ 8 }
        ensures { result ≡ alternative_of weights.now }
    {
        let mut table = [0; CHOICES];
        table[..weights.len()].copy_from_slice(weights);
        Alternative {
            choices: weights.len() as u8,
            weights: table,
        }
    }

    /// The raw weight of each choice, in order.
    pub fn weights(&self) -> &[u32]
        ensures { result.now ≡ weights_of self.now }
    {
        // No invariant says that the count is at most 8: the clauses speak of an alternative of any list of weights.
        &self.weights[..(self.choices as usize).min(CHOICES)]
    }
}
