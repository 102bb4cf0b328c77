ghost use Rattle.std.specs.Prelude.{◌≡◌, ℕ, true, List, ◌∷◌};
ghost use Rattle.model.specs.Journal.{Journal, Agrees, feed, supposes, ends};
ghost use Rattle.model.specs.Models.{alternatives};
ghost use Rattle.model.specs.Supposed.{supposing};

use crate::{Model, Suppositions};

/// A supposing: while it lasts, the suppositions that it holds have one more, unless the check would refuse that. When it
/// is dropped, by any way out, they are again as they were before.
pub struct Supposing<'a> {
    pub suppositions: &'a mut Suppositions,
    before: Suppositions,
}

impl Drop for Supposing<'_> {
    fn drop(self)
        ensures restored { self.exit.0.now ≡ self.entry.before }
        ensures journal { (j : Journal) (m : Model) (notes : List (List ℕ)) → j.notes ≡ self.entry.before.choices ∷ notes → Agrees j m self.entry.suppositions.now → Agrees (feed j ends true) m self.exit.0.now }
    {
        let Supposing {
            suppositions,
            before,
        } = self;
        *suppositions = before;
    }
}

/// Begins to suppose `choice` at `alternative`, both counted from 1. Where the check would refuse that, it supposes nothing.
// The model stands beside the suppositions, since this is public so, and the guard lends the suppositions alone.
pub fn suppose<'a>(
    suppositions: &'a mut Suppositions,
    model: &Model,
    alternative: u8,
    choice: u8,
) -> Supposing<'a>
    ensures held { result.suppositions.now.choices ≡ supposing (alternatives model.now) suppositions.old.choices alternative choice }
    ensures before { result.before ≡ suppositions.old }
    ensures lent { result.suppositions.ghost_name ≡ suppositions.entry.ghost_name }
    ensures journal { (j : Journal) → Agrees j model.now suppositions.old → Agrees (feed j (supposes alternative choice) true) model.now result.suppositions.now }
{
    let before = *suppositions;
    if suppositions.check(model, alternative, choice).is_ok() {
        suppositions.choices[alternative as usize - 1] = choice;
    }
    Supposing {
        suppositions,
        before,
    }
}
