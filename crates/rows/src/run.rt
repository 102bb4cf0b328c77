ghost use Rattle.std.specs.Prelude.{◌≡◌, ◌+◌, ◌≤◌, [], length, take, drop, IfOk};
ghost use Rattle.rows.specs.Keeping.{kept_all, shown};
ghost use Rattle.rows.specs.Minimal.{AllValid, Minimals, CoversAlike, InAnyOrder};
ghost use Rattle.rows.specs.Worlds.{inside, sooner, SeenAlike};

use crate::{Antichain, Full, Ordered, Row};

/// Puts each of `from`, one after another, to the first `held` of `into`, and says how many are held then.
/// Refused exactly where one of the puts is.
// A count beside the slice, since this is public so, as `put` is.
pub fn put_each<T: Ordered>(from: &[T], into: &mut [T], held: usize) -> Result<usize, Full>
    ensures defined { shown result into.new ≡ kept_all T.below T.before (length into.old) (take held into.old) from.now }
    ensures fits { IfOk result (λ n. n ≤ length into.old) }
    ensures past { drop (held + length from.now) into.new ≡ drop (held + length from.now) into.old }
{
    let mut list = Antichain::holding(into, held);
    for x in from {
        list.put(*x)?;
    }
    Ok(list.len())
}

/// Puts each of `from`, one after another, to an empty list in the front of `into`, and says how many are held then.
/// Refused exactly where one of the puts is.
pub fn put_all<T: Ordered>(from: &[T], into: &mut [T]) -> Result<usize, Full>
    ensures defined { shown result into.new ≡ kept_all T.below T.before (length into.old) [] from.now }
    ensures fits { IfOk result (λ n. n ≤ length into.old) }
    ensures past { drop (length from.now) into.new ≡ drop (length from.now) into.old }
    ensures minimal { AllValid T.valid from.now → IfOk result (λ n. Minimals T.below T.before from.now (take n into.new)) }
    ensures covering { AllValid T.valid from.now → IfOk result (λ n. CoversAlike T.valid T.below from.now (take n into.new)) }
    ensures unordered { AllValid T.valid from.now → IfOk result (λ n. InAnyOrder T.below T.before from.now (take n into.new)) }
{
    put_each(from, into, 0)
}

/// The minimal ones of some rows, those that contain no other, in order in the front of `into`, by `put_all`.
/// Whether a world contains one of them tells whether it contains one of `from`.
pub fn minimal_rows(from: &[Row], into: &mut [Row]) -> Result<usize, Full>
    ensures defined { shown result into.new ≡ kept_all inside sooner (length into.old) [] from.now }
    ensures fits { IfOk result (λ n. n ≤ length into.old) }
    ensures past { drop (length from.now) into.new ≡ drop (length from.now) into.old }
    ensures minimal { IfOk result (λ n. Minimals inside sooner from.now (take n into.new)) }
    ensures worlds { IfOk result (λ n. SeenAlike from.now (take n into.new)) }
{
    put_all(from, into)
}
