ghost use Rattle.std.specs.Prelude.{◌≡◌, ◌+◌, ◌-◌, ◌<◌, ◌≤◌, max, true, ◌++◌, length, take, drop, replicate, IfOk, OnErr, slice_index_or};
ghost use Rattle.std.specs.List.{insert};
ghost use Rattle.rows.specs.Keeping.{covered, spared, placed, kept, shown};

use crate::Ordered;

/// There is no room for one more.
#[derive(Clone, Copy, PartialEq, Eq, Debug)]
pub struct Full;

/// Whether one of `held` is at or below `x`.
pub fn covers<T: Ordered>(held: &[T], x: &T) -> bool
    ensures { result ≡ covered T.below held.now x.now }
{
    held.iter().any(|y| y.at_or_below(x))
}

/// The place of the first of `held` that `x` is at or below, or their number.
fn first_above<T: Ordered>(held: &[T], x: &T) -> usize
    ensures within { result ≤ length held.now }
    ensures stay { spared T.below x.now (take result held.now) ≡ take result held.now }
    ensures above { result < length held.now → T.below x.now (slice_index_or held.now result x.now) ≡ true }
{
    held.iter()
        .position(|y| x.at_or_below(y))
        .unwrap_or(held.len())
}

/// Moves those of the first `held` that `x` is not at or below to the front, in their order, and says how many they are.
/// The first `from` are known to stay. What the places between the new count and the old hold is left open.
// A count beside the slice, as `put` has, which is public so.
fn remove_above<T: Ordered>(items: &mut [T], from: usize, held: usize, x: &T) -> usize
    requires within { (from ≤ held) × (held ≤ length items.old) }
    requires stay { spared T.below x.now (take from items.old) ≡ take from items.old }
    ensures front { take result items.new ≡ spared T.below x.now (take held items.old) }
    ensures count { result ≡ length (spared T.below x.now (take held items.old)) }
    ensures less { result ≤ held }
    ensures past { drop held items.new ≡ drop held items.old }
{
    let mut left = from;
    // By index: a slice has no `retain`, and there is no heap for a `Vec`.
    for i in from..held {
        if !x.at_or_below(&items[i]) {
            items[left] = items[i];
            left += 1;
        }
    }
    left
}

/// The place of the first of `held` that `x` precedes, or their number.
fn place<T: Ordered>(held: &[T], x: &T) -> usize
    ensures within { result ≤ length held.now }
    ensures there { placed T.before x.now held.now ≡ insert held.now result x.now }
{
    held.iter()
        .position(|y| x.precedes(y))
        .unwrap_or(held.len())
}

/// Puts `x` at the place `at` of the first `held`, those from there on one place further, and says how many are held then.
// A count beside the slice, as `put` has, which is public so.
fn insert<T: Copy>(items: &mut [T], held: usize, at: usize, x: T) -> usize
    requires { (held < length items.old) × (at ≤ held) }
    ensures count { result ≡ held + 1 }
    ensures fits { result ≤ length items.old }
    ensures done { items.new ≡ insert (take held items.old) at x ++ drop (held + 1) items.old }
{
    items.copy_within(at..held, at + 1);
    items[at] = x;
    held + 1
}

/// Puts `x` to the first `held` of `items`, which are kept in order, and says how many are held then.
/// Where one of them is at or below `x`, nothing changes; otherwise those above `x` go out, and `x` goes in at its place.
/// Refused where that would be more than `items` has places; then nothing changes.
/// A `held` past the end counts as the number of places. What the places between the new count and the old hold is left open.
// A count beside the slice, since this is public so: `Antichain` holds the two together, and its `put` goes by this one.
pub fn put<T: Ordered>(items: &mut [T], held: usize, x: T) -> Result<usize, Full>
    ensures defined { shown result items.new ≡ kept T.below T.before (length items.old) (take held items.old) x }
    ensures refused { OnErr result (items.new ≡ items.old) }
    ensures same { covered T.below (take held items.old) x ≡ true → items.new ≡ items.old }
    ensures fits { IfOk result (λ n. n ≤ length items.old) }
    ensures past { IfOk result (λ n. drop (max held n) items.new ≡ drop (max held n) items.old) }
{
    let held = held.min(items.len());
    if covers(&items[0..held], &x) {
        return Ok(held);
    }
    let first = first_above(&items[0..held], &x);
    if first == items.len() {
        return Err(Full);
    }
    let left = remove_above(items, first, held, &x);
    let at = place(&items[0..left], &x);
    Ok(insert(items, left, at, x))
}

/// Writes `x` into each place from `from` on.
// A place beside the slice, since this is public so.
pub fn fill_from<T: Copy>(items: &mut [T], from: usize, x: T)
    ensures { items.new ≡ take from items.old ++ replicate (length items.old - from) x }
{
    // Not by the slice's `fill`: for any type that is `Copy` a `clone` may fail there.
    let start = from.min(items.len());
    for place in &mut items[start..] {
        *place = x;
    }
}
