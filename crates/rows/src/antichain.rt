ghost use Rattle.std.specs.Prelude.{◌≡◌, ◌≤◌, true, [], length, take, OnErr};
ghost use Rattle.rows.specs.Holding.{listed, room, AlikePast};
ghost use Rattle.rows.specs.Keeping.{covered, kept, told};

use crate::{Full, Ordered, list};

/// Elements of which none is below another, in order, in the front of a slice of the caller's.
// Not a `Lent` inside: each method would only pass on to it, and the clauses would name one field more.
#[derive(Drop)]
pub struct Antichain<'a, T> {
    items: &'a mut [T],
    held: usize,
}

impl<'a, T: Ordered> Antichain<'a, T> {
    /// Nothing held yet.
    pub fn new(items: &'a mut [T]) -> Self
        ensures empty { listed result ≡ [] }
        ensures same { result.items.now ≡ items.old }
        ensures lent { result.items.ghost_name ≡ items.entry.ghost_name }
    {
        Antichain { items, held: 0 }
    }

    /// The first `held` of `items` are held already; all of them where `held` is past the end.
    // A count beside the slice, since this is public so, as `put` is.
    pub fn holding(items: &'a mut [T], held: usize) -> Self
        ensures listed { listed result ≡ take held items.old }
        ensures same { result.items.now ≡ items.old }
        ensures lent { result.items.ghost_name ≡ items.entry.ghost_name }
    {
        Antichain { items, held }
    }

    /// How many are held.
    pub fn len(&self) -> usize
        ensures count { result ≡ length (listed self.now) }
        ensures fits { result ≤ room self.now }
    {
        self.held.min(self.items.len())
    }

    /// What is held, in order.
    pub fn held(&self) -> &[T]
        ensures { result.now ≡ listed self.now }
    {
        &self.items[0..self.len()]
    }

    /// What is held, in order, for as long as the slice is lent.
    pub fn into_held(self) -> &'a [T]
        ensures { result.now ≡ listed self.entry }
    {
        let count = self.len();
        let items = self.items;
        &items[..count]
    }

    /// Puts `x` to what is held, as `put` does in a slice.
    pub fn put(&mut self, x: T) -> Result<(), Full>
        ensures defined { told result (listed self.new) ≡ kept T.below T.before (room self.old) (listed self.old) x }
        ensures room { room self.new ≡ room self.old }
        ensures refused { OnErr result (self.new ≡ self.old) }
        ensures same { covered T.below (listed self.old) x ≡ true → self.new.items.now ≡ self.old.items.now }
        ensures past { AlikePast self.old self.new }
        ensures lent { self.new.items.ghost_name ≡ self.old.items.ghost_name }
    {
        let held = self.held;
        self.held = list::put(self.items, held, x)?;
        Ok(())
    }
}
