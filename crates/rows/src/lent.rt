ghost use Rattle.std.specs.Prelude.{◌≡◌, ◌≤◌, [], ◌∷◌, length, OnErr};

use crate::Full;

/// A list in the front of a slice that its owner lends. The places behind the list stay as they are.
#[derive(Drop)]
pub struct Lent<'a, T> {
    places: &'a mut [T],
    len: usize,
    ghost within: { len ≤ length places.now },
}

impl<'a, T: Copy> Lent<'a, T> {
    ghost use Rattle.rows.specs.Lending.{items, room, SameLoan, Grown};

    /// The empty list.
    pub fn new(places: &'a mut [T]) -> Self
        ensures empty { items result ≡ [] }
        ensures same { result.places.now ≡ places.old }
        ensures lent { result.places.ghost_name ≡ places.entry.ghost_name }
    {
        Lent { places, len: 0 }
    }

    /// How many are held.
    pub fn len(&self) -> usize
        ensures count { result ≡ length (items self.now) }
        ensures fits { result ≤ room self.now }
    {
        self.len
    }

    /// What is held.
    pub fn as_slice(&self) -> &[T]
        ensures { result.now ≡ items self.now }
    {
        &self.places[..self.len]
    }

    /// What is held, for as long as the places are lent.
    pub fn into_slice(self) -> &'a [T]
        ensures { result.now ≡ items self.entry }
    {
        let Lent { places, len } = self;
        &places[..len]
    }

    /// Nothing is held any more.
    pub fn clear(&mut self)
        ensures empty { items self.new ≡ [] }
        ensures loan { SameLoan self.old self.new }
        ensures same { self.new.places.now ≡ self.old.places.now }
    {
        self.len = 0;
    }

    /// Appends `x`. Refused where there is no place left; then nothing changes.
    pub fn push(&mut self, x: T) -> Result<(), Full>
        ensures grown { Grown self.old self.new (x ∷ []) result }
        ensures refused { OnErr result (self.new ≡ self.old) }
    {
        if self.len == self.places.len() {
            return Err(Full);
        }
        self.places[self.len] = x;
        self.len += 1;
        Ok(())
    }

    /// Appends each of `xs`. Refused where they do not all fit; then nothing changes.
    pub fn extend_from_slice(&mut self, xs: &[T]) -> Result<(), Full>
        ensures grown { Grown self.old self.new xs.now result }
        ensures refused { OnErr result (self.new ≡ self.old) }
    {
        if self.places.len() - self.len < xs.len() {
            return Err(Full);
        }
        let end = self.len + xs.len();
        self.places[self.len..end].copy_from_slice(xs);
        self.len = end;
        Ok(())
    }
}
