ghost use Rattle.std.specs.Prelude.{◌≡◌, Bool, true};
ghost use Rattle.rows.specs.Orders.{Orders};
ghost use Rattle.rows.specs.Worlds.{inside, sooner};
ghost use Rattle.rows.specs.RowLaws.{contains_itself, contains_through, contains_same, earlier_apart, earlier_onward, earlier_total, row_same};

use crate::Row;

/// Values with two orders: a partial one by what they say, and a total one to list them by.
pub trait Ordered: Copy {
    // The values that the laws speak of. A type with unused places, or with a rule among its fields, has others too.
    ghost valid: { Self → Bool };

    // At or below, in the partial order.
    ghost below: { Self → Self → Bool };

    // Before, in the total order.
    ghost before: { Self → Self → Bool };

    /// Whether this is below `other` in the partial order, or equal to it.
    fn at_or_below(&self, other: &Self) -> bool
        ensures { result ≡ below self.now other.now };

    /// Whether this stands before `other` in the total order.
    fn precedes(&self, other: &Self) -> bool
        ensures { result ≡ before self.now other.now };

    ghost orders: { Orders valid below before };
}

/// A row is at or below those that contain it.
impl Ordered for Row {
    ghost valid = { λ _. true };

    ghost below = { inside };

    ghost before = { sooner };

    ghost orders = { record {
      itself = λ x _. contains_itself x.choices;
      through = λ x y z _ _ _. contains_through x.choices y.choices z.choices;
      same = λ x y _ _ p q. row_same x y (contains_same x.choices y.choices p q);
      apart = λ x _. earlier_apart x.choices;
      onward = λ x y z _ _ _. earlier_onward x.choices y.choices z.choices;
      total = λ x y _ _ p q. row_same x y (earlier_total x.choices y.choices p q);
    } };

    fn at_or_below(&self, other: &Row) -> bool {
        other.contains(self)
    }

    fn precedes(&self, other: &Row) -> bool {
        Row::precedes(self, other)
    }
}
