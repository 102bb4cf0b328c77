ghost use Rattle.rows.specs.Equality.{EqualRows};

/// `==` tells whether two rows are the same.
pub fn equal_rows_are_the_same()
    ensures { EqualRows }
{}
