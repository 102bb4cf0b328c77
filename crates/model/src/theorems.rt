ghost use Rattle.model.specs.Equality.{EqualSame};
ghost use Rattle.model.specs.Meaning.{Determined, RulesLayered, HeldAlike};

/// A journal determines the model and the suppositions that agree with it.
pub fn journal_determines_the_session()
    ensures { Determined }
{}

/// Every atom in a body is lower than the head, so that in each world exactly one truth of the atoms is stable.
pub fn rules_are_layered()
    ensures { RulesLayered }
{}

/// The rules that are held say of every world what all accepted rules say.
pub fn held_rules_say_it_all()
    ensures { HeldAlike }
{}

/// `==` on literals, alternatives, rules, models and suppositions tells whether two values are the same.
pub fn equal_values_are_the_same()
    ensures { EqualSame }
{}
