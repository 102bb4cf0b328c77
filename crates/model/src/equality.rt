ghost use Rattle.std.specs.Prelude.{◌≡◌, Decides};
ghost use Rattle.std.specs.Cmp.{decided, partial_equiv_from_equiv};
ghost use Rattle.model.specs.Equality.{equal_models, equal_rules};
ghost use Rattle.model.specs.EqualityLaws.{models_decided, rules_decided};

use crate::{Model, Rule};

// Equal values are equal to the last place: the places that are not in use are blank. Not by a derive: these hold arrays of
// values of their own types, and there a derive does not let a caller know that equal means the same value.

impl PartialEq for Rule {
    ghost eq = { equal_rules };

    ghost laws = { partial_equiv_from_equiv (decided equal_rules rules_decided) };

    fn eq(&self, other: &Rule) -> bool
        ensures value { result ≡ equal_rules self.now other.now }
        ensures equal { Decides result (self.now ≡ other.now) }
    {
        self.head == other.head && self.len == other.len && self.body == other.body
    }
}

impl Eq for Rule {
    ghost laws = { decided equal_rules rules_decided };
}

impl PartialEq for Model {
    ghost eq = { equal_models };

    ghost laws = { partial_equiv_from_equiv (decided equal_models models_decided) };

    fn eq(&self, other: &Model) -> bool
        ensures value { result ≡ equal_models self.now other.now }
        ensures equal { Decides result (self.now ≡ other.now) }
    {
        self.declared == other.declared
            && self.held == other.held
            && self.alternatives == other.alternatives
            && self.rules == other.rules
    }
}

impl Eq for Model {
    ghost laws = { decided equal_models models_decided };
}
