ghost use Rattle.std.specs.Prelude.{◌≡◌, ◌≤◌, Bool, true, length};
ghost use Rattle.model.specs.Rules.{literals, subset, rule_below, rule_before, canonical, rule_of};
ghost use Rattle.model.specs.Laws.{rule_orders};

use crate::Literal;
use rows::{Ordered, covers, put_all};

/// The most literals of a body.
pub(crate) const LITERALS: usize = 8;

/// A rule: its head, and its body as a set of literals in order. The places past the last literal are blank.
// An array with a count: there is no heap, and equal rules are to be equal values to the last place.
#[derive(Clone, Copy)]
pub struct Rule {
    pub(crate) head: u8,
    pub(crate) len: u8,
    pub(crate) body: [Literal; LITERALS],
}

impl Rule {
    /// What a place without a rule holds.
    pub(crate) const BLANK: Rule = Rule {
        head: 0,
        len: 0,
        body: [Literal::BLANK; LITERALS],
    };

    /// The rule with the literals of `body`, each once and in order.
    pub(crate) fn new(head: u8, body: &[Literal]) -> Rule
        requires { length body.now ≤ 8 }
        ensures { result ≡ rule_of head body.now }
    {
        let mut table = [Literal::BLANK; LITERALS];
        let len = put_all(body, &mut table).unwrap();
        table[len..].fill(Literal::BLANK);
        Rule {
            head,
            len: len as u8,
            body: table,
        }
    }

    /// The atom that the rule is about.
    pub fn head(&self) -> u8
        ensures { result ≡ self.now.head }
    {
        self.head
    }

    /// The literals of the body, in order.
    pub fn body(&self) -> &[Literal]
        ensures { result.now ≡ literals self.now }
    {
        // No invariant says that the count is at most 8: the clauses speak of a rule of any list of literals.
        &self.body[..(self.len as usize).min(LITERALS)]
    }
}

/// A rule is at or below another with the same head whose body has all its literals.
/// Rules stand by head, then body literal by literal, a shorter body first.
impl Ordered for Rule {
    ghost valid = { canonical };

    ghost below = { rule_below };

    ghost before = { rule_before };

    ghost orders = { rule_orders };

    fn at_or_below(&self, other: &Rule) -> bool {
        self.head == other.head && is_subset(self.body(), other.body())
    }

    fn precedes(&self, other: &Rule) -> bool {
        (self.head, self.body()) < (other.head, other.body())
    }
}

/// Whether each of `literals` is one of `others`.
fn is_subset(literals: &[Literal], others: &[Literal]) -> bool
    ensures { result ≡ subset literals.now others.now }
{
    literals.iter().all(|literal| covers(others, literal))
}
