ghost use Rattle.std.specs.Prelude.{◌≡◌, Ok};
ghost use Rattle.model.specs.Judging.{is_atom, judge_atom, judge_head, judge_length, judge_literal, judge_rule, all_declared, judge_question};
ghost use Rattle.model.specs.Models.{alternatives, sizes, judged};
ghost use Rattle.model.specs.Refusals.{smaller};

use crate::model::ALTERNATIVES;
use crate::rule::LITERALS;
use crate::{Kind, Literal, Model, Refusal, Suppositions};

/// The highest atom.
const ATOMS: u8 = 24;

/// Whether a number is an atom.
pub(crate) fn is_atom(number: u8) -> bool
    ensures { result ≡ is_atom number }
{
    (1..=ATOMS).contains(&number)
}

/// The refusal with the smaller number, and of two with the same number the first.
fn smaller(first: Option<Refusal>, second: Option<Refusal>) -> Option<Refusal>
    ensures { result ≡ smaller first second }
{
    match (first, second) {
        (Some(a), Some(b)) if b.number() < a.number() => second,
        (Some(_), _) => first,
        (None, _) => second,
    }
}

/// The answer to a call that meets this refusal, or none.
fn answer(found: Option<Refusal>) -> Result<(), Refusal>
    ensures { result ≡ judged found (Ok tt) }
{
    found.map_or(Ok(()), Err)
}

fn judge_head(head: u8) -> Option<Refusal>
    ensures { result ≡ judge_head head }
{
    (!is_atom(head)).then_some(Refusal::NoAtom { place: 0 })
}

fn judge_length(body: &[Literal]) -> Option<Refusal>
    ensures { result ≡ judge_length body.now }
{
    (body.len() > LITERALS).then_some(Refusal::NumberOfLiterals)
}

/// The smallest refusal that an atom and the byte beside it meet in the body of a rule with this head.
fn judge_atom(head: u8, place: usize, atom: u8, second: u8) -> Option<Refusal>
    ensures { result ≡ judge_atom head place atom second }
{
    if !is_atom(atom) {
        return Some(Refusal::NoAtom { place });
    }
    if second != 0 {
        return Some(Refusal::NoLiteral { place });
    }
    (atom >= head).then_some(Refusal::NotLower { place })
}

impl Model {
    /// The smallest refusal that a literal meets in the body of a rule with this head.
    pub(crate) fn judge_literal(&self, head: u8, place: usize, literal: &Literal) -> Option<Refusal>
        ensures { result ≡ judge_literal (sizes (alternatives self.now)) head place literal.now }
    {
        let Literal { first, second, .. } = *literal;
        match literal.kind() {
            None => Some(Refusal::NoLiteral { place }),
            Some(Kind::Choice | Kind::NotChoice) => {
                (!self.is_declared(first, second)).then_some(Refusal::NotDeclared { place })
            }
            Some(Kind::Atom | Kind::NotAtom) => judge_atom(head, place, first, second),
        }
    }

    /// The smallest refusal that a rule meets, before it is put to the others.
    pub(crate) fn judge(&self, head: u8, body: &[Literal]) -> Result<(), Refusal>
        ensures { result ≡ judged (judge_rule (sizes (alternatives self.now)) head body.now) (Ok tt) }
    {
        let first = smaller(judge_head(head), judge_length(body));
        let found = body.iter().enumerate().fold(first, |found, (i, literal)| {
            smaller(found, self.judge_literal(head, i + 1, literal))
        });
        answer(found)
    }

    /// Whether every choice that is supposed is declared in this model.
    fn are_declared(&self, suppositions: &Suppositions) -> bool
        ensures { result ≡ all_declared (sizes (alternatives self.now)) 1 suppositions.now.choices }
    {
        suppositions
            .choices
            .iter()
            .zip(1..ALTERNATIVES as u8 + 1)
            .all(|(choice, alternative)| *choice == 0 || self.is_declared(alternative, *choice))
    }

    /// The smallest refusal that a question meets before it is worked. `enough` says whether the space lent to it suffices.
    // A flag: the parameters are public, and which lengths suffice is the question's to say.
    pub fn judge_question(
        &self,
        suppositions: &Suppositions,
        goal: &Literal,
        enough: bool,
    ) -> Result<(), Refusal>
        ensures { result ≡ judged (judge_question (sizes (alternatives self.now)) suppositions.now.choices goal.now enough) (Ok tt) }
    {
        let space = (!enough).then_some(Refusal::ShortSpace);
        let foreign = (!self.are_declared(suppositions)).then_some(Refusal::ForeignSupposition);
        // As a literal of a rule whose head is above all atoms.
        let goal = self.judge_literal(ATOMS + 1, 0, goal);
        answer(smaller(goal, smaller(space, foreign)))
    }
}
