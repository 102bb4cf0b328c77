ghost use Rattle.std.specs.Prelude.{◌≡◌, ℕ, ◌<◌, ◌≤◌, Bool, false, ◌||◌, map, nat_eq, MatchOption};
ghost use Rattle.logic.specs.Needed.{uses, used};
ghost use Rattle.model.specs.Meaning.{meaning, held_rule};
ghost use Rattle.explain.specs.Marks.{marked, Marked};

use crate::atoms::ATOMS;
use model::{Kind, Literal, Rule};

/// The atom that a literal is of, if it is of one.
pub(crate) fn atom_of(literal: &Literal) -> Option<u8>
    ensures { MatchOption result (1 < literal.now.kind) (λ a. (literal.now.kind ≤ 1) × (a ≡ literal.now.first)) }
{
    match literal.kind() {
        Some(Kind::Atom | Kind::NotAtom) => Some(literal.first),
        _ => None,
    }
}

/// Marks the atoms of a body.
fn mark_body(body: &[Literal], marks: &mut [bool; ATOMS])
    ensures { (a : ℕ) → a < 25 → marked marks.new a ≡ (marked marks.old a || uses (map meaning body.now) a) }
{
    for literal in body {
        let Some(atom) = atom_of(literal) else {
            continue;
        };
        // Not by `get_mut`: what is written through it into an array does not come out in the proof.
        let at = atom as usize;
        if at < ATOMS {
            marks[at] = true;
        }
    }
}

/// Which atoms stand in the bodies of the rules for an atom.
fn atoms_used(rules: &[Rule], atom: u8) -> [bool; ATOMS]
    ensures { (a : ℕ) → a < 25 → marked result a ≡ used (map held_rule rules.now) (λ head. nat_eq head atom) a }
{
    let mut marks = [false; ATOMS];
    for rule in rules {
        if rule.head() == atom {
            mark_body(rule.body(), &mut marks);
        }
    }
    marks
}

/// Marks an atom and all that it depends on, beside those that are marked already. An atom that is marked already is passed
/// over: what it depends on is marked, or is about to be.
pub(crate) fn mark(rules: &[Rule], atom: u8, marks: &mut [bool; ATOMS])
    requires { atom < 25 }
    ensures { Marked (map held_rule rules.now) atom marks.old marks.new }
{
    if marks[atom as usize] {
        return;
    }
    marks[atom as usize] = true;
    let used = atoms_used(rules, atom);
    for (lower, is_used) in (0..atom).zip(&used) {
        if *is_used {
            mark(rules, lower, marks);
        }
    }
}
