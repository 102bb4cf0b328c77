ghost use Rattle.std.specs.Prelude.{◌≡◌, ◌-◌, [], ◌∷◌, map, IsOkAnd, slice_index_or};
ghost use Rattle.rows.specs.Holding.{listed, room};
ghost use Rattle.rows.specs.Keeping.{and_then, told};
ghost use Rattle.logic.specs.Atoms.{nothing, lists_of, body_from, bodies_from};
ghost use Rattle.logic.specs.Duals.{empty, put_rows};
ghost use Rattle.logic.specs.Rules.{rules_for};
ghost use Rattle.model.specs.Meaning.{meaning, held_rules};
ghost use Rattle.explain.specs.Conjunctions.{rows_in};
ghost use Rattle.explain.specs.Lists.{as_lists, lists_in, told_rows};
ghost use Rattle.explain.specs.Options.{options_of};
ghost use Rattle.explain.specs.Tables.{lower_lists};

use crate::Board;
use crate::choices::{CONTRARIES, choice_lists, negated_rows, own_rows};
use crate::duals::{Conjunction, Scratch};
use crate::lists::{Lists, ROWS};
use model::{Kind, Literal};
use rows::{Antichain, Full, Row};

/// One more than the highest atom.
pub(crate) const ATOMS: usize = 25;

/// What is known while an atom is worked: the board, and the lists of the lower atoms, from atom 0 on.
#[derive(Clone, Copy)]
pub(crate) struct Known<'a> {
    pub board: Board<'a>,
    pub lower: &'a [Lists<'a>],
}

impl<'a> Known<'a> {
    /// The lists of an atom: no rows where it is not a lower one.
    fn atom(self, atom: u8) -> Lists<'a>
        ensures { lists_in result ≡ slice_index_or (lower_lists self.entry) atom nothing }
    {
        self.lower
            .get(atom as usize)
            .copied()
            .unwrap_or(Lists::nothing())
    }

    /// The lists of a literal. Those of a choice are written to `scratch`.
    pub fn literal(
        self,
        literal: &Literal,
        scratch: &'a mut [Row; CONTRARIES],
    ) -> Result<Lists<'a>, Full>
        ensures { IsOkAnd result (λ lists. lists_in lists ≡ lists_of (options_of self.entry.board) (lower_lists self.entry) (meaning literal.now)) }
    {
        let place = literal.first.saturating_sub(1) as usize;
        match literal.kind() {
            Some(Kind::Atom) => Ok(self.atom(literal.first)),
            Some(Kind::NotAtom) => Ok(self.atom(literal.first).exchanged()),
            Some(Kind::Choice) => choice_lists(self.board, place, literal.second, scratch),
            _ => Ok(choice_lists(self.board, place, literal.second, scratch)?.exchanged()),
        }
    }

    /// The own list of a literal alone. That of a choice is written to `scratch`.
    // Beside `literal`, which writes both lists of a choice: a body needs only this one.
    pub fn own_rows(
        self,
        literal: &Literal,
        scratch: &'a mut [Row; CONTRARIES],
    ) -> Result<&'a [Row], Full>
        ensures { IsOkAnd result (λ rows. as_lists rows.now ≡ (lists_of (options_of self.entry.board) (lower_lists self.entry) (meaning literal.now)).own) }
    {
        let place = literal.first.saturating_sub(1) as usize;
        match literal.kind() {
            Some(Kind::Atom) => Ok(self.atom(literal.first).own),
            Some(Kind::NotAtom) => Ok(self.atom(literal.first).negated),
            Some(Kind::Choice) => own_rows(self.board, place, literal.second, scratch),
            _ => negated_rows(self.board, place, literal.second, scratch),
        }
    }
}

/// Conjoins the lists of the literals of a body.
fn conjoin_body(
    known: Known<'_>,
    body: &[Literal],
    rows: &mut Conjunction<'_>,
    spare: &mut [Row; ROWS],
    scratch: &mut [Row; CONTRARIES],
) -> Result<(), Full>
    ensures { told result (rows_in rows.new) ≡ body_from 64 (options_of known.entry.board) (lower_lists known.entry) (rows_in rows.old) (map meaning body.now) }
{
    for literal in body {
        let own = known.own_rows(literal, scratch)?;
        rows.and(own, spare)?;
    }
    Ok(())
}

/// Puts the rows of one more body, the lists of its literals conjoined, to those of others.
fn put_body(
    known: Known<'_>,
    body: &[Literal],
    bodies: &mut Antichain<'_, Row>,
    scratch: &mut Scratch<'_>,
) -> Result<(), Full>
    ensures defined { told result (as_lists (listed bodies.new)) ≡ and_then (body_from 64 (options_of known.entry.board) (lower_lists known.entry) (empty (options_of known.entry.board) ∷ []) (map meaning body.now)) (put_rows (room bodies.old) (as_lists (listed bodies.old))) }
    ensures room { room bodies.new ≡ room bodies.old }
    ensures lent { bodies.new.items.ghost_name ≡ bodies.old.items.ghost_name }
{
    let mut rows = Conjunction::new(scratch.body);
    conjoin_body(known, body, &mut rows, scratch.spare, scratch.contraries)?;
    for row in rows.into_rows() {
        bodies.put(*row)?;
    }
    Ok(())
}

/// The rows of the bodies of all rules for an atom, put to one list in the front of `places`.
pub(crate) fn rows_of_bodies<'a>(
    known: Known<'_>,
    atom: u8,
    places: &'a mut [Row; ROWS],
    scratch: &mut Scratch<'_>,
) -> Result<&'a [Row], Full>
    ensures { told_rows result ≡ bodies_from 64 (options_of known.entry.board) (lower_lists known.entry) [] (rules_for (held_rules known.entry.board.model.now) atom) }
{
    let mut bodies = Antichain::new(places);
    for rule in known.board.model.rules() {
        if rule.head() == atom {
            put_body(known, rule.body(), &mut bodies, scratch)?;
        }
    }
    Ok(bodies.into_held())
}
