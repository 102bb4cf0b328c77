ghost use Rattle.std.specs.Prelude.{◌≡◌, suc, ◌<◌, ◌≤◌, length};
ghost use Rattle.logic.specs.Atoms.{worked};
ghost use Rattle.model.specs.Meaning.{held_rules};
ghost use Rattle.explain.specs.Options.{options_of};
ghost use Rattle.explain.specs.Tables.{lower_lists, told_lists};
ghost use Rattle.explain.specs.Explaining.{WorkedUp};
ghost use Rattle.explain.specs.Marks.{marked};

use crate::Board;
use crate::atoms::{ATOMS, Known, rows_of_bodies};
use crate::duals::{Scratch, duals};
use crate::lists::{Lists, ROWS};
use model::Refusal;
use rows::{Full, Row};

/// The lists of the atoms, from atom 0 on: no rows for those that were not worked.
#[derive(Clone, Copy)]
pub(crate) struct Table<'a> {
    pub lists: [Lists<'a>; ATOMS],
}

/// The two lists of an atom, in the fronts of `own` and `negated`: the negated list is the duals of the rows of all bodies
/// for the atom, and the own list the duals of the negated one.
fn work<'a>(
    known: Known<'_>,
    atom: u8,
    own: &'a mut [Row; ROWS],
    negated: &'a mut [Row; ROWS],
    scratch: &mut Scratch<'_>,
) -> Result<Lists<'a>, Full>
    ensures { told_lists result ≡ worked 64 (options_of known.entry.board) (held_rules known.entry.board.model.now) (lower_lists known.entry) atom }
{
    let bodies = rows_of_bodies(known, atom, own, scratch)?;
    let negated = duals(known.board, bodies, negated, scratch)?;
    let own = duals(known.board, negated, own, scratch)?;
    Ok(Lists { own, negated })
}

/// Works the marked atoms up to `last`, from the lowest up, in as many of `places` as they need. Refused with the first atom
/// that has a list that is too long.
pub(crate) fn work_up<'a>(
    board: Board<'_>,
    marks: &[bool; ATOMS],
    last: u8,
    mut places: &'a mut [[Row; ROWS]],
    scratch: &mut Scratch<'_>,
) -> Result<Table<'a>, Refusal>
    requires last { last < 25 }
    requires room { 50 ≤ length places.old }
    ensures { WorkedUp result (options_of board.entry) (held_rules board.entry.model.now) (marked marks.now) (suc last) }
{
    let mut lists = [Lists::nothing(); ATOMS];
    // By number: an atom is worked from the lists below its own.
    for atom in 0..=last {
        let at = atom as usize;
        if marks[at] {
            let [own, negated, rest @ ..] = places else {
                return Err(Refusal::ShortSpace);
            };
            places = rest;
            let known = Known {
                board,
                lower: &lists[..at],
            };
            let found = work(known, atom, own, negated, scratch);
            lists[at] = found.map_err(|_| Refusal::TooManyRows { atom })?;
        }
    }
    Ok(Table { lists })
}
