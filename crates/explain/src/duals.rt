ghost use Rattle.std.specs.Prelude.{◌≡◌, ◌≤◌, [], ◌∷◌, length, replicate, IfOk};
ghost use Rattle.rows.specs.Holding.{listed, room};
ghost use Rattle.rows.specs.Keeping.{told};
ghost use Rattle.rows.specs.Lending as lending;
ghost use Rattle.logic.specs.Duals.{put_rows, unions, duals};
ghost use Rattle.explain.specs.Lists.{as_lists, told_rows};
ghost use Rattle.explain.specs.Options.{options_of};

use crate::Board;
use crate::choices::{CONTRARIES, contraries};
use crate::lists::ROWS;
use rows::{Antichain, Full, Lent, Row};

/// Rows that lists are worked in. What they hold before and afterwards does not matter.
#[derive(Drop)]
pub(crate) struct Scratch<'a> {
    pub body: &'a mut [Row; ROWS],
    pub spare: &'a mut [Row; ROWS],
    pub contraries: &'a mut [Row; CONTRARIES],
}

/// A conjunction of lists: the rows that are held, in order.
#[derive(Drop)]
pub(crate) struct Conjunction<'a> {
    rows: Lent<'a, Row>,
    ghost few: { length (lending.items rows) ≤ 64 },
    ghost room: { 64 ≤ lending.room rows },
}

impl<'a> Conjunction<'a> {
    ghost use Rattle.logic.specs.Duals.{conjoined};
    ghost use Rattle.explain.specs.Conjunctions.{rows_in};

    /// The conjunction of no list, which is the empty row.
    pub fn new(rows: &'a mut [Row; ROWS]) -> Self
        ensures { rows_in result ≡ replicate 16 0 ∷ [] }
    {
        let mut rows = Lent::new(rows);
        rows.push(Row::empty()).unwrap();
        Conjunction { rows }
    }

    /// Conjoins one list more: every consistent union of a row that is held and one of `others`, those of the first row that is
    /// held first. They are worked in `spare`.
    pub fn and(&mut self, others: &[Row], spare: &mut [Row; ROWS]) -> Result<(), Full>
        ensures { told result (rows_in self.new) ≡ conjoined 64 (rows_in self.old) (as_lists others.now) }
    {
        let mut next = Antichain::new(spare);
        for row in self.rows.as_slice() {
            put_unions(row, others, &mut next)?;
        }
        self.rows.clear();
        self.rows.extend_from_slice(next.held())
    }

    /// The rows of the conjunction, in order.
    pub fn into_rows(self) -> &'a [Row]
        ensures rows { as_lists result.now ≡ rows_in self.entry }
        ensures few { length result.now ≤ 64 }
    {
        self.rows.into_slice()
    }
}

/// Puts the unions of a row with those of `others` that are compatible with it to a list.
// That the list keeps its room and its slice is said in the words of `Antichain::put`, which are public.
fn put_unions(row: &Row, others: &[Row], list: &mut Antichain<'_, Row>) -> Result<(), Full>
    ensures defined { told result (as_lists (listed list.new)) ≡ put_rows (room list.old) (as_lists (listed list.old)) (unions row.now.choices (as_lists others.now)) }
    ensures room { room list.new ≡ room list.old }
    ensures lent { list.new.items.ghost_name ≡ list.old.items.ghost_name }
{
    for other in others {
        if row.compatible(other) {
            list.put(row.union(other))?;
        }
    }
    Ok(())
}

/// The duals of `members`, in the front of `rows`.
pub(crate) fn duals<'a>(
    board: Board<'_>,
    members: &[Row],
    rows: &'a mut [Row; ROWS],
    scratch: &mut Scratch<'_>,
) -> Result<&'a [Row], Full>
    ensures defined { told_rows result ≡ duals 64 (options_of board.entry) (as_lists members.now) }
    ensures few { IfOk result (λ rows. length rows.now ≤ 64) }
{
    let mut duals = Conjunction::new(rows);
    for member in members {
        let others = contraries(board, member, scratch.contraries)?;
        duals.and(others, scratch.spare)?;
    }
    Ok(duals.into_rows())
}
