ghost use Rattle.std.specs.Prelude.{◌≡◌, ◌<◌, ◌≤◌, true, false, length, take, is_ok, IfOk};
ghost use Rattle.model.specs.Journal.{Journal, Agrees, feed, asks};
ghost use Rattle.model.specs.Meaning.{meaning, held_rules};
ghost use Rattle.explain.specs.Explaining.{WorkedUp, wanted, height, worked_for, explaining, counts, rows_of, over, padded, enough, ExplainedIn};
ghost use Rattle.explain.specs.Lists.{as_lists};
ghost use Rattle.explain.specs.Options.{options_of};

use crate::atoms::{ATOMS, Known};
use crate::choices::CONTRARIES;
use crate::duals::Scratch;
use crate::lists::{Lists, ROWS};
use crate::marks::{atom_of, mark};
use crate::work::{Table, work_up};
use crate::{Board, Lengths};
use model::{Literal, Model, Refusal, Suppositions};
use rows::Row;

/// How many rows of workspace a question is lent.
pub const WORKSPACE: usize = 4096;

/// Whether two result lists and a workspace of these lengths suffice.
fn suffices(own: usize, negated: usize, workspace: usize) -> bool
    ensures { result ≡ enough own negated workspace }
{
    own >= ROWS && negated >= ROWS && workspace >= WORKSPACE
}

/// Works the atoms that a goal depends on.
fn work_for<'a>(
    board: Board<'_>,
    goal: &Literal,
    places: &'a mut [[Row; ROWS]],
    scratch: &mut Scratch<'_>,
) -> Result<Table<'a>, Refusal>
    requires goal { goal.now.kind ≤ 1 → goal.now.first < 25 }
    requires room { 50 ≤ length places.old }
    ensures { WorkedUp result (options_of board.entry) (held_rules board.entry.model.now) (wanted (held_rules board.entry.model.now) (meaning goal.now)) (height (meaning goal.now)) }
{
    let Some(atom) = atom_of(goal) else {
        return Ok(Table {
            lists: [Lists::nothing(); ATOMS],
        });
    };
    let mut marks = [false; ATOMS];
    mark(board.model.rules(), atom, &mut marks);
    work_up(board, &marks, atom, places, scratch)
}

/// Works the two lists of a goal and copies them to the fronts of `own` and `negated`, and says how many rows they have. Where
/// a list is too long, `own` and `negated` stay.
fn answer(
    board: Board<'_>,
    goal: &Literal,
    own: &mut [Row],
    negated: &mut [Row],
    workspace: &mut [Row],
) -> Result<Lengths, Refusal>
    requires goal { goal.now.kind ≤ 1 → goal.now.first < 25 }
    requires own { 64 ≤ length own.old }
    requires negated { 64 ≤ length negated.old }
    requires workspace { 4096 ≤ length workspace.old }
    ensures counts { result ≡ counts (worked_for (options_of board.entry) (held_rules board.entry.model.now) (meaning goal.now)) }
    ensures own { as_lists own.new ≡ over (rows_of false (worked_for (options_of board.entry) (held_rules board.entry.model.now) (meaning goal.now))) (as_lists own.old) }
    ensures negated { as_lists negated.new ≡ over (rows_of true (worked_for (options_of board.entry) (held_rules board.entry.model.now) (meaning goal.now))) (as_lists negated.old) }
{
    let Some((contraries, rest)) = workspace.split_first_chunk_mut::<CONTRARIES>() else {
        return Err(Refusal::ShortSpace);
    };
    let (lists, _) = rest.as_chunks_mut::<ROWS>();
    let [body, spare, places @ ..] = lists else {
        return Err(Refusal::ShortSpace);
    };
    let mut scratch = Scratch {
        body,
        spare,
        contraries,
    };
    let table = work_for(board, goal, places, &mut scratch)?;
    let known = Known {
        board,
        lower: &table.lists,
    };
    let lists = known
        .literal(goal, scratch.contraries)
        .map_err(|_| Refusal::ShortSpace)?;
    own[..lists.own.len()].copy_from_slice(lists.own);
    negated[..lists.negated.len()].copy_from_slice(lists.negated);
    Ok(lists.lengths())
}

/// Every minimal explanation of a goal, in the front of `own`, and every one of its negation, in the front of `negated`, in
/// order, and how many they are. What the places after them held is lost: they hold empty rows. Where the question is refused,
/// both lists hold empty rows throughout. `own` and `negated` have at least 64 places, `workspace` has at least 4,096; what it
/// holds before does not matter, and afterwards is of no use.
// Model and suppositions are two parameters, since this is public so; inside they are one `Board`.
pub fn explain(
    model: &Model,
    suppositions: &Suppositions,
    goal: Literal,
    own: &mut [Row],
    negated: &mut [Row],
    workspace: &mut [Row],
) -> Result<Lengths, Refusal>
    ensures counts { result ≡ counts (explaining model.now suppositions.now goal (enough (length own.old) (length negated.old) (length workspace.old))) }
    ensures own { as_lists own.new ≡ padded (length own.old) (rows_of false (explaining model.now suppositions.now goal (enough (length own.old) (length negated.old) (length workspace.old)))) }
    ensures negated { as_lists negated.new ≡ padded (length negated.old) (rows_of true (explaining model.now suppositions.now goal (enough (length own.old) (length negated.old) (length workspace.old)))) }
    ensures explained { (j : Journal) → Agrees j model.now suppositions.now → IfOk result (λ n. ExplainedIn j goal (take n.own (as_lists own.new)) (take n.negated (as_lists negated.new))) }
    ensures journal { (j : Journal) → Agrees j model.now suppositions.now → Agrees (feed j (asks goal) (is_ok result)) model.now suppositions.now }
{
    own.fill(Row::empty());
    negated.fill(Row::empty());
    let enough = suffices(own.len(), negated.len(), workspace.len());
    model.judge_question(suppositions, &goal, enough)?;
    let board = Board {
        model,
        suppositions,
    };
    answer(board, &goal, own, negated, workspace)
}
