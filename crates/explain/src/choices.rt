ghost use Rattle.std.specs.Prelude.{◌≡◌, ℕ, ◌≤◌, Bool, [], length, filter, IsOkAnd, slice_index_or};
ghost use Rattle.rows.specs.Lending.{Grown};
ghost use Rattle.logic.specs.Atoms.{rows_at, choice_lists};
ghost use Rattle.logic.specs.Duals.{contrary};
ghost use Rattle.explain.specs.Lists.{Answers, alone_rows, as_lists, lists_in};
ghost use Rattle.explain.specs.Options.{options_of};

use crate::Board;
use crate::lists::{Lists, ROWS};
use rows::{Full, Lent, PLACES, Row};

/// The most choices that are contrary to a row: eight of each alternative.
pub(crate) const CONTRARIES: usize = 8 * PLACES;

/// Appends the options of a place that are wanted, each alone in a row.
fn push_options<F: Fn(u8) -> bool>(
    board: Board<'_>,
    place: usize,
    wanted: F,
    list: &mut Lent<'_, Row>,
) -> Result<(), Full>
    requires { F.IsAlwaysCallable wanted }
    ensures { (p : ℕ → Bool) → Answers (F.post wanted) p → Grown list.old list.new (alone_rows place (filter p (slice_index_or (options_of board.entry) place []))) result }
{
    for option in board.options_at(place) {
        if wanted(option) {
            list.push(Row::empty().with(place, option))?;
        }
    }
    Ok(())
}

/// The rows of the options of a place that are wanted, in the front of `places`. Where a world has only one choice to take at
/// the place, they are the empty row or none.
fn choice_rows<'a, F: Fn(u8) -> bool>(
    board: Board<'_>,
    place: usize,
    wanted: F,
    places: &'a mut [Row],
) -> Result<&'a [Row], Full>
    requires callable { F.IsAlwaysCallable wanted }
    requires room { 8 ≤ length places.old }
    ensures { (p : ℕ → Bool) → Answers (F.post wanted) p → IsOkAnd result (λ rows. (as_lists rows.now ≡ rows_at (options_of board.entry) place p (slice_index_or (options_of board.entry) place [])) × (length rows.now ≤ 8)) }
{
    let mut list = Lent::new(places);
    let (first, last) = board.options_at(place).into_inner();
    if first < last {
        push_options(board, place, wanted, &mut list)?;
    } else if wanted(last) {
        list.push(Row::empty())?;
    }
    Ok(list.into_slice())
}

/// The rows of a choice, in the front of `places`.
pub(crate) fn own_rows<'a>(
    board: Board<'_>,
    place: usize,
    choice: u8,
    places: &'a mut [Row],
) -> Result<&'a [Row], Full>
    requires { 8 ≤ length places.old }
    ensures { IsOkAnd result (λ rows. (as_lists rows.now ≡ (choice_lists (options_of board.entry) place choice).own) × (length rows.now ≤ 8)) }
{
    choice_rows(board, place, |option| option == choice, places)
}

/// The rows of the negation of a choice, in the front of `places`.
pub(crate) fn negated_rows<'a>(
    board: Board<'_>,
    place: usize,
    choice: u8,
    places: &'a mut [Row],
) -> Result<&'a [Row], Full>
    requires { 8 ≤ length places.old }
    ensures { IsOkAnd result (λ rows. (as_lists rows.now ≡ (choice_lists (options_of board.entry) place choice).negated) × (length rows.now ≤ 8)) }
{
    choice_rows(board, place, |option| option != choice, places)
}

/// The rows of a choice and those of its negation, written to `scratch`.
pub(crate) fn choice_lists<'a>(
    board: Board<'_>,
    place: usize,
    choice: u8,
    scratch: &'a mut [Row; CONTRARIES],
) -> Result<Lists<'a>, Full>
    ensures { IsOkAnd result (λ lists. lists_in lists ≡ choice_lists (options_of board.entry) place choice) }
{
    let (own, negated) = scratch.split_at_mut(ROWS);
    Ok(Lists {
        own: own_rows(board, place, choice, own)?,
        negated: negated_rows(board, place, choice, negated)?,
    })
}

/// The choices contrary to a row, each alone, in the front of `places`: the other choices of the alternatives that it touches,
/// in order.
pub(crate) fn contraries<'a>(
    board: Board<'_>,
    member: &Row,
    places: &'a mut [Row; CONTRARIES],
) -> Result<&'a [Row], Full>
    ensures { IsOkAnd result (λ rows. as_lists rows.now ≡ contrary (options_of board.entry) member.now.choices) }
{
    let mut list = Lent::new(places);
    for (place, choice) in member.choices.iter().enumerate() {
        if *choice != 0 {
            push_options(board, place, |option| option != *choice, &mut list)?;
        }
    }
    Ok(list.into_slice())
}
