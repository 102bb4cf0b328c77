//! Asks for the explanations of wide boards, and prints how many there are, the first of them, or the refusal.
#![tactic(auto)]

use anyhow::anyhow;
use explain::{WORKSPACE, explain};
use model::{Kind, Literal, Model, Refusal, Suppositions};
use rows::Row;
use std::iter::Take;
use std::slice::Iter;

/// How many rows a result list has.
const RESULT: usize = 64;

/// The choice of an alternative, as a literal.
fn choice(alternative: u8, choice: u8) -> Literal {
    Literal {
        kind: Kind::Choice as u8,
        first: alternative,
        second: choice,
    }
}

/// Alternatives of two choices, and for atom 1 as many bodies as there are pairs of them: each the first choices of a pair.
fn pairs(count: u8) -> Result<Model, Refusal> {
    let mut model = Model::new();
    for pair in 0..count.min(8) {
        model.declare(&[1, 1])?;
        model.declare(&[1, 1])?;
        let first = 2 * pair + 1;
        model.state(1, &[choice(first, 1), choice(first + 1, 1)])?;
    }
    Ok(model)
}

/// Two bodies whose list is not the list of the minimal explanations: 1:1 with 2:1, and 1:2 with 3:1.
fn resolved() -> Result<Model, Refusal> {
    let mut model = Model::new();
    for weights in &[[3, 1], [2, 5], [4, 1]] {
        model.declare(weights)?;
    }
    model.state(2, &[choice(1, 1), choice(2, 1)])?;
    model.state(2, &[choice(1, 2), choice(3, 1)])?;
    Ok(model)
}

/// Prints what explaining an atom answers: the lengths of the two lists and the first places of each row.
fn print_answer(rt: HostRuntime, model: &Model, atom: u8) -> anyhow::Result<()> {
    let mut own = vec![in rt.alloc(); Row::empty(); RESULT]?;
    let mut negated = vec![in rt.alloc(); Row::empty(); RESULT]?;
    let mut workspace = vec![in rt.alloc(); Row::empty(); WORKSPACE]?;
    let goal = Literal {
        kind: Kind::Atom as u8,
        first: atom,
        second: 0,
    };
    let answer = explain(
        model,
        &Suppositions::none(),
        goal,
        &mut own,
        &mut negated,
        &mut workspace,
    );
    match answer {
        Ok(lengths) => {
            println!(rt; "{} {}", lengths.own, lengths.negated)?;
            print_rows(rt, own.iter().take(lengths.own))?;
            print_rows(rt, negated.iter().take(lengths.negated))
        }
        Err(refusal) => {
            println!(rt; "refused {} {}", refusal.number(), refusal.place())?;
            Ok(())
        }
    }
}

/// Prints the first three places of each of the first rows, at most six of them.
fn print_rows(rt: HostRuntime, rows: Take<Iter<'_, Row>>) -> anyhow::Result<()> {
    for row in rows.take(6) {
        let [first, second, third, ..] = row.choices;
        println!(rt; "  {first}{second}{third}")?;
    }
    Ok(())
}

/// Prints what explaining an atom of a board answers, where the board could be built.
fn print_board(rt: HostRuntime, board: Result<Model, Refusal>, atom: u8) -> anyhow::Result<()> {
    let model = board.map_err(|_| anyhow!("the board is refused"))?;
    print_answer(rt, &model, atom)
}

fn main(rt: HostRuntime) -> anyhow::Result<()> {
    print_board(rt, pairs(6), 1)?;
    print_board(rt, pairs(7), 1)?;
    print_board(rt, resolved(), 2)
}
