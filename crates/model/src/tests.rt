ghost use Rattle.std.specs.Prelude.{◌≡◌, Decides};

use crate::*;
use std::process::Abort;
use std::test::Fail;

fn literal(kind: u8, first: u8, second: u8) -> Literal {
    Literal {
        kind,
        first,
        second,
    }
}

// One alternative of two choices and one of three.
fn board() -> Model {
    let mut model = Model::new();
    let _ = model.declare(&[3, 1]);
    let _ = model.declare(&[2, 5, 7]);
    model
}

fn refused(
    rt: &impl Abort,
    head: u8,
    body: &[Literal],
    number: u8,
    place: usize,
) -> Result<(), Fail> {
    let mut model = board();
    let answer = model.state(head, body);
    assert!(rt; model == board());
    match answer {
        Ok(()) => Err(Fail::new("accepted")),
        Err(refusal) => {
            assert_eq!(rt; refusal.number(), number);
            assert_eq!(rt; refusal.place(), place);
            Ok(())
        }
    }
}

#[test]
fn the_first_byte_names_the_kind(rt: HostRuntime) {
    assert!(rt; literal(0, 1, 0).kind() == Some(Kind::Atom));
    assert!(rt; literal(1, 1, 0).kind() == Some(Kind::NotAtom));
    assert!(rt; literal(2, 1, 1).kind() == Some(Kind::Choice));
    assert!(rt; literal(3, 1, 1).kind() == Some(Kind::NotChoice));
    assert!(rt; literal(4, 1, 1).kind() == None);
}

#[test]
fn a_rule_meets_one_refusal(rt: HostRuntime) -> Result<(), Fail> {
    let a = literal(0, 1, 0);
    refused(&rt, 0, &[], 2, 0)?;
    refused(&rt, 25, &[a], 2, 0)?;
    refused(&rt, 2, &[a, literal(1, 25, 0)], 2, 2)?;
    refused(&rt, 2, &[a; 9], 3, 0)?;
    refused(&rt, 2, &[a, literal(4, 1, 1)], 4, 2)?;
    refused(&rt, 2, &[literal(1, 1, 7)], 4, 1)?;
    refused(&rt, 2, &[a, literal(0, 2, 0)], 5, 2)?;
    refused(&rt, 2, &[a, literal(2, 3, 1)], 12, 2)?;
    refused(&rt, 2, &[literal(3, 1, 3)], 12, 1)?;
    refused(&rt, 2, &[literal(2, 1, 0)], 12, 1)
}

#[test]
fn the_smallest_of_several_is_answered(rt: HostRuntime) -> Result<(), Fail> {
    refused(&rt, 0, &[literal(0, 0, 0)], 2, 0)?;
    refused(&rt, 1, &[literal(4, 0, 0), literal(0, 0, 0)], 2, 2)?;
    refused(&rt, 1, &[literal(0, 0, 9); 9], 2, 1)?;
    refused(&rt, 1, &[literal(2, 9, 9); 9], 3, 0)?;
    refused(
        &rt,
        1,
        &[
            literal(0, 1, 0),
            literal(2, 9, 9),
            literal(9, 0, 0),
            literal(9, 0, 0),
        ],
        4,
        3,
    )?;
    refused(
        &rt,
        1,
        &[literal(2, 9, 9), literal(1, 1, 0), literal(0, 1, 0)],
        5,
        2,
    )
}

#[test]
fn alternatives_are_counted(rt: HostRuntime) {
    let mut model = Model::new();
    assert!(rt; model.declare(&[1]) == Err(Refusal::NumberOfChoices));
    assert!(rt; model.declare(&[1; 9]) == Err(Refusal::NumberOfChoices));
    for _ in 0..16 {
        assert!(rt; model.declare(&[1; 8]) == Ok(()));
    }
    assert!(rt; model.declare(&[1, 2]) == Err(Refusal::NumberOfAlternatives));
    assert!(rt; model.declare(&[1]) == Err(Refusal::NumberOfChoices));
    assert!(rt; model.set_weight(16, 8, 5) == Ok(()));
    assert!(rt; model.set_weight(17, 1, 5) == Err(Refusal::NotDeclared { place: 0 }));
    assert!(rt; model.set_weight(16, 9, 5) == Err(Refusal::NotDeclared { place: 0 }));
    assert!(rt; model.set_weight(0, 1, 5) == Err(Refusal::NotDeclared { place: 0 }));
}

#[test]
fn a_body_is_a_set(rt: HostRuntime) {
    let (a, b, c) = (literal(0, 1, 0), literal(2, 1, 2), literal(3, 2, 3));
    let mut one = board();
    let mut other = board();
    assert!(rt; one.state(3, &[c, a, b, a]) == Ok(()));
    assert!(rt; other.state(3, &[a, b, c]) == Ok(()));
    assert!(rt; one == other);
    assert_eq!(rt; one.rules().len(), 1);
    assert!(rt; one.state(3, &[a, b, c, literal(0, 2, 0)]) == Ok(()));
    assert!(rt; one == other);
    assert!(rt; one.state(3, &[c]) == Ok(()));
    assert_eq!(rt; one.rules().len(), 1);
    assert!(rt; one.state(2, &[]) == Ok(()));
    assert!(rt; one.rules().len() == 2);
    assert_eq!(rt; one.rules()[0].head(), 2);
}

#[test]
fn rules_pass_128(rt: HostRuntime) {
    let mut model = Model::new();
    for _ in 0..9 {
        assert!(rt; model.declare(&[1; 8]) == Ok(()));
    }
    for alternative in 1..9 {
        for choice in 1..9 {
            assert!(rt; model.state(1, &[literal(2, alternative, choice)]) == Ok(()));
            assert!(rt; model.state(2, &[literal(2, alternative, choice)]) == Ok(()));
        }
    }
    assert_eq!(rt; model.rules().len(), 128);
    assert!(rt; model.state(3, &[]) == Err(Refusal::NumberOfRules));
    assert!(rt; model.state(1, &[literal(2, 1, 1), literal(2, 2, 2)]) == Ok(()));
    assert!(rt; model.state(1, &[]) == Ok(()));
    assert_eq!(rt; model.rules().len(), 65);
}

// Inside the inner scope both are supposed, after it the outer one alone, and after that neither.
fn nested(s: &mut Suppositions, model: &Model) -> ([u8; 16], [u8; 16], [u8; 16])
    ensures same { s.new ≡ s.old }
    ensures after { result.2 ≡ s.old.choices }
{
    let (inner, outer) = {
        let outer = suppose(s, model, 1, 2);
        let inner = {
            let inner = suppose(outer.suppositions, model, 2, 3);
            *inner.suppositions.choices()
        };
        (inner, *outer.suppositions.choices())
    };
    (inner, outer, *s.choices())
}

// Leaves early where the second is refused.
fn early(s: &mut Suppositions, model: &Model) -> Result<[u8; 16], Refusal>
    ensures { s.new ≡ s.old }
{
    let outer = suppose(s, model, 1, 2);
    outer.suppositions.check(model, 1, 1)?;
    let inner = suppose(outer.suppositions, model, 2, 3);
    Ok(*inner.suppositions.choices())
}

#[test]
fn supposings_end_as_they_began(rt: HostRuntime) {
    let model = board();
    let mut s = Suppositions::none();
    let (inner, outer, after) = nested(&mut s, &model);
    assert!(rt; inner[0] == 2 && inner[1] == 3 && inner[2] == 0);
    assert!(rt; outer[0] == 2 && outer[1] == 0);
    assert!(rt; after[0] == 0);
    assert!(rt; early(&mut s, &model) == Err(Refusal::AlreadySupposed));
    assert!(rt; s == Suppositions::none());
    assert!(rt; s.check(&model, 1, 3) == Err(Refusal::NotDeclared { place: 0 }));
    assert!(rt; s.check(&model, 1, 2) == Ok(()));
    {
        let none = suppose(&mut s, &model, 3, 1);
        assert!(rt; *none.suppositions == Suppositions::none());
    }
    assert!(rt; s == Suppositions::none());
}

// What `==` says of two literals, alternatives, rules, models and suppositions: that they are the same value. One function for
// each, since a bound of PartialEq alone says less.
fn same_literals(x: &Literal, y: &Literal) -> bool
    ensures { Decides result (x.now ≡ y.now) }
{
    x == y
}

fn same_alternatives(x: &Alternative, y: &Alternative) -> bool
    ensures { Decides result (x.now ≡ y.now) }
{
    x == y
}

fn same_rules(x: &Rule, y: &Rule) -> bool
    ensures { Decides result (x.now ≡ y.now) }
{
    x == y
}

fn same_models(x: &Model, y: &Model) -> bool
    ensures { Decides result (x.now ≡ y.now) }
{
    x == y
}

fn same_suppositions(x: &Suppositions, y: &Suppositions) -> bool
    ensures { Decides result (x.now ≡ y.now) }
{
    x == y
}
