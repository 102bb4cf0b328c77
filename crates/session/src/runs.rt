ghost use Rattle.std.specs.Prelude.{◌≡◌, ◌+◌, ◌<◌, ◌^◌, ◌∷◌, map, length, slice_set};
ghost use Rattle.model.specs.Journal.{Journal, Agrees, declares, fresh};
ghost use Rattle.model.specs.declared.suppositions.Suppositions.{Suppositions};
ghost use Rattle.session.specs.Sessions.{called, accepts, after, acceptances, overwritten};
ghost use Rattle.session.specs.Running.{answered, ending, left, place, Ran, Stopped};

use crate::Call;
use model::{Model, Suppositions, suppose};
use std::iter::Enumerate;
use std::ops::ControlFlow;
use std::slice::Iter;

/// Declares an alternative, and says whether the session accepts it.
// Not inlined, so that a run within a supposing takes no room on the stack for an alternative.
#[inline(never)]
fn declare(model: &mut Model, weights: &[u32]) -> bool
    ensures accepted { (j : Journal) (s : Suppositions) → Agrees j model.old s → result ≡ accepts j (declares weights.now) }
    ensures journal { (j : Journal) (s : Suppositions) → Agrees j model.old s → Agrees (answered j (declares weights.now)) model.new s }
{
    model.declare(weights).is_ok()
}

/// Makes a call, unless it begins or ends a supposing, and says whether the session accepts it.
// Inlined, since it is called for each call of a list, from both of the loops over them.
#[inline(always)]
fn answer(model: &mut Model, suppositions: &Suppositions, call: &Call<'_>) -> bool
    ensures accepted { (j : Journal) → Agrees j model.old suppositions.now → result ≡ accepts j (called call.now) }
    ensures journal { (j : Journal) → Agrees j model.old suppositions.now → Agrees (answered j (called call.now)) model.new suppositions.now }
{
    match *call {
        Call::Declare { weights } => declare(model, weights),
        Call::SetWeight {
            alternative,
            choice,
            weight,
        } => model.set_weight(alternative, choice, weight).is_ok(),
        Call::State { head, body } => model.state(head, body).is_ok(),
        Call::Check {
            alternative,
            choice,
        } => suppositions.check(model, alternative, choice).is_ok(),
        Call::Suppose { .. } | Call::End => true,
    }
}

/// Writes a flag, where there is a place for it.
fn mark(flags: &mut [bool], at: usize, flag: bool)
    ensures { flags.new ≡ slice_set flags.old at flag }
{
    // What is written through `get_mut` is not known of the slice afterwards, so the proof needs the index.
    if at < flags.len() {
        flags[at] = flag;
    }
}

/// Makes a call, and where it begins a supposing, the calls that are left up to its end; or up to the last call, and then breaks
/// off with what was supposed there.
// Model and suppositions stay two parameters, since the guard of a supposing lends the suppositions alone.
// Inlined, so that a supposing within another takes one frame on the stack.
#[cycle(run)]
#[inline(always)]
fn make(
    model: &mut Model,
    suppositions: &mut Suppositions,
    call: &Call<'_>,
    at: usize,
    calls: &mut Enumerate<Iter<'_, Call<'_>>>,
    accepted: &mut [bool],
) -> ControlFlow<Suppositions>
    requires next { place calls.old ≡ at + 1 }
    requires room { place calls.old + length (left calls.old) < 2 ^ 64 }
    ensures same { suppositions.new ≡ suppositions.old }
    ensures stopped { Stopped result (call.now ∷ left calls.old) at calls.new }
    ensures ran { (j : Journal) → Agrees j model.old suppositions.old → Ran (ending call.now) result j (call.now ∷ left calls.old) at calls.new accepted.old accepted.new model.new suppositions.new }
{
    let ok = answer(model, suppositions, call);
    mark(accepted, at, ok);
    match *call {
        Call::Suppose {
            alternative,
            choice,
        } => {
            let guard = suppose(suppositions, model, alternative, choice);
            run_within(model, guard.suppositions, calls, accepted)
        }
        _ => ControlFlow::Continue(()),
    }
}

/// Runs the calls that are left, up to the end of the supposing that it is in; or up to the last call, and then breaks off
/// with what was supposed there.
#[cycle(run)]
fn run_within(
    model: &mut Model,
    suppositions: &mut Suppositions,
    calls: &mut Enumerate<Iter<'_, Call<'_>>>,
    accepted: &mut [bool],
) -> ControlFlow<Suppositions>
    requires { place calls.old + length (left calls.old) < 2 ^ 64 }
    ensures same { suppositions.new ≡ suppositions.old }
    ensures stopped { Stopped result (left calls.old) (place calls.old) calls.new }
    ensures ran { (j : Journal) → Agrees j model.old suppositions.old → Ran (ending Call.End) result j (left calls.old) (place calls.old) calls.new accepted.old accepted.new model.new suppositions.new }
{
    // Not a `for`: a supposing that begins takes the next calls from the same iterator.
    while let Some((at, call)) = calls.next() {
        make(model, suppositions, call, at, calls, accepted)?;
        if let Call::End = call {
            return ControlFlow::Continue(());
        }
    }
    ControlFlow::Break(*suppositions)
}

/// Runs all calls on an empty model, writes for each whether it was accepted, as far as there are places, and says what is
/// supposed behind the last one, where the supposings that have not ended still last.
pub fn replay(calls: &[Call<'_>], model: &mut Model, accepted: &mut [bool]) -> Suppositions
    ensures agrees { Agrees (after fresh (map called calls.now)) model.new result }
    ensures accepted { accepted.new ≡ overwritten accepted.old (acceptances fresh (map called calls.now)) }
{
    *model = Model::new();
    let mut suppositions = Suppositions::none();
    let mut rest = calls.iter().enumerate();
    while let Some((at, call)) = rest.next() {
        // An end without a beginning changes nothing.
        let made = make(model, &mut suppositions, call, at, &mut rest, accepted);
        if let ControlFlow::Break(supposed) = made {
            return supposed;
        }
    }
    suppositions
}

/// Runs all calls on an empty model, and says what is supposed behind the last one.
pub fn run(calls: &[Call<'_>], model: &mut Model) -> Suppositions
    ensures { Agrees (after fresh (map called calls.now)) model.new result }
{
    replay(calls, model, &mut [])
}

#[cfg(test)]
mod tests {
    use super::*;
    use model::{Kind, Literal};

    const LOW: Literal = Literal {
        kind: Kind::Choice as u8,
        first: 1,
        second: 1,
    };

    const UNKNOWN: Literal = Literal {
        kind: Kind::Choice as u8,
        first: 3,
        second: 1,
    };

    #[test]
    fn nested_supposings_end_in_turn(rt: HostRuntime) {
        let calls = [
            Call::Declare { weights: &[1, 2] },
            Call::Declare {
                weights: &[1, 2, 3],
            },
            Call::Suppose {
                alternative: 1,
                choice: 2,
            },
            Call::Suppose {
                alternative: 2,
                choice: 3,
            },
            Call::Check {
                alternative: 2,
                choice: 1,
            },
            Call::End,
            Call::Check {
                alternative: 2,
                choice: 1,
            },
        ];
        let mut model = Model::new();
        let mut accepted = [false; 8];
        let supposed = replay(&calls, &mut model, &mut accepted);
        assert!(rt; *supposed.choices() == [2, 0, 0, 0, 0, 0, 0, 0, 0, 0, 0, 0, 0, 0, 0, 0]);
        assert!(rt; accepted == [true, true, true, true, false, true, true, false]);
    }

    #[test]
    fn an_end_without_a_beginning_changes_nothing(rt: HostRuntime) {
        let calls = [
            Call::Declare { weights: &[1, 2] },
            Call::End,
            Call::Suppose {
                alternative: 1,
                choice: 1,
            },
        ];
        let mut model = Model::new();
        let supposed = run(&calls, &mut model);
        assert!(rt; model.is_declared(1, 2));
        assert!(rt; *supposed.choices() == [1, 0, 0, 0, 0, 0, 0, 0, 0, 0, 0, 0, 0, 0, 0, 0]);
    }

    #[test]
    fn a_refused_call_in_the_middle_is_passed_over(rt: HostRuntime) {
        let calls = [
            Call::Declare { weights: &[1, 2] },
            Call::State {
                head: 1,
                body: &[UNKNOWN],
            },
            Call::Declare { weights: &[1] },
            Call::State {
                head: 1,
                body: &[LOW],
            },
            Call::SetWeight {
                alternative: 1,
                choice: 2,
                weight: 7,
            },
        ];
        let mut model = Model::new();
        let mut accepted = [true; 4];
        let supposed = replay(&calls, &mut model, &mut accepted);
        assert!(rt; accepted == [true, false, false, true]);
        assert!(rt; !model.is_declared(2, 1));
        assert!(rt; *supposed.choices() == [0; 16]);
    }
}
