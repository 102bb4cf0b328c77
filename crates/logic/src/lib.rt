//! What rules say in a world, and the minimal explanations of what they say. Each function is a theorem: its contract is the statement.
#![tactic(auto)]

ghost use Rattle.logic.specs.Atoms.{TableExplains, GoalExplains, ChoiceExplains};
ghost use Rattle.logic.specs.Duals.{ConjoinedBoth, DualsMinimal, CommonWorld, OpposesWorlds, DualsDeny, DualsAffirm};
ghost use Rattle.logic.specs.Examples.{Examples};
ghost use Rattle.logic.specs.Limits.{DualsLimited, TableLimited};
ghost use Rattle.logic.specs.Needed.{NeededJust, NeededOnly};
ghost use Rattle.logic.specs.Rules.{TruthStable, TruthOnly, TruthAlike};

/// An atom is true exactly if all literals of some rule's body for it are true.
pub fn truth_is_stable()
    ensures { TruthStable }
{}

/// No other truth of the atoms is stable.
pub fn truth_is_the_only_stable()
    ensures { TruthOnly }
{}

/// Rules that ask more than others for the same atom can be left out.
pub fn truth_is_alike()
    ensures { TruthAlike }
{}

/// A world contains a row of a conjunction exactly if it contains a row of each of its two lists.
pub fn conjunction_says_both()
    ensures { ConjoinedBoth }
{}

/// The duals of a list are the minimal well-formed rows that are compatible with no member.
pub fn duals_are_minimal()
    ensures { DualsMinimal }
{}

/// Two compatible well-formed rows have a world in common.
pub fn compatible_rows_share_a_world()
    ensures { CommonWorld }
{}

/// A row is compatible with no member exactly if no world that contains it contains a member.
pub fn opposing_is_seen_by_worlds()
    ensures { OpposesWorlds }
{}

/// Where rows cover a set of worlds, their duals are the minimal rows that exclude it.
pub fn duals_deny()
    ensures { DualsDeny }
{}

/// The duals of the duals are the minimal rows that force it.
pub fn duals_of_duals_affirm()
    ensures { DualsAffirm }
{}

/// The lists that are worked out for the atoms are their minimal explanations and those of their negations.
pub fn table_explains()
    ensures { TableExplains }
{}

/// So are those of a goal, where only the atoms that it needs are worked out.
pub fn goal_is_explained()
    ensures { GoalExplains }
{}

/// The lists of a choice are its minimal explanations and those of its negation.
pub fn choice_is_explained()
    ensures { ChoiceExplains }
{}

/// The atoms that a goal depends on can be worked out, and are all that it needs.
pub fn needed_atoms_are_just_enough()
    ensures { NeededJust }
{}

/// No other set of atoms is just what a goal needs.
pub fn needed_atoms_are_the_only_ones()
    ensures { NeededOnly }
{}

/// Duals are refused for want of room alone.
pub fn duals_are_limited_only()
    ensures { DualsLimited }
{}

/// The table of the atoms is refused for want of room alone.
pub fn table_is_limited_only()
    ensures { TableLimited }
{}

/// A small program, worked out by the definitions.
pub fn examples_come_out()
    ensures { Examples }
{}
