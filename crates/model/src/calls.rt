ghost use Rattle.std.specs.Prelude.{◌≡◌, ◌≤◌, [], map, is_ok, OnErr, slice_index};
ghost use Rattle.model.specs.Alternatives.{weights_of};
ghost use Rattle.model.specs.Journal.{Journal, Agrees, feed, declares, weighs, states};
ghost use Rattle.model.specs.Judging.{is_declared};
ghost use Rattle.model.specs.Models.{alternatives, rules, sizes, declaring, weighing, stating, outcome};

use crate::alternative::CHOICES;
use crate::model::{ALTERNATIVES, RULES};
use crate::{Alternative, Literal, Model, Refusal, Rule, Suppositions};

impl Model {
    /// The empty model.
    pub fn new() -> Model
        ensures alternatives { alternatives result ≡ [] }
        ensures rules { rules result ≡ [] }
    {
        Model {
            declared: 0,
            alternatives: [Alternative::BLANK; ALTERNATIVES],
            held: 0,
            rules: [Rule::BLANK; RULES],
        }
    }

    /// Declares one more alternative, with the raw weight of each choice.
    pub fn declare(&mut self, weights: &[u32]) -> Result<(), Refusal>
        ensures defined { outcome result (alternatives self.new) ≡ declaring (alternatives self.old) weights.now }
        ensures rules { rules self.new ≡ rules self.old }
        ensures refused { OnErr result (self.new ≡ self.old) }
        ensures journal { (j : Journal) (s : Suppositions) → Agrees j self.old s → Agrees (feed j (declares weights.now) (is_ok result)) self.new s }
    {
        if !(2..=CHOICES).contains(&weights.len()) {
            return Err(Refusal::NumberOfChoices);
        }
        if self.declared == ALTERNATIVES {
            return Err(Refusal::NumberOfAlternatives);
        }
        self.alternatives[self.declared] = Alternative::new(weights);
        self.declared += 1;
        Ok(())
    }

    /// Whether `choice` is declared at `alternative`, both counted from 1.
    pub fn is_declared(&self, alternative: u8, choice: u8) -> bool
        ensures { result ≡ is_declared (sizes (alternatives self.now)) alternative choice }
    {
        alternative >= 1 && (1..=self.choices_at(alternative as usize - 1)).contains(&choice)
    }

    /// How many choices the alternative at a place has, counted from 0; none where nothing is declared there.
    pub fn choices_at(&self, place: usize) -> u8
        ensures count { result ≡ slice_index (sizes (alternatives self.now)) place }
        ensures few { result ≤ 8 }
    {
        // The places past the declared ones are blank, with no choices.
        self.alternatives.get(place).map_or(0, |a| a.choices)
    }

    /// Sets the raw weight of one choice.
    pub fn set_weight(&mut self, alternative: u8, choice: u8, weight: u32) -> Result<(), Refusal>
        ensures defined { outcome result (alternatives self.new) ≡ weighing (alternatives self.old) alternative choice weight }
        ensures rules { rules self.new ≡ rules self.old }
        ensures refused { OnErr result (self.new ≡ self.old) }
        ensures journal { (j : Journal) (s : Suppositions) → Agrees j self.old s → Agrees (feed j (weighs alternative choice weight) (is_ok result)) self.new s }
    {
        if !self.is_declared(alternative, choice) {
            return Err(Refusal::NotDeclared { place: 0 });
        }
        self.alternatives[alternative as usize - 1].weights[choice as usize - 1] = weight;
        Ok(())
    }

    /// States a rule: its head, and its body as given, in any order and with repeats. A rule that is at or above a held one
    /// is accepted and changes nothing.
    pub fn state(&mut self, head: u8, body: &[Literal]) -> Result<(), Refusal>
        ensures defined { outcome result (rules self.new) ≡ stating (alternatives self.old) (rules self.old) head body.now }
        ensures alternatives { alternatives self.new ≡ alternatives self.old }
        ensures refused { OnErr result (self.new ≡ self.old) }
        ensures journal { (j : Journal) (s : Suppositions) → Agrees j self.old s → Agrees (feed j (states head body.now) (is_ok result)) self.new s }
    {
        self.judge(head, body)?;
        let rule = Rule::new(head, body);
        let before = self.held;
        let held = rows::put(&mut self.rules, self.held, rule).map_err(|_| Refusal::NumberOfRules)?;
        // Those that went out leave these places behind; past them all are blank already.
        self.rules[held..before.max(held)].fill(Rule::BLANK);
        self.held = held;
        Ok(())
    }

    /// The alternatives, in the order of declaration.
    pub fn alternatives(&self) -> &[Alternative]
        ensures { map weights_of result.now ≡ alternatives self.now }
    {
        &self.alternatives[..self.declared]
    }

    /// The rules that are held, in order.
    pub fn rules(&self) -> &[Rule]
        ensures { result.now ≡ rules self.now }
    {
        &self.rules[..self.held]
    }
}
