//! Reads a card from standard input, and says which atoms its rules are about, or why it is refused.
#![tactic(auto)]

ghost use Rattle.std.specs.Prelude.{◌≡◌, ℕ, length, filter, nat_eq};

use anyhow::anyhow;
use card::load;
use model::{Model, Rule};
use std::io::Read;

/// A longer input is cut here.
const LONGEST: u64 = 65536;

/// How many of the rules are about an atom.
fn count_of(rules: &[Rule], atom: u8) -> usize
    ensures { result ≡ length (filter (λ x. nat_eq x.head atom) rules.now) }
{
    rules.iter().filter(|rule| rule.head() == atom).count()
}

fn main(rt: HostRuntime) -> anyhow::Result<()> {
    let mut card = Vec::new(rt.alloc());
    rt.stdin().take(LONGEST).read_to_end(&mut card)?;
    let mut model = Model::new();
    if let Err(fault) = load(&mut model, &card) {
        println!(rt; "{fault}")?;
        return Err(anyhow!("the card is refused"));
    }
    for atom in 1..25 {
        let count = count_of(model.rules(), atom);
        if count > 0 {
            println!(rt; "{atom} {count}")?;
        }
    }
    Ok(())
}
