//! The choices of the library, in the order in which they are used.

ghost use Rattle.std.specs.Prelude.{◌≡◌};
ghost use Rattle.ledger_operations.specs.Operations.{next_choice, one_more_used};

use stub_conduct::Choice;

/// The choice that is taken next, where so many are used. Past the end each is way 0 with value 0.
pub fn next_choice(choices: &[Choice], used: usize) -> Choice
    ensures { result ≡ next_choice choices.now used }
{
    match choices.get(used) {
        None => Choice { way: 0, value: 0 },
        Some(choice) => *choice,
    }
}

/// The number of choices that are used, once one more is.
pub fn one_more_used(choices: &[Choice], used: usize) -> usize
    ensures { result ≡ one_more_used choices.now used }
{
    used.saturating_add(1).min(choices.len())
}
