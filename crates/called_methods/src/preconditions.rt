//! What a call asks to have been called before on its arguments (`@CalledMethods`).

ghost use Rattle.std.specs.Prelude.{◌≡◌};
ghost use Rattle.obligation_facts.specs.SmallActions.{IsSmallAction};
ghost use Rattle.obligation_facts.specs.Callees.{callee};
ghost use Rattle.called_methods.specs.Preconditions.{asked_from, parameters_in, precondition_missing, some_names};

use crate::called_rows::when;
use control_actions::{Action, Fact, Places};
use obligation_facts::{callee, holds_argument};
use program_model::{ParamSig, Program};
use rlc_base::NameSet;

// The names that the parameters ask for whose operand is among these places.
fn asked_by(p: &Program, action: Action, held: Places, parameters: &[ParamSig]) -> NameSet
    requires { IsSmallAction p.now action }
    ensures { result ≡ asked_from action held 1 parameters.now }
{
    let mut names = NameSet::empty();
    for (number, parameter) in parameters.iter().enumerate() {
        names = names.union(when(holds_argument(p, action, held, number), parameter.before));
    }
    names
}

fn asked(p: &Program, action: Action, held: Places) -> NameSet
    requires { IsSmallAction p.now action }
    ensures { result ≡ asked_from action held 1 (parameters_in (callee p.now action)) }
{
    match callee(p, action) {
        None => NameSet::empty(),
        Some(method) => asked_by(p, action, held, &method.sig.params),
    }
}

/// The names, where there are some.
pub(crate) fn some_names(names: NameSet) -> Option<NameSet>
    ensures { result ≡ some_names names }
{
    if names.is_subset(NameSet::empty()) {
        None
    } else {
        Some(names)
    }
}

/// The names that the called signature asks to have been called before on the object and that were not; none where
/// nothing is missing. It takes no memory.
pub fn precondition(p: &Program, action: Action, fact: &Fact) -> Option<NameSet>
    requires { IsSmallAction p.now action }
    ensures { result ≡ precondition_missing p.now action fact.now }
{
    some_names(asked(p, action, fact.places).minus(fact.called))
}
