//! The signature that a call names, what its target is, and where its operands stand (JLS 15.12, 15.9, 8.8.7.1).

ghost use Rattle.std.specs.Prelude.{◌≡◌, ◌+◌};
ghost use Rattle.std.specs.Option.{option_copied};
ghost use Rattle.obligation_facts.specs.Callees.{callee, holds_operand, is_other_form, is_super_form, is_super_target, is_this_form, is_this_target, may_be_null_target, may_have_null_target};
ghost use Rattle.obligation_facts.specs.SmallActions.{IsSmallAction};

use crate::facts::has_temp;
use control_actions::{Action, Edge, Places, TargetForm, called_method, operand_at, target_form};
use program_model::{Method, Program, is_ignored, under};

/// The method or constructor that an action calls. None for an action that calls nothing, and for a number of no method.
pub fn callee(p: &Program, action: Action) -> Option<&Method>
    ensures { option_copied result ≡ callee p.now action }
{
    match called_method(action) {
        None => None,
        Some(method) => p.method(method),
    }
}

fn is_this_form(form: Option<TargetForm>) -> bool
    ensures { result ≡ is_this_form form }
{
    match form {
        None => false,
        Some(TargetForm::Static) => false,
        Some(TargetForm::This) => true,
        Some(TargetForm::Super) => true,
        Some(TargetForm::Other) => false,
    }
}

/// Whether the target of the call is `this`, written or implied. In `super.m(..)` it is.
pub fn is_this_target(action: Action) -> bool
    ensures { result ≡ is_this_target action }
{
    is_this_form(target_form(action))
}

fn is_other_form(form: Option<TargetForm>) -> bool
    ensures { result ≡ is_other_form form }
{
    match form {
        None => false,
        Some(TargetForm::Static) => false,
        Some(TargetForm::This) => false,
        Some(TargetForm::Super) => false,
        Some(TargetForm::Other) => true,
    }
}

/// Whether the call has a target that may be null: an expression other than `this`.
pub fn may_have_null_target(action: Action) -> bool
    ensures { result ≡ may_have_null_target action }
{
    is_other_form(target_form(action))
}

fn is_super_form(form: Option<TargetForm>) -> bool
    ensures { result ≡ is_super_form form }
{
    match form {
        None => false,
        Some(TargetForm::Static) => false,
        Some(TargetForm::This) => false,
        Some(TargetForm::Super) => true,
        Some(TargetForm::Other) => false,
    }
}

/// Whether the call is `super.m(..)`.
pub fn is_super_target(action: Action) -> bool
    ensures { result ≡ is_super_target action }
{
    is_super_form(target_form(action))
}

/// Whether the operand of a position of the call is among these places.
#[tactic(auto, using(crate::proofs::SmallOperands::operand_has_room))]
pub fn holds_operand(p: &Program, action: Action, held: Places, position: u32) -> bool
    requires { IsSmallAction p.now action }
    ensures { result ≡ holds_operand action held position }
{
    has_temp(held, operand_at(action, position))
}

/// Whether the operand of the parameter with this number, counted from 0, is among these places.
#[tactic(auto, using(crate::proofs::SmallOperands::no_operand))]
pub fn holds_argument(p: &Program, action: Action, held: Places, parameter: usize) -> bool
    requires { IsSmallAction p.now action }
    ensures { result ≡ holds_operand action held (parameter + 1) }
{
    if parameter < 64 {
        holds_operand(p, action, held, parameter as u32 + 1)
    } else {
        false
    }
}

/// Whether the edge may be that of the `NullPointerException` which a null target throws before the call starts: no
/// argument was passed then.
pub fn may_be_null_target(p: &Program, action: Action, edge: Edge) -> bool
    ensures { result ≡ may_be_null_target p.now action edge }
{
    match edge {
        Edge::Throws(thrown) => {
            may_have_null_target(action)
                && !is_ignored(p, p.core.null_pointer_exception)
                && under(p, p.core.null_pointer_exception, thrown)
        }
        _ => false,
    }
}
