//! What an action calls: the method, the form of its target, and where its operands stand.

ghost use Rattle.std.specs.Prelude.{◌≡◌, ◌≤◌};
ghost use Rattle.program_model.specs.Lookups.{method_at};
ghost use Rattle.control_actions.specs.Calls.{call_operand, called_method, completion_temp, is_reset_of_this, is_this_form, new_operand, operand_at, resets_receiver, target_form, temp_at, without_receiver};

use crate::{Action, Completion, TargetForm};
use program_model::{MethodId, Program};

/// The method or constructor that the action calls (JLS 15.12, 15.9, 8.8.7.1). None for an action that calls nothing.
pub fn called_method(action: Action) -> Option<MethodId>
    ensures { result ≡ called_method action }
{
    match action {
        Action::Call(method, _, _, _) | Action::New(method, _, _) | Action::Super(method, _, _) => {
            Some(method)
        }
        _ => None,
    }
}

/// The form in which the target of a call stands. A `new` and a call of the super class's constructor have no target, and so
/// the form of a static call, though their operands stand elsewhere: `operand_at` says where. None for an action that calls
/// nothing.
pub fn target_form(action: Action) -> Option<TargetForm>
    ensures { result ≡ target_form action }
{
    match action {
        Action::Call(_, _, _, form) => Some(form),
        Action::New(_, _, _) | Action::Super(_, _, _) => Some(TargetForm::Static),
        _ => None,
    }
}

fn is_this_form(form: TargetForm) -> bool
    ensures { result ≡ is_this_form form }
{
    match form {
        TargetForm::This | TargetForm::Super => true,
        TargetForm::Static | TargetForm::Other => false,
    }
}

fn resets_receiver(p: &Program, method: MethodId) -> bool
    ensures { result ≡ resets_receiver (method_at p.now method) }
{
    match p.method(method) {
        None => false,
        Some(found) => match found.sig.reset {
            None => false,
            Some(position) => position == 0,
        },
    }
}

/// Whether the call creates the obligation of `this` anew (Checker Framework manual, Resource Leak Checker, "Creating
/// obligations"): its receiver is the target, and is written `this`, implied, or `super`. An argument never counts as `this`.
pub fn is_reset_of_this(p: &Program, action: Action) -> bool
    ensures { result ≡ is_reset_of_this p.now action }
{
    match action {
        Action::Call(method, _, _, form) => is_this_form(form) && resets_receiver(p, method),
        _ => false,
    }
}

// The depth of the k-th of `n` temps from depth `d` on; a depth has 32 bits.
fn temp_at(d: u64, n: u32, k: u32) -> Option<u32>
    requires { d ≤ 4294967296 }
    ensures { result ≡ temp_at d n k }
{
    let depth = d + u64::from(k);
    if k < n && depth <= 4294967295 {
        Some(depth as u32)
    } else {
        None
    }
}

fn without_receiver(d: u32, n: u32, k: u32) -> Option<u32>
    ensures { result ≡ without_receiver d n k }
{
    if k == 0 {
        None
    } else {
        temp_at(u64::from(d), n, k - 1)
    }
}

fn call_operand(form: TargetForm, d: u32, n: u32, k: u32) -> Option<u32>
    ensures { result ≡ call_operand form d n k }
{
    match form {
        TargetForm::Static => without_receiver(d, n, k),
        _ => temp_at(u64::from(d), n, k),
    }
}

fn new_operand(d: u32, n: u32, k: u32) -> Option<u32>
    ensures { result ≡ new_operand d n k }
{
    if k == 0 {
        None
    } else {
        temp_at(u64::from(d) + 1, n, k - 1)
    }
}

/// The depth of the temp that is the operand of a position of a call, where position 0 is the receiver and position k the
/// k-th parameter. None for a position without an operand, as the receiver of a static call and of a `new`, and for an action
/// that calls nothing.
pub fn operand_at(action: Action, position: u32) -> Option<u32>
    ensures { result ≡ operand_at action position }
{
    match action {
        Action::Call(_, d, n, form) => call_operand(form, d, n, position),
        Action::New(_, d, n) => new_operand(d, n, position),
        Action::Super(_, d, n) => temp_at(u64::from(d), n, position),
        _ => None,
    }
}

/// The depth of the temp that holds the value of a completion: the returned value, or the exception.
pub fn completion_temp(completion: Completion) -> Option<u32>
    ensures { result ≡ completion_temp completion }
{
    match completion {
        Completion::ReturnValue(d, _) | Completion::Throw(d, _, _) => Some(d),
        Completion::Break(_) | Completion::Continue(_) | Completion::Return(_) => None,
    }
}
