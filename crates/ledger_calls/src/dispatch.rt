//! Which method runs.

ghost use Rattle.std.specs.Prelude.{◌≡◌, unwrap_or};
ghost use Rattle.program_model.specs.Overrides.{method_run};
ghost use Rattle.ledger_calls.specs.Calls.{by_form, form_of, has_null_target, is_missing_target, overriding, overriding_by, running};

use crate::operands::operand_of;
use class_overrides::method_run;
use java_control::{Action, TargetForm, target_form};
use ledger_state::{Heap, Locals, Value, runtime_class};
use program_model::{ClassId, Method, MethodId, Program, under};

fn overriding(p: &Program, named: MethodId, m: &Method, class: ClassId) -> MethodId
    ensures { result ≡ overriding p.now named m.now class }
{
    if m.is_private || !under(p, class, m.class) {
        named
    } else {
        match method_run(p, m, class) {
            None => named,
            Some(found) => found,
        }
    }
}

// The method that a value of the class runs for the named one; a null runs nothing.
fn overriding_by(p: &Program, named: MethodId, class: Option<ClassId>) -> MethodId
    ensures { result ≡ overriding_by p.now named class }
{
    match class {
        None => named,
        Some(found) => match p.method(named) {
            None => named,
            Some(m) => overriding(p, named, m, found),
        },
    }
}

fn by_form(p: &Program, heap: &Heap, named: MethodId, form: TargetForm, value: Value) -> MethodId
    ensures { result ≡ by_form p.now heap.now named form value }
{
    match form {
        TargetForm::Static | TargetForm::Super => named,
        TargetForm::This | TargetForm::Other => {
            overriding_by(p, named, runtime_class(p, heap, value))
        }
    }
}

// The form of the target of what is called; a read of a library's constant has none.
pub(crate) fn form_of(action: Action) -> TargetForm
    ensures { result ≡ form_of action }
{
    match target_form(action) {
        None => TargetForm::Static,
        Some(form) => form,
    }
}

/// The method that runs at the call, where it names `named`: by the run-time class of the receiver (JLS 15.12.4.4).
pub fn running(
    p: &Program,
    heap: &Heap,
    locals: &Locals,
    action: Action,
    named: MethodId,
) -> MethodId
    ensures { result ≡ running p.now heap.now locals.now action named }
{
    by_form(
        p,
        heap,
        named,
        form_of(action),
        operand_of(locals, action, 0),
    )
}

fn is_missing_target(form: TargetForm, value: Value) -> bool
    ensures { result ≡ is_missing_target form value }
{
    match form {
        TargetForm::Static => false,
        TargetForm::Super | TargetForm::This | TargetForm::Other => value.is_null(),
    }
}

/// Whether the target of the call is null: then the call does not start (JLS 15.12.4.4).
pub fn has_null_target(locals: &Locals, action: Action) -> bool
    ensures { result ≡ has_null_target locals.now action }
{
    is_missing_target(form_of(action), operand_of(locals, action, 0))
}
