//! What a frame gives as it ends.

ghost use Rattle.std.specs.Prelude.{◌≡◌, IfOk};
ghost use Rattle.ledger_calls.specs.Conducts.{result_in};
ghost use Rattle.ledger_steps.specs.Ends.{answered, answered_normally, default_result, exception_class, main_gone, result_value, thrown_in};
ghost use Rattle.program_model.specs.Lookups.{method_at};

use crate::effect::StepEffect;
use control_actions::{Action, Completion};
use ledger_calls::result_of;
use ledger_entries::leak_entries;
use ledger_obligations::end_frame;
use ledger_state::{Heap, LeakWord, Locals, Value, default_of, runtime_class};
use program_model::{ClassId, MethodId, Program};
use rlc_base::{NoMemory, Pos};
use std::alloc::Global;

/// The class of the exception by which the frame ends, where it ends by one.
pub fn exception_class(
    p: &Program,
    heap: &Heap,
    locals: &Locals,
    completion: Completion,
) -> Option<ClassId>
    ensures { result ≡ exception_class p.now heap.now (thrown_in locals.now completion) }
{
    match completion {
        Completion::Throw(d, _, _) => runtime_class(p, heap, locals.temp(u64::from(d))),
        Completion::ReturnValue(_, _)
        | Completion::Return(_)
        | Completion::Break(_)
        | Completion::Continue(_) => None,
    }
}

fn default_result(p: &Program, method: MethodId) -> Value
    ensures { result ≡ default_result (result_in (method_at p.now method)) }
{
    match result_of(p, method) {
        None => Value::Nothing,
        Some(vtype) => default_of(vtype),
    }
}

/// The value that the method gives, or the exception by which it ends; falling off its end gives 0, false or null.
pub fn result_value(p: &Program, locals: &Locals, method: MethodId, completion: Completion) -> Value
    ensures { result ≡ result_value locals.now (method_at p.now method) completion }
{
    match completion {
        Completion::ReturnValue(d, _) | Completion::Throw(d, _, _) => locals.temp(u64::from(d)),
        Completion::Return(_) => default_result(p, method),
        Completion::Break(_) | Completion::Continue(_) => Value::Nothing,
    }
}

fn answered_normally(this: Value, action: Action, value: Value) -> Value
    ensures { result ≡ answered_normally this action value }
{
    match action {
        Action::New(_, _, _) => this,
        Action::Super(_, _, _) => Value::Nothing,
        _ => value,
    }
}

/// What the caller's temp takes: the result of a call, the object of a `new`, or the exception.
pub fn answered(this: Value, action: Action, value: Value, thrown: Option<ClassId>) -> Value
    ensures { result ≡ answered this action value thrown }
{
    match thrown {
        None => answered_normally(this, action, value),
        Some(_) => value,
    }
}

/// What the end of the frame of `main` leaves.
pub fn main_effect(
    alloc: Global,
    p: &Program,
    pos: Pos,
    heap: &Heap,
) -> Result<StepEffect, NoMemory>
    ensures heap { IfOk result (λ e. e.heap ≡ (main_gone p.now heap.now pos).heap) }
    ensures lines { IfOk result (λ e. e.lines.items ≡ (main_gone p.now heap.now pos).lines) }
{
    let mut after = heap.copy(alloc)?;
    end_frame(1, &mut after);
    let mut lines = Vec::new(alloc);
    leak_entries(p, LeakWord::Exit, pos, heap, &after, &mut lines)?;
    Ok(StepEffect { heap: after, lines })
}
