//! What stands at the positions of a call.

ghost use Rattle.std.specs.Prelude.{◌≡◌};
ghost use Rattle.ledger_calls.specs.Calls.{alias_target, depth_at, object_by, operand_of, position_of, receiver_or, reset_target};
ghost use Rattle.ledger_calls.specs.Conducts.{argument_of, made_by, made_by_new, value_at};
ghost use Rattle.program_model.specs.Lookups.{method_at};

use crate::signatures::{alias_position, reset_position};
use java_control::{Action, operand_at};
use ledger_state::{Locals, Value};
use program_model::{MethodId, Program};
use stub_conduct::Conduct;

// The depth of the operand of a position; a position has 32 bits.
fn depth_at(action: Action, position: u64) -> Option<u32>
    ensures { result ≡ depth_at action position }
{
    if position < 4294967296 {
        operand_at(action, position as u32)
    } else {
        None
    }
}

/// The operand of a position of a call, where position 0 is the receiver.
pub fn operand_of(locals: &Locals, action: Action, position: u64) -> Value
    ensures { result ≡ operand_of locals.now action position }
{
    locals.temp_in(depth_at(action, position))
}

/// What a position of a call is, where `made` is the number of the object that a `new` makes.
#[tactic(auto, using(crate::proofs::PositionLaws::position_behind))]
pub fn position_of(made: Option<u64>, locals: &Locals, action: Action, position: u64) -> Value
    ensures { result ≡ position_of made locals.now action position }
{
    if position == 0 {
        match made {
            None => operand_of(locals, action, 0),
            Some(number) => Value::Object(number),
        }
    } else {
        operand_of(locals, action, position)
    }
}

fn made_by(number: u64, conduct: Conduct) -> Option<u64>
    ensures { result ≡ made_by number conduct }
{
    match conduct {
        Conduct::Throws(_) => None,
        Conduct::Fresh(_)
        | Conduct::Null
        | Conduct::Existing(_)
        | Conduct::Argument
        | Conduct::Value(_)
        | Conduct::Nothing => Some(number),
    }
}

/// The number of the object that a `new` of the library makes, where `number` is the next one. One that throws makes none.
pub fn made_by_new(action: Action, number: u64, conduct: Conduct) -> Option<u64>
    ensures { result ≡ made_by_new action number conduct }
{
    match action {
        Action::New(_, _, _) => made_by(number, conduct),
        _ => None,
    }
}

// What stands at the position, where there is one.
pub(crate) fn value_at(
    made: Option<u64>,
    locals: &Locals,
    action: Action,
    position: Option<u32>,
) -> Value
    ensures { result ≡ value_at (position_of made locals.now action) position }
{
    match position {
        None => Value::Nothing,
        Some(found) => position_of(made, locals, action, u64::from(found)),
    }
}

// The object at the position, where there is one.
fn object_by(
    made: Option<u64>,
    locals: &Locals,
    action: Action,
    position: Option<u32>,
) -> Option<u64>
    ensures { result ≡ object_by (position_of made locals.now action) position }
{
    match position {
        None => None,
        Some(found) => position_of(made, locals, action, u64::from(found)).object(),
    }
}

/// The object whose obligation a call of the named method creates anew.
pub fn reset_target(
    p: &Program,
    made: Option<u64>,
    locals: &Locals,
    action: Action,
    named: MethodId,
) -> Option<u64>
    ensures { result ≡ reset_target (position_of made locals.now action) (method_at p.now named) }
{
    object_by(made, locals, action, reset_position(p, named))
}

/// The object that the result of the method, or the object of a `new`, is an alias of.
pub fn alias_target(
    p: &Program,
    made: Option<u64>,
    locals: &Locals,
    action: Action,
    method: MethodId,
) -> Option<u64>
    ensures { result ≡ alias_target (position_of made locals.now action) (method_at p.now method) }
{
    object_by(made, locals, action, alias_position(p, method))
}
