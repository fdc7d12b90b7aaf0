//! The stores of steps into fields of objects.

ghost use Rattle.std.specs.Prelude.{◌≡◌};
ghost use Rattle.ledger_steps.specs.InnerSteps.{store_into, store_of, store_unless};

use control_actions::Action;
use ledger_state::{Locals, Value};
use program_model::{ClassId, FieldId};

/// A value that is stored into a field of an object.
#[derive(Clone, Copy)]
pub struct Store {
    /// The object's number.
    pub holder: u64,
    pub field: FieldId,
    pub value: Value,
}

fn store_into(holder: Option<u64>, field: FieldId, value: Value) -> Option<Store>
    ensures { result ≡ store_into holder field value }
{
    match holder {
        None => None,
        Some(number) => Some(Store {
            holder: number,
            field,
            value,
        }),
    }
}

/// The store of a step that throws nothing.
pub fn store_of(locals: &Locals, action: Action) -> Option<Store>
    ensures { result ≡ store_of locals.now action }
{
    match action {
        Action::PutOwn(field, d) => {
            store_into(locals.this.object(), field, locals.temp(u64::from(d)))
        }
        Action::Put(field, d, _) => {
            let holder = locals.temp(u64::from(d)).object();
            store_into(holder, field, locals.temp(u64::from(d) + 1))
        }
        _ => None,
    }
}

// The store of a step; one that throws stores nothing.
pub(crate) fn store_unless(
    thrown: Option<ClassId>,
    locals: &Locals,
    action: Action,
) -> Option<Store>
    ensures { result ≡ store_unless thrown (store_of locals.now action) }
{
    match thrown {
        None => store_of(locals, action),
        Some(_) => None,
    }
}
