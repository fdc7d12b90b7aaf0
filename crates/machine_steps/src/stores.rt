//! What a step within a frame stores into arrays and static fields, and the choice that it uses.

ghost use Rattle.std.specs.Prelude.{◌≡◌, ◌+◌, ◌++◌, ◌<◌, ◌≤◌, None, OnOk, IfOk, vec_capacity, vec_len};
ghost use Rattle.ledger_operations.specs.Operations.{array_made, arrays_after, elements_after, statics_after, statics_with, used_after};
ghost use Rattle.machine_state.specs.LedgerRunsSteps.{if_thrown};
ghost use Rattle.program_model.specs.Lookups.{optional};

use java_control::Action;
use ledger_operations::{array_made, static_of, store_into_array, used_after};
use ledger_state::{ArrayObject, Entry, Locals, StoredStatic, put_static};
use machine_state::add_array;
use program_model::ClassId;
use rlc_base::NoMemory;
use std::alloc::Global;
use stub_conduct::Choice;

// The static field takes the value; there is room for it.
fn add_static(statics: &mut Vec<StoredStatic>, stored: Option<StoredStatic>)
    requires { vec_len statics.old < vec_capacity statics.old }
    ensures { statics.new.items ≡ statics_with statics.old.items stored }
{
    if let Some(s) = stored {
        match put_static(statics, s.field, s.value) {
            Ok(()) => {}
            Err(_) => {}
        }
    }
}

// The array that the step makes, which throws an exception of this class, or none.
fn array_for(
    alloc: Global,
    locals: &Locals,
    thrown: Option<ClassId>,
    action: Action,
) -> Result<Option<ArrayObject>, NoMemory>
    ensures { IfOk result (λ a. a ≡ if_thrown thrown None (array_made locals.now action)) }
{
    match thrown {
        None => array_made(alloc, locals, action),
        Some(_) => Ok(None),
    }
}

/// The array that the step makes, and room for what it stores and for so many lines of the ledger. All stays.
pub(crate) fn room_for(
    alloc: Global,
    arrays: &mut Vec<ArrayObject>,
    statics: &mut Vec<StoredStatic>,
    entries: &mut Vec<Entry>,
    locals: &Locals,
    thrown: Option<ClassId>,
    action: Action,
    count: usize,
) -> Result<Option<ArrayObject>, NoMemory>
    ensures made { IfOk result (λ a. a ≡ if_thrown thrown None (array_made locals.now action)) }
    ensures arrays { arrays.new.items ≡ arrays.old.items }
    ensures statics { statics.new.items ≡ statics.old.items }
    ensures entries { entries.new.items ≡ entries.old.items }
    ensures more_arrays { OnOk result (vec_len arrays.new < vec_capacity arrays.new) }
    ensures more_statics { OnOk result (vec_len statics.new < vec_capacity statics.new) }
    ensures more_entries { OnOk result (vec_len entries.new + count ≤ vec_capacity entries.new) }
{
    arrays.reserve(1)?;
    statics.reserve(1)?;
    entries.reserve(count)?;
    array_for(alloc, locals, thrown, action)
}

// What an operation that throws nothing changes in arrays and static fields; `made` is the array that it makes.
fn store_operation(
    arrays: &mut Vec<ArrayObject>,
    statics: &mut Vec<StoredStatic>,
    locals: &Locals,
    action: Action,
    made: Option<ArrayObject>,
)
    requires arrays { vec_len arrays.old < vec_capacity arrays.old }
    requires statics { vec_len statics.old < vec_capacity statics.old }
    ensures arrays { arrays.new.items ≡ elements_after arrays.old.items locals.now action ++ optional made }
    ensures statics { statics.new.items ≡ statics_after statics.old.items locals.now action }
{
    store_into_array(arrays, locals, action);
    add_array(arrays, made);
    add_static(statics, static_of(locals, action));
}

/// The same for a step that throws an exception of this class, or none; one that throws changes no array and no static field.
pub(crate) fn store_results(
    arrays: &mut Vec<ArrayObject>,
    statics: &mut Vec<StoredStatic>,
    locals: &Locals,
    thrown: Option<ClassId>,
    action: Action,
    made: Option<ArrayObject>,
)
    requires more_arrays { vec_len arrays.old < vec_capacity arrays.old }
    requires more_statics { vec_len statics.old < vec_capacity statics.old }
    requires made { made ≡ if_thrown thrown None (array_made locals.now action) }
    ensures arrays { arrays.new.items ≡ if_thrown thrown arrays.old.items (arrays_after arrays.old.items locals.now action) }
    ensures statics { statics.new.items ≡ if_thrown thrown statics.old.items (statics_after statics.old.items locals.now action) }
{
    match thrown {
        None => store_operation(arrays, statics, locals, action, made),
        Some(_) => {}
    }
}

/// How many choices are used after the step.
pub(crate) fn used_by(
    arrays: &[ArrayObject],
    choices: &[Choice],
    used: usize,
    locals: &Locals,
    thrown: Option<ClassId>,
    action: Action,
) -> usize
    ensures { result ≡ if_thrown thrown used (used_after arrays.now choices.now used locals.now action) }
{
    match thrown {
        None => used_after(arrays, choices, used, locals, action),
        Some(_) => used,
    }
}
