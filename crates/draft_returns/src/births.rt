//! Objects that are finished where their `new` ends normally.

ghost use Rattle.std.specs.Prelude.{◌≡◌, ◌++◌, ◌∷◌, [], true, None, Some, IfOk, OnOk};
ghost use Rattle.draft_returns.specs.DraftReturns.{newborn};
ghost use Rattle.heap_drafts.specs.Drafts.{Drafted, HasNumbers, numbers_rise};
ghost use Rattle.ledger_calls.specs.Calls.{alias_target, operand_of};
ghost use Rattle.ledger_steps.specs.Entries.{birth_entries};
ghost use Rattle.ledger_state.specs.Heaps.{change_one, object_at};
ghost use Rattle.ledger_state.specs.Values.{number_of};
ghost use Rattle.ledger_steps.specs.Ends.{object_finished, program_birth};
ghost use Rattle.program_model.specs.Lookups.{method_at};

use control_actions::Action;
use draft_lines::add_birth_lines;
use draft_stages::changes_after;
use heap_drafts::{SavedObject, rising, save};
use ledger_calls::{alias_target, is_alias};
use ledger_obligations::{alias_born, finished};
use ledger_state::{Entry, Heap, Locals, Object, Owner};
use ledger_steps::FrameEnd;
use must_call_sets::must;
use program_model::{MethodId, Program};
use rlc_base::{NameSet, NoMemory, Pos};
use std::alloc::Global;

// The argument that the object of a `new` is an alias of.
#[tactic(auto, using(ledger_steps::proofs::ParameterLaws::alias_as))]
fn alias_by(p: &Program, locals: &Locals, action: Action, named: MethodId) -> Option<u64>
    ensures { result ≡ alias_target (operand_of locals.now action) (method_at p.now named) }
{
    alias_target(p, None, locals, action, named)
}

fn object_finished(
    p: &Program,
    position: u64,
    named: MethodId,
    alias: Option<u64>,
    x: Object,
) -> Object
    ensures { result ≡ object_finished p.now position (method_at p.now named) alias x }
{
    let fresh = Object {
        called: NameSet::empty(),
        ..x
    };
    if is_alias(p, named) {
        alias_born(p, false, alias, fresh)
    } else {
        finished(must(p, x.class), Owner::Frame(position), fresh)
    }
}

// The object that is finished.
fn newborn(action: Action, end: FrameEnd) -> Option<u64>
    ensures { result ≡ newborn action end.this end.thrown }
{
    match end.thrown {
        Some(_) => None,
        None => match action {
            Action::New(_, _, _) => end.this.object(),
            _ => None,
        },
    }
}

// The number, unless it is 0.
fn one_number(alloc: Global, number: u64) -> Result<Vec<u64>, NoMemory>
    ensures rise { IfOk result (λ v. numbers_rise 0 v.items ≡ true) }
    ensures all { IfOk result (λ v. HasNumbers (number ∷ []) v.items) }
{
    let one = Vec::from_slice(alloc, &[number])?;
    let once = rising(alloc, one)?;
    Ok(once)
}

// Puts the finished object in the place of this one, which is no alias yet. Puts its line behind the others.
fn put_finished(
    alloc: Global,
    p: &Program,
    pos: Pos,
    position: u64,
    named: MethodId,
    number: u64,
    alias: Option<u64>,
    x: Object,
    heap: &mut Heap,
    saved: &mut Vec<SavedObject>,
    lines: &mut Vec<Entry>,
) -> Result<(), NoMemory>
    requires found { object_at heap.old number ≡ Some x }
    requires alone { x.link ≡ None }
    ensures heap { OnOk result (heap.new ≡ change_one number (object_finished p.now position (method_at p.now named) alias) heap.old) }
    ensures lines { OnOk result (lines.new.items ≡ lines.old.items ++ birth_entries p.now pos heap.old (change_one number (object_finished p.now position (method_at p.now named) alias) heap.old)) }
    ensures drafted { Drafted saved.old.items heap.old saved.new.items heap.new }
{
    let from = saved.len();
    let numbers = one_number(alloc, number)?;
    save(heap, &numbers, saved)?;
    let made = object_finished(p, position, named, alias, x);
    heap.put(number, made);
    let rows = changes_after(alloc, heap, saved, from)?;
    add_birth_lines(p, pos, &rows, lines)?;
    Ok(())
}

// The same, where there is such an object that is no alias yet. Says whether there is.
fn finish_number(
    alloc: Global,
    p: &Program,
    pos: Pos,
    position: u64,
    named: MethodId,
    number: u64,
    alias: Option<u64>,
    heap: &mut Heap,
    saved: &mut Vec<SavedObject>,
    lines: &mut Vec<Entry>,
) -> Result<bool, NoMemory>
    ensures heap { IfOk result (λ b. b ≡ true → heap.new ≡ change_one number (object_finished p.now position (method_at p.now named) alias) heap.old) }
    ensures lines { IfOk result (λ b. b ≡ true → lines.new.items ≡ lines.old.items ++ birth_entries p.now pos heap.old (change_one number (object_finished p.now position (method_at p.now named) alias) heap.old)) }
    ensures drafted { Drafted saved.old.items heap.old saved.new.items heap.new }
{
    match heap.object(number) {
        None => Ok(false),
        Some(x) => match x.link {
            Some(_) => Ok(false),
            None => {
                put_finished(
                    alloc, p, pos, position, named, number, alias, x, heap, saved, lines,
                )?;
                Ok(true)
            }
        },
    }
}

/// The object of a `new` that ends normally is finished. Puts its line behind the others. Says whether it was done: it was not where the
/// object is not there or is an alias already, which no object is before it is finished.
pub(crate) fn draft_birth(
    alloc: Global,
    p: &Program,
    pos: Pos,
    position: u64,
    locals: &Locals,
    action: Action,
    named: MethodId,
    end: FrameEnd,
    heap: &mut Heap,
    saved: &mut Vec<SavedObject>,
    lines: &mut Vec<Entry>,
) -> Result<bool, NoMemory>
    ensures heap { IfOk result (λ b. b ≡ true → heap.new ≡ program_birth p.now position action (method_at p.now named) (number_of end.this) (alias_target (operand_of locals.now action) (method_at p.now named)) end.thrown heap.old) }
    ensures lines { IfOk result (λ b. b ≡ true → lines.new.items ≡ lines.old.items ++ birth_entries p.now pos heap.old (program_birth p.now position action (method_at p.now named) (number_of end.this) (alias_target (operand_of locals.now action) (method_at p.now named)) end.thrown heap.old)) }
    ensures drafted { Drafted saved.old.items heap.old saved.new.items heap.new }
{
    match newborn(action, end) {
        None => Ok(true),
        Some(number) => {
            let alias = alias_by(p, locals, action, named);
            let done = finish_number(
                alloc, p, pos, position, named, number, alias, heap, saved, lines,
            )?;
            Ok(done)
        }
    }
}
