//! Calls of the library.

ghost use Rattle.std.specs.Prelude.{◌≡◌, ◌<◌, ◌∷◌, ◌++◌, [], None, is_some, map, reverse, true, IfOk, IfSome, OnOk};
ghost use Rattle.draft_steps.specs.Steps.{IsDraft};
ghost use Rattle.heap_drafts.specs.Drafts.{Drafted, snapshots};
ghost use Rattle.ledger_calls.specs.Conducts.{library_birth, library_notes, object_made};
ghost use Rattle.ledger_calls.specs.Calls.{arguments_moved};
ghost use Rattle.draft_lines.specs.Entries.{birth_entries, called_entries, owner_entries};
ghost use Rattle.ledger_obligations.specs.Obligations.{held_in};
ghost use Rattle.ledger_state.specs.declared.entry.Owner.TheVariants as owners;
ghost use Rattle.ledger_state.specs.Heaps.{link_of, object_at};
ghost use Rattle.ledger_state.specs.Locals.{held};
ghost use Rattle.draft_steps.specs.CallSteps.{library_called, library_done, library_made};
ghost use Rattle.object_index.specs.ObjectIndexes.{Indexed};
ghost use Rattle.program_model.specs.Lookups.{method_at};
ghost use Rattle.draft_steps.specs.Settled.{Settled};

use control_actions::Action;
use draft_lines::add_birth_lines;
use draft_stages::{changes_after, draft_arguments, draft_end, draft_reset, held_roots};
use draft_steps::{DraftStep, draft_notes, step_of};
use heap_drafts::{SavedObject, make_object, restore, save};
use ledger_calls::{add_library_notes, library_birth, made_by_new, reset_target};
use ledger_obligations::{ActiveFrame, Note};
use ledger_state::{Entry, Heap, Locals, Owner};
use object_index::ObjectIndex;
use program_model::{MethodId, Program};
use rlc_base::{NoMemory, Pos};
use std::alloc::Global;
use stub_conduct::Conduct;

/// A call of the library.
#[derive(Clone, Copy)]
pub struct LibraryCall {
    pub pos: Pos,
    pub action: Action,
    /// The method that the call names.
    pub named: MethodId,
    /// The library's own method, by whose signature the call goes.
    pub method: MethodId,
    pub conduct: Conduct,
    /// The position of the caller's frame.
    pub position: u64,
}

// The object that the call makes, which is not finished.
fn make_one(conduct: Conduct, heap: &mut Heap, saved: &mut Vec<SavedObject>) -> Result<(), NoMemory>
    ensures heap { OnOk result (heap.new ≡ object_made conduct heap.old) }
    ensures drafted { Drafted saved.old.items heap.old saved.new.items heap.new }
{
    match conduct {
        Conduct::Throws(class) | Conduct::Fresh(class) => {
            make_object(heap, class, saved)?;
            Ok(())
        }
        Conduct::Null
        | Conduct::Existing(_)
        | Conduct::Argument
        | Conduct::Value(_)
        | Conduct::Nothing => Ok(()),
    }
}

fn notes_of(
    alloc: Global,
    p: &Program,
    heap: &Heap,
    locals: &Locals,
    call: LibraryCall,
    number: u64,
) -> Result<Vec<Note>, NoMemory>
    ensures { IfOk result (λ v. v.items ≡ library_notes p.now heap.now locals.now call.action (method_at p.now call.named) (method_at p.now call.method) number call.conduct) }
{
    let mut notes = Vec::new(alloc);
    add_library_notes(
        p,
        heap,
        locals,
        call.action,
        call.named,
        call.method,
        number,
        call.conduct,
        &mut notes,
    )?;
    Ok(notes)
}

// The owning arguments move to the library, the object that the call makes is there, and the call is noted, with its promises.
fn call_noted(
    alloc: Global,
    p: &Program,
    locals: &Locals,
    call: LibraryCall,
    heap: &mut Heap,
    saved: &mut Vec<SavedObject>,
    lines: &mut Vec<Entry>,
) -> Result<bool, NoMemory>
    ensures heap { IfOk result (λ b. b ≡ true → heap.new ≡ library_called p.now locals.now call.action (method_at p.now call.named) (method_at p.now call.method) call.conduct heap.old) }
    ensures lines { IfOk result (λ b. b ≡ true → lines.new.items ≡ lines.old.items ++ owner_entries p.now call.pos heap.old (arguments_moved p.now owners.Library locals.now call.action (method_at p.now call.named) heap.old) ++ called_entries p.now call.pos (library_made p.now locals.now call.action (method_at p.now call.named) call.conduct heap.old) (library_called p.now locals.now call.action (method_at p.now call.named) (method_at p.now call.method) call.conduct heap.old)) }
    ensures drafted { Drafted saved.old.items heap.old saved.new.items heap.new }
{
    let number = heap.next_number();
    draft_arguments(
        alloc,
        p,
        call.pos,
        Owner::Library,
        locals,
        call.action,
        call.named,
        heap,
        saved,
        lines,
    )?;
    make_one(call.conduct, heap, saved)?;
    let notes = notes_of(alloc, p, heap, locals, call, number)?;
    let done = draft_notes(alloc, p, call.pos, &notes, heap, saved, lines)?;
    Ok(done)
}

fn has_link(heap: &Heap, number: u64) -> bool
    ensures { result ≡ is_some (link_of (object_at heap.now number)) }
{
    match heap.object(number) {
        None => false,
        Some(x) => x.link.is_some(),
    }
}

fn save_one(heap: &Heap, number: u64, saved: &mut Vec<SavedObject>) -> Result<(), NoMemory>
    ensures ok { OnOk result (saved.new.items ≡ saved.old.items ++ snapshots heap.now (number ∷ [])) }
    ensures drafted { Drafted saved.old.items heap.now saved.new.items heap.now }
{
    save(heap, &[number], saved)
}

// The object that the call makes gets its set and its owner. Says whether it was done: it was not where the object is an alias
// already.
fn born(
    alloc: Global,
    p: &Program,
    locals: &Locals,
    call: LibraryCall,
    number: u64,
    heap: &mut Heap,
    saved: &mut Vec<SavedObject>,
    lines: &mut Vec<Entry>,
) -> Result<bool, NoMemory>
    requires { 0 < number }
    ensures heap { IfOk result (λ b. b ≡ true → heap.new ≡ library_birth p.now locals.now call.action (method_at p.now call.method) call.position number call.conduct heap.old) }
    ensures lines { IfOk result (λ b. b ≡ true → lines.new.items ≡ lines.old.items ++ birth_entries p.now call.pos heap.old (library_birth p.now locals.now call.action (method_at p.now call.method) call.position number call.conduct heap.old)) }
    ensures drafted { Drafted saved.old.items heap.old saved.new.items heap.new }
{
    if has_link(heap, number) {
        return Ok(false);
    }
    let from = saved.len();
    save_one(heap, number, saved)?;
    library_birth(
        p,
        locals,
        call.action,
        call.method,
        call.position,
        number,
        call.conduct,
        heap,
    );
    let rows = changes_after(alloc, heap, saved, from)?;
    add_birth_lines(p, call.pos, &rows, lines)?;
    Ok(true)
}

// The call, done in the heap. The lines of the ledger that it writes.
fn call_in_place(
    alloc: Global,
    p: &Program,
    locals: &Locals,
    call: LibraryCall,
    heap: &mut Heap,
    index: &ObjectIndex,
    top: &Locals,
    below: &[ActiveFrame],
    saved: &mut Vec<SavedObject>,
) -> Result<Option<Vec<Entry>>, NoMemory>
    requires settled { Settled heap.old (held locals.now ∷ map held_in (reverse below.now)) }
    requires indexed { Indexed index.now heap.old }
    requires fresh { saved.old.items ≡ [] }
    ensures heap { IfOk result (λ o. IfSome o (λ v. heap.new ≡ (library_done p.now heap.old locals.now call.action (method_at p.now call.named) (method_at p.now call.method) call.conduct call.position call.pos (held top.now ∷ map held_in (reverse below.now))).heap)) }
    ensures lines { IfOk result (λ o. IfSome o (λ v. v.items ≡ (library_done p.now heap.old locals.now call.action (method_at p.now call.named) (method_at p.now call.method) call.conduct call.position call.pos (held top.now ∷ map held_in (reverse below.now))).lines)) }
    ensures settled { IfOk result (λ o. IfSome o (λ v. Settled heap.new (held top.now ∷ map held_in (reverse below.now)))) }
    ensures drafted { Drafted saved.old.items heap.old saved.new.items heap.new }
{
    let number = heap.next_number();
    let roots = held_roots(alloc, heap, locals)?;
    let mut lines = Vec::new(alloc);
    if !call_noted(alloc, p, locals, call, heap, saved, &mut lines)? {
        return Ok(None);
    }
    let made = made_by_new(call.action, number, call.conduct);
    let target = reset_target(p, made, locals, call.action, call.named);
    if !draft_reset(alloc, p, call.pos, target, index, heap, saved, &mut lines)? {
        return Ok(None);
    }
    if !born(alloc, p, locals, call, number, heap, saved, &mut lines)? {
        return Ok(None);
    }
    let leaks = Vec::new(alloc);
    let every_line = draft_end(
        alloc, p, call.pos, top, below, &roots, heap, saved, lines, leaks,
    )?;
    Ok(every_line)
}

/// What a call of the library changes of the heap, which stays as it is. `locals` are the values of the caller, `top` those that it has
/// after the step, and `below` are the frames below it. None, which no run comes to, where an object of which a note speaks is not there,
/// the one that the call makes is an alias already, a frame owns an unmet alias, or links go in circles.
pub fn draft_library(
    alloc: Global,
    p: &Program,
    locals: &Locals,
    call: LibraryCall,
    heap: &mut Heap,
    index: &ObjectIndex,
    top: &Locals,
    below: &[ActiveFrame],
) -> Result<Option<DraftStep>, NoMemory>
    requires settled { Settled heap.old (held locals.now ∷ map held_in (reverse below.now)) }
    requires indexed { Indexed index.now heap.old }
    ensures kept { heap.new ≡ heap.old }
    ensures draft { IfOk result (λ o. IfSome o (λ d. IsDraft d heap.old (held top.now ∷ map held_in (reverse below.now)) (library_done p.now heap.old locals.now call.action (method_at p.now call.named) (method_at p.now call.method) call.conduct call.position call.pos (held top.now ∷ map held_in (reverse below.now))))) }
    ensures stored { IfOk result (λ o. IfSome o (λ d. d.stored ≡ None)) }
{
    let count = heap.objects.len();
    let mut saved = Vec::new(alloc);
    let lines = call_in_place(alloc, p, locals, call, heap, index, top, below, &mut saved);
    let step = step_of(alloc, heap, count, &saved, lines);
    restore(heap, count, &saved);
    step
}
