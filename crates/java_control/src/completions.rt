//! What a completion on its way out becomes.

ghost use Rattle.std.specs.Prelude.{◌≡◌, ◌+◌, ◌≤◌, ◌++◌, ◌∷◌, [], map, length, max, IfOk, OnOk};
ghost use Rattle.program_model.specs.Lookups.{statement_at};
ghost use Rattle.java_control.specs.Changes.{highest_steps, step_in};
ghost use Rattle.java_control.specs.Completions.{at_catch, at_depth, at_loop, at_supp, ends, out, settles};
ghost use Rattle.java_control.specs.Control.{step_at};
ghost use Rattle.java_control.specs.Exceptions.{caught, clauses_in, enters};
ghost use Rattle.java_control.specs.Statements.{close_fork, close_front};
ghost use Rattle.control_actions.specs.Remaining.{Supp, todos};
ghost use Rattle.control_actions.specs.Tables.{Keeps, highest, list_at, view_in};
ghost use Rattle.control_actions.specs.declared.action.Action.TheVariants as actions;
ghost use Rattle.control_actions.specs.declared.item.Item.TheVariants as items;
ghost use Rattle.control_actions.specs.declared.place.Place.TheVariants as places;

use crate::actions::{add_way, goes, one_step};
use control_actions::{
    Action, ClauseId, Closing, Completion, Edge, Item, Lists, Place, Scope, TargetForm, Triple,
    may_take, takes_wholly,
};
use expression_control::{deeper, statement_place};
use program_model::{Body, CatchClause, ClassId, Program, StatementKind, StmtId};
use rlc_base::{NoMemory, Pos};
use std::alloc::Global;

// The completion with its value in the temp of depth `b`.
fn at_depth(c: Completion, b: u32) -> Completion
    ensures { result ≡ at_depth c b }
{
    match c {
        Completion::ReturnValue(_, pos) => Completion::ReturnValue(b, pos),
        Completion::Throw(_, class, pos) => Completion::Throw(b, class, pos),
        _ => c,
    }
}

// A loop takes a `break` and a `continue`.
fn at_loop(
    alloc: Global,
    lists: &mut Lists,
    c: Completion,
    w: StmtId,
    d: u32,
    rest: usize,
    pos: Pos,
) -> Result<Vec<Triple>, NoMemory>
    requires { rest ≤ length lists.old.cells.keys }
    ensures steps { IfOk result (λ v. map (step_in lists.new.cells.keys) v.items ≡ map (step_at pos) (at_loop c w d (todos (list_at lists.old.cells.keys rest)))) }
    ensures within { IfOk result (λ v. highest_steps v.items ≤ length lists.new.cells.keys) }
    ensures kept { Keeps lists.old.cells.keys lists.new.cells.keys }
{
    match c {
        Completion::Break(_) => goes(alloc, lists, Action::Skip, &[], rest, pos),
        Completion::Continue(_) => {
            goes(
                alloc,
                lists,
                Action::Skip,
                &[Item::LoopEnd(w, d)],
                rest,
                pos,
            )
        }
        _ => goes(alloc, lists, Action::Skip, &[Item::Out(c)], rest, pos),
    }
}

/// A frame ends by a `return`, or by an exception.
pub fn ended(
    alloc: Global,
    lists: &mut Lists,
    c: Completion,
    pos: Pos,
) -> Result<Vec<Triple>, NoMemory>
    ensures steps { IfOk result (λ v. map (step_in lists.new.cells.keys) v.items ≡ map (step_at pos) (ends c)) }
    ensures within { IfOk result (λ v. highest_steps v.items ≤ length lists.new.cells.keys) }
    ensures kept { Keeps lists.old.cells.keys lists.new.cells.keys }
{
    match c {
        Completion::Break(_) | Completion::Continue(_) => Ok(Vec::new(alloc)),
        _ => {
            let to = lists.single(Item::Ended)?;
            one_step(alloc, Action::End(c), Edge::Go, to, pos)
        }
    }
}

// An exception that was on its way out when a resource was closed stays.
fn at_supp(
    alloc: Global,
    lists: &mut Lists,
    waiting: Completion,
    c: Completion,
    b: u32,
    rest: usize,
    pos: Pos,
) -> Result<Vec<Triple>, NoMemory>
    requires { rest ≤ length lists.old.cells.keys }
    ensures steps { IfOk result (λ v. map (step_in lists.new.cells.keys) v.items ≡ map (step_at pos) (at_supp waiting c b (todos (list_at lists.old.cells.keys rest)))) }
    ensures within { IfOk result (λ v. highest_steps v.items ≤ length lists.new.cells.keys) }
    ensures kept { Keeps lists.old.cells.keys lists.new.cells.keys }
{
    match waiting {
        Completion::Throw(_, _, _) => {
            let drop = Action::Drop(Scope::TempsAbove(b));
            goes(alloc, lists, drop, &[Item::Out(waiting)], rest, pos)
        }
        _ => {
            let out = Item::Out(at_depth(c, b));
            goes(alloc, lists, Action::Settle(b, c), &[out], rest, pos)
        }
    }
}

// Adds the step into a catch clause.
fn add_entry(
    lists: &mut Lists,
    steps: &mut Vec<Triple>,
    body: &Body,
    id: ClauseId,
    clause: &CatchClause,
    b: u32,
    d: u32,
    rest: usize,
    pos: Pos,
) -> Result<(), NoMemory>
    requires rest { rest ≤ length lists.old.cells.keys }
    requires steps { highest_steps steps.old.items ≤ length lists.old.cells.keys }
    ensures steps { OnOk result (map (step_in lists.new.cells.keys) steps.new.items ≡ map (step_in lists.old.cells.keys) steps.old.items ++ step_at pos (enters body.now id.statement id.index b d clause.now (todos (list_at lists.old.cells.keys rest))) ∷ []) }
    ensures within { OnOk result (highest_steps steps.new.items ≤ length lists.new.cells.keys) }
    ensures kept { Keeps lists.old.cells.keys lists.new.cells.keys }
{
    let enter = Action::Enter(id, clause.variable, b, d);
    let end = Item::Leave(
        Scope::Variable(clause.variable),
        statement_place(body, clause.block),
    );
    add_way(
        lists,
        steps,
        enter,
        Edge::Go,
        &[Item::Do(clause.block, b), end],
        rest,
        pos,
    )
}

// Adds the steps of an exception of class `t` that meets catch clauses.
fn add_caught(
    lists: &mut Lists,
    steps: &mut Vec<Triple>,
    p: &Program,
    body: &Body,
    s: StmtId,
    clauses: &[CatchClause],
    b: u32,
    d: u32,
    t: ClassId,
    place: Pos,
    rest: usize,
    pos: Pos,
) -> Result<(), NoMemory>
    requires rest { rest ≤ length lists.old.cells.keys }
    requires steps { highest_steps steps.old.items ≤ length lists.old.cells.keys }
    ensures steps { OnOk result (map (step_in lists.new.cells.keys) steps.new.items ≡ map (step_in lists.old.cells.keys) steps.old.items ++ map (step_at pos) (caught p.now body.now s 0 clauses.now b d t place (todos (list_at lists.old.cells.keys rest)))) }
    ensures within { OnOk result (highest_steps steps.new.items ≤ length lists.new.cells.keys) }
    ensures kept { Keeps lists.old.cells.keys lists.new.cells.keys }
{
    for (index, clause) in clauses.iter().enumerate() {
        let id = ClauseId {
            statement: s,
            index,
        };
        if takes_wholly(p, t, clause) {
            return add_entry(lists, steps, body, id, clause, b, d, rest, pos);
        }
        if may_take(p, t, clause) {
            add_entry(lists, steps, body, id, clause, b, d, rest, pos)?;
        }
    }
    let thrown = Item::Out(Completion::Throw(d, t, place));
    add_way(lists, steps, Action::Skip, Edge::Go, &[thrown], rest, pos)
}

// The catch clauses of a statement.
fn clauses_at(body: &Body, s: StmtId) -> &[CatchClause]
    ensures { result.now ≡ clauses_in (statement_at body.now s) }
{
    match body.statement(s) {
        None => &[],
        Some(found) => match &found.kind {
            StatementKind::Try(t) => t.catches.as_slice(),
            _ => &[],
        },
    }
}

// Catch clauses take exceptions alone.
fn at_catch(
    alloc: Global,
    lists: &mut Lists,
    p: &Program,
    body: &Body,
    c: Completion,
    s: StmtId,
    b: u32,
    rest: usize,
    pos: Pos,
) -> Result<Vec<Triple>, NoMemory>
    requires { rest ≤ length lists.old.cells.keys }
    ensures steps { IfOk result (λ v. map (step_in lists.new.cells.keys) v.items ≡ map (step_at pos) (at_catch c p.now body.now s b (todos (list_at lists.old.cells.keys rest)))) }
    ensures within { IfOk result (λ v. highest_steps v.items ≤ length lists.new.cells.keys) }
    ensures kept { Keeps lists.old.cells.keys lists.new.cells.keys }
{
    match c {
        Completion::Throw(d, t, place) => {
            let clauses = clauses_at(body, s);
            let mut steps = Vec::new(alloc);
            add_caught(
                lists, &mut steps, p, body, s, clauses, b, d, t, place, rest, pos,
            )?;
            Ok(steps)
        }
        _ => goes(alloc, lists, Action::Skip, &[Item::Out(c)], rest, pos),
    }
}

// The value of a resource, in the temp of depth `b`.
fn resource_copy(r: Closing, b: u32) -> Item
    ensures { result ≡ items.Act (actions.Copy (places.Temp b) (places.Var r.variable)) r.pos }
{
    Item::Act(Action::Copy(Place::Temp(b), Place::Var(r.variable)), r.pos)
}

// The test whether a resource is null, behind which it is closed.
fn close_fork(lists: &mut Lists, r: Closing, b: u32) -> Result<Item, NoMemory>
    ensures fork { IfOk result (λ x. view_in lists.new.cells.keys x ≡ close_fork r b) }
    ensures within { IfOk result (λ x. highest x ≤ length lists.new.cells.keys) }
    ensures kept { Keeps lists.old.cells.keys lists.new.cells.keys }
{
    let call = Item::Act(Action::Call(r.close, b, 1, TargetForm::Other), r.pos);
    let none = lists.empty();
    let last = lists.single(Item::Act(Action::Drop(Scope::Temp(b)), r.pos))?;
    let then = lists.push(call, last)?;
    let closing = lists.push(resource_copy(r, b), then)?;
    Ok(Item::NullFork(r.pos, b, none, closing))
}

/// A resource that is not null is closed.
pub fn close_list(lists: &mut Lists, r: Closing, b: u32, rest: usize) -> Result<usize, NoMemory>
    requires { rest ≤ length lists.old.cells.keys }
    ensures list { IfOk result (λ id. todos (list_at lists.new.cells.keys id) ≡ close_front r b ++ todos (list_at lists.old.cells.keys rest)) }
    ensures within { IfOk result (λ id. id ≤ length lists.new.cells.keys) }
    ensures kept { Keeps lists.old.cells.keys lists.new.cells.keys }
{
    let fork = close_fork(lists, r, b)?;
    lists.push_all(&[resource_copy(r, b), fork], rest)
}

// A completion that meets the closing of a resource waits until it is closed.
fn at_close(
    alloc: Global,
    lists: &mut Lists,
    c: Completion,
    r: Closing,
    b: u32,
    rest: usize,
    pos: Pos,
) -> Result<Vec<Triple>, NoMemory>
    requires { rest ≤ length lists.old.cells.keys }
    ensures steps { IfOk result (λ v. map (step_in lists.new.cells.keys) v.items ≡ map (step_at pos) (settles b c (close_front r (b + 1) ++ Supp (at_depth c b) b r.statement ∷ todos (list_at lists.old.cells.keys rest)))) }
    ensures within { IfOk result (λ v. highest_steps v.items ≤ length lists.new.cells.keys) }
    ensures kept { Keeps lists.old.cells.keys lists.new.cells.keys }
{
    let next = deeper(b, 1)?;
    let waits = lists.push(Item::Supp(at_depth(c, b), b, r.statement), rest)?;
    let to = close_list(lists, r, next, waits)?;
    one_step(alloc, Action::Settle(b, c), Edge::Go, to, pos)
}

// What a completion becomes, by the item behind it.
fn meets(
    alloc: Global,
    lists: &mut Lists,
    p: &Program,
    body: &Body,
    c: Completion,
    item: Item,
    rest: usize,
    pos: Pos,
) -> Result<Vec<Triple>, NoMemory>
    requires { rest ≤ length lists.old.cells.keys }
    ensures steps { IfOk result (λ v. map (step_in lists.new.cells.keys) v.items ≡ map (step_at pos) (out p.now body.now c (view_in lists.old.cells.keys item ∷ todos (list_at lists.old.cells.keys rest)))) }
    ensures within { IfOk result (λ v. highest_steps v.items ≤ length lists.new.cells.keys) }
    ensures kept { Keeps lists.old.cells.keys lists.new.cells.keys }
{
    match item {
        Item::LoopEnd(w, d) => at_loop(alloc, lists, c, w, d, rest, pos),
        Item::Leave(x, _) => goes(alloc, lists, Action::Drop(x), &[Item::Out(c)], rest, pos),
        Item::Catch(s, b) => at_catch(alloc, lists, p, body, c, s, b, rest, pos),
        Item::Fin(f, b) => {
            let block = Item::Do(f, deeper(b, 1)?);
            let waits = Item::Finish(at_depth(c, b), b, f);
            goes(
                alloc,
                lists,
                Action::Settle(b, c),
                &[block, waits],
                rest,
                pos,
            )
        }
        Item::Close(r, b) => at_close(alloc, lists, c, r, b, rest, pos),
        Item::Finish(_, b, _) => {
            let out = Item::Out(at_depth(c, b));
            goes(alloc, lists, Action::Settle(b, c), &[out], rest, pos)
        }
        Item::Supp(waiting, b, _) => at_supp(alloc, lists, waiting, c, b, rest, pos),
        _ => goes(alloc, lists, Action::Skip, &[Item::Out(c)], rest, pos),
    }
}

/// What a completion becomes, by what stands behind it.
pub fn completion_steps(
    alloc: Global,
    lists: &mut Lists,
    p: &Program,
    body: &Body,
    c: Completion,
    rest: usize,
    pos: Pos,
) -> Result<Vec<Triple>, NoMemory>
    requires { rest ≤ length lists.old.cells.keys }
    ensures steps { IfOk result (λ v. map (step_in lists.new.cells.keys) v.items ≡ map (step_at pos) (out p.now body.now c (todos (list_at lists.old.cells.keys rest)))) }
    ensures within { IfOk result (λ v. highest_steps v.items ≤ length lists.new.cells.keys) }
    ensures kept { Keeps lists.old.cells.keys lists.new.cells.keys }
{
    match lists.first(rest) {
        None => ended(alloc, lists, c, pos),
        Some(cell) => meets(alloc, lists, p, body, c, cell.item, cell.tail, pos),
    }
}
