//! The control relation: the steps of a control of a body, over the table of lists.

ghost use Rattle.std.specs.Prelude.{◌≡◌, ◌≤◌, ◌∷◌, map, length, max, IfOk};
ghost use Rattle.java_control.specs.Changes.{highest_steps, step_in};
ghost use Rattle.java_control.specs.Control.{expression_ways, for_ways, loop_ways, next_of, start_of, statement_ways, step_at, steps_of, ways};
ghost use Rattle.control_actions.specs.Remaining.{todos};
ghost use Rattle.control_actions.specs.Tables.{Keeps, highest, list_at, view_in};
ghost use Rattle.program_model.specs.Lookups.{expression_at, statement_at};

use crate::actions::{action_steps, fork, goes, one_step};
use crate::completions::{close_list, completion_steps, ended};
use crate::statements::{for_turn, listed, loop_turn, statement_list};
use control_actions::{Action, Completion, Edge, Item, Lists, Triple};
use expression_control::{condition_list, expression_list, place_of};
use program_model::{Body, BodyId, ExprId, Program, StmtId};
use rlc_base::{NoMemory, Pos};
use std::alloc::Global;

// What a statement becomes.
fn statement_steps(
    alloc: Global,
    lists: &mut Lists,
    body: &Body,
    s: StmtId,
    d: u32,
    rest: usize,
    pos: Pos,
) -> Result<Vec<Triple>, NoMemory>
    requires { rest ≤ length lists.old.cells.keys }
    ensures steps { IfOk result (λ v. map (step_in lists.new.cells.keys) v.items ≡ map (step_at pos) (statement_ways body.now s d (statement_at body.now s) (todos (list_at lists.old.cells.keys rest)))) }
    ensures within { IfOk result (λ v. highest_steps v.items ≤ length lists.new.cells.keys) }
    ensures kept { Keeps lists.old.cells.keys lists.new.cells.keys }
{
    match body.statement(s) {
        None => Ok(Vec::new(alloc)),
        Some(found) => {
            let to = statement_list(alloc, lists, body, s, found, d, rest)?;
            one_step(alloc, Action::Skip, Edge::Go, to, pos)
        }
    }
}

// What the end of a loop's turn becomes.
fn loop_steps(
    alloc: Global,
    lists: &mut Lists,
    body: &Body,
    w: StmtId,
    d: u32,
    rest: usize,
    pos: Pos,
) -> Result<Vec<Triple>, NoMemory>
    requires { rest ≤ length lists.old.cells.keys }
    ensures steps { IfOk result (λ v. map (step_in lists.new.cells.keys) v.items ≡ map (step_at pos) (loop_ways body.now w d (statement_at body.now w) (todos (list_at lists.old.cells.keys rest)))) }
    ensures within { IfOk result (λ v. highest_steps v.items ≤ length lists.new.cells.keys) }
    ensures kept { Keeps lists.old.cells.keys lists.new.cells.keys }
{
    match body.statement(w) {
        None => Ok(Vec::new(alloc)),
        Some(found) => {
            let to = loop_turn(lists, body, w, found, d, rest)?;
            one_step(alloc, Action::Skip, Edge::Go, to, pos)
        }
    }
}

// What a `for` statement becomes whose first part is done.
fn for_steps(
    alloc: Global,
    lists: &mut Lists,
    body: &Body,
    w: StmtId,
    d: u32,
    rest: usize,
    pos: Pos,
) -> Result<Vec<Triple>, NoMemory>
    requires { rest ≤ length lists.old.cells.keys }
    ensures steps { IfOk result (λ v. map (step_in lists.new.cells.keys) v.items ≡ map (step_at pos) (for_ways w d (statement_at body.now w) (todos (list_at lists.old.cells.keys rest)))) }
    ensures within { IfOk result (λ v. highest_steps v.items ≤ length lists.new.cells.keys) }
    ensures kept { Keeps lists.old.cells.keys lists.new.cells.keys }
{
    match body.statement(w) {
        None => Ok(Vec::new(alloc)),
        Some(found) => {
            let to = for_turn(lists, w, found, d, rest)?;
            one_step(alloc, Action::Skip, Edge::Go, to, pos)
        }
    }
}

// What an expression becomes.
fn expression_steps(
    alloc: Global,
    lists: &mut Lists,
    p: &Program,
    body: &Body,
    e: ExprId,
    d: u32,
    rest: usize,
    pos: Pos,
) -> Result<Vec<Triple>, NoMemory>
    requires { rest ≤ length lists.old.cells.keys }
    ensures steps { IfOk result (λ v. map (step_in lists.new.cells.keys) v.items ≡ map (step_at pos) (expression_ways p.now body.now e d (expression_at body.now e) (todos (list_at lists.old.cells.keys rest)))) }
    ensures within { IfOk result (λ v. highest_steps v.items ≤ length lists.new.cells.keys) }
    ensures kept { Keeps lists.old.cells.keys lists.new.cells.keys }
{
    match body.expression(e) {
        None => Ok(Vec::new(alloc)),
        Some(found) => {
            let to = expression_list(lists, p, body, e, found, d, rest)?;
            one_step(alloc, Action::Skip, Edge::Go, to, pos)
        }
    }
}

// What the first item of a control becomes.
fn item_steps(
    alloc: Global,
    lists: &mut Lists,
    p: &Program,
    body: &Body,
    item: Item,
    rest: usize,
    pos: Pos,
) -> Result<Vec<Triple>, NoMemory>
    requires { max (highest item) rest ≤ length lists.old.cells.keys }
    ensures steps { IfOk result (λ v. map (step_in lists.new.cells.keys) v.items ≡ map (step_at pos) (ways p.now body.now (view_in lists.old.cells.keys item ∷ todos (list_at lists.old.cells.keys rest)))) }
    ensures within { IfOk result (λ v. highest_steps v.items ≤ length lists.new.cells.keys) }
    ensures kept { Keeps lists.old.cells.keys lists.new.cells.keys }
{
    match item {
        Item::Do(s, d) => statement_steps(alloc, lists, body, s, d, rest, pos),
        Item::Ev(e, d) => expression_steps(alloc, lists, p, body, e, d, rest, pos),
        Item::Act(a, place) => action_steps(alloc, lists, p, a, place, rest, pos),
        Item::Cond(c, d, x, y) => {
            let to = condition_list(lists, body, c, d, x, y, rest)?;
            one_step(alloc, Action::Skip, Edge::Go, to, pos)
        }
        Item::NullFork(_, d, x, y) => {
            fork(alloc, lists, d, Edge::Null, x, Edge::NonNull, y, rest, pos)
        }
        Item::BoolFork(_, d, x, y) => {
            fork(alloc, lists, d, Edge::True, x, Edge::False, y, rest, pos)
        }
        Item::LoopEnd(w, d) => loop_steps(alloc, lists, body, w, d, rest, pos),
        Item::For(w, d) => for_steps(alloc, lists, body, w, d, rest, pos),
        Item::Leave(x, _) => one_step(alloc, Action::Drop(x), Edge::Go, rest, pos),
        Item::Catch(_, _) => one_step(alloc, Action::Skip, Edge::Go, rest, pos),
        Item::Fin(f, d) => goes(alloc, lists, Action::Skip, &[Item::Do(f, d)], rest, pos),
        Item::Close(r, d) => {
            let to = close_list(lists, r, d, rest)?;
            one_step(alloc, Action::Skip, Edge::Go, to, pos)
        }
        Item::Finish(c, _, _) | Item::Supp(c, _, _) => {
            goes(alloc, lists, Action::Skip, &[Item::Out(c)], rest, pos)
        }
        Item::Out(c) => completion_steps(alloc, lists, p, body, c, rest, pos),
        Item::Ended => Ok(Vec::new(alloc)),
    }
}

// The steps of a control of a body.
fn steps_in_body(
    alloc: Global,
    lists: &mut Lists,
    p: &Program,
    body: &Body,
    at: usize,
) -> Result<Vec<Triple>, NoMemory>
    requires { at ≤ length lists.old.cells.keys }
    ensures steps { IfOk result (λ v. map (step_in lists.new.cells.keys) v.items ≡ steps_of p.now body.now (todos (list_at lists.old.cells.keys at))) }
    ensures within { IfOk result (λ v. highest_steps v.items ≤ length lists.new.cells.keys) }
    ensures kept { Keeps lists.old.cells.keys lists.new.cells.keys }
{
    match lists.first(at) {
        None => ended(alloc, lists, Completion::Return(body.end), body.end),
        Some(cell) => {
            let pos = place_of(body, cell.item);
            item_steps(alloc, lists, p, body, cell.item, cell.tail, pos)
        }
    }
}

/// The steps of a control of a body, in order, each once. The control is named by its number in a table of lists, to which
/// what is left after each step is added; all lists of the table stay.
#[tactic(auto, unfolding(crate::specs::Control::next_of))]
pub fn next(
    alloc: Global,
    lists: &mut Lists,
    p: &Program,
    b: BodyId,
    at: usize,
) -> Result<Vec<Triple>, NoMemory>
    requires { at ≤ length lists.old.cells.keys }
    ensures steps { IfOk result (λ v. map (step_in lists.new.cells.keys) v.items ≡ next_of p.now b (todos (list_at lists.old.cells.keys at))) }
    ensures within { IfOk result (λ v. highest_steps v.items ≤ length lists.new.cells.keys) }
    ensures kept { Keeps lists.old.cells.keys lists.new.cells.keys }
{
    match p.body(b) {
        None => Ok(Vec::new(alloc)),
        Some(body) => steps_in_body(alloc, lists, p, body, at),
    }
}

/// The control with which a body begins, added to a table of lists: its number.
#[tactic(auto, unfolding(crate::specs::Control::start_of))]
pub fn start(alloc: Global, lists: &mut Lists, p: &Program, b: BodyId) -> Result<usize, NoMemory>
    ensures start { IfOk result (λ id. todos (list_at lists.new.cells.keys id) ≡ start_of p.now b) }
    ensures within { IfOk result (λ id. id ≤ length lists.new.cells.keys) }
    ensures kept { Keeps lists.old.cells.keys lists.new.cells.keys }
{
    let none = lists.empty();
    match p.body(b) {
        None => Ok(none),
        Some(body) => listed(lists, body, &body.stmts, none),
    }
}
