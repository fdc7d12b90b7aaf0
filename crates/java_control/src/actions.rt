//! The making of steps, and those of an action: it goes on, or throws.

ghost use Rattle.std.specs.Prelude.{◌≡◌, ◌≤◌, ◌++◌, ◌∷◌, [], map, length, max, List, IfOk, OnOk};
ghost use Rattle.java_control.specs.Changes.{highest_steps, step_in};
ghost use Rattle.java_control.specs.Control.{step_at};
ghost use Rattle.java_control.specs.Exceptions.{action_ways, goes_on, throws};
ghost use Rattle.control_actions.specs.Remaining.{todos, way};
ghost use Rattle.control_actions.specs.Tables.{Keeps, highest_of, list_at, view_in};
ghost use Rattle.control_actions.specs.declared.action.Action.TheVariants as actions;
ghost use Rattle.control_actions.specs.declared.action.Edge.TheVariants as edges;
ghost use Rattle.control_actions.specs.declared.cell.Cell.{Cell};

use control_actions::{
    Action, Completion, Edge, Item, Lists, Triple, exception_depth, exceptions_of,
};
use program_model::{ClassId, Program};
use rlc_base::{NoMemory, Pos};
use std::alloc::Global;

/// One step alone.
pub fn one_step(
    alloc: Global,
    action: Action,
    edge: Edge,
    to: usize,
    pos: Pos,
) -> Result<Vec<Triple>, NoMemory>
    ensures { IfOk result (λ v. v.items ≡ record { action = action; edge = edge; to = to; pos = pos } ∷ []) }
{
    let mut steps = Vec::new(alloc);
    steps.push(Triple {
        action,
        edge,
        to,
        pos,
    })?;
    Ok(steps)
}

/// The one step of an action that goes on, with items before the list `rest`.
pub fn goes(
    alloc: Global,
    lists: &mut Lists,
    action: Action,
    items: &[Item],
    rest: usize,
    pos: Pos,
) -> Result<Vec<Triple>, NoMemory>
    requires { max (highest_of items.now) rest ≤ length lists.old.cells.keys }
    ensures steps { IfOk result (λ v. map (step_in lists.new.cells.keys) v.items ≡ map (step_at pos) (way action edges.Go (map (view_in lists.old.cells.keys) items.now ++ todos (list_at lists.old.cells.keys rest)) ∷ [])) }
    ensures within { IfOk result (λ v. highest_steps v.items ≤ length lists.new.cells.keys) }
    ensures kept { Keeps lists.old.cells.keys lists.new.cells.keys }
{
    let to = lists.push_all(items, rest)?;
    one_step(alloc, action, Edge::Go, to, pos)
}

/// Adds a step to items before the list `rest`.
pub fn add_way(
    lists: &mut Lists,
    steps: &mut Vec<Triple>,
    action: Action,
    edge: Edge,
    items: &[Item],
    rest: usize,
    pos: Pos,
) -> Result<(), NoMemory>
    requires rest { max (highest_of items.now) rest ≤ length lists.old.cells.keys }
    requires steps { highest_steps steps.old.items ≤ length lists.old.cells.keys }
    ensures steps { OnOk result (map (step_in lists.new.cells.keys) steps.new.items ≡ map (step_in lists.old.cells.keys) steps.old.items ++ step_at pos (way action edge (map (view_in lists.old.cells.keys) items.now ++ todos (list_at lists.old.cells.keys rest))) ∷ []) }
    ensures within { OnOk result (highest_steps steps.new.items ≤ length lists.new.cells.keys) }
    ensures kept { Keeps lists.old.cells.keys lists.new.cells.keys }
{
    let to = lists.push_all(items, rest)?;
    steps.push(Triple {
        action,
        edge,
        to,
        pos,
    })?;
    Ok(())
}

/// The two steps of a test of the temp of depth `d`.
pub fn fork(
    alloc: Global,
    lists: &mut Lists,
    d: u32,
    first: Edge,
    p: usize,
    second: Edge,
    q: usize,
    rest: usize,
    pos: Pos,
) -> Result<Vec<Triple>, NoMemory>
    requires { max (max p q) rest ≤ length lists.old.cells.keys }
    ensures steps { IfOk result (λ v. map (step_in lists.new.cells.keys) v.items ≡ map (step_at pos) (way (actions.Test d) first (todos (list_at lists.old.cells.keys p) ++ todos (list_at lists.old.cells.keys rest)) ∷ way (actions.Test d) second (todos (list_at lists.old.cells.keys q) ++ todos (list_at lists.old.cells.keys rest)) ∷ [])) }
    ensures within { IfOk result (λ v. highest_steps v.items ≤ length lists.new.cells.keys) }
    ensures kept { Keeps lists.old.cells.keys lists.new.cells.keys }
{
    let yes = lists.append(p, rest)?;
    let no = lists.append(q, rest)?;
    let mut steps = one_step(alloc, Action::Test(d), first, yes, pos)?;
    steps.push(Triple {
        action: Action::Test(d),
        edge: second,
        to: no,
        pos,
    })?;
    Ok(steps)
}

// The step of an action that goes on.
fn goes_on(alloc: Global, action: Action, to: usize, pos: Pos) -> Result<Vec<Triple>, NoMemory>
    ensures steps { (cells : List Cell) → IfOk result (λ v. map (step_in cells) v.items ≡ map (step_at pos) (goes_on action (todos (list_at cells to)))) }
    ensures within { IfOk result (λ v. highest_steps v.items ≤ to) }
{
    match action {
        Action::Raise(_, _) => Ok(Vec::new(alloc)),
        _ => one_step(alloc, action, Edge::Go, to, pos),
    }
}

// Adds the steps by which an action throws classes.
fn add_throws(
    lists: &mut Lists,
    steps: &mut Vec<Triple>,
    action: Action,
    classes: &[ClassId],
    place: Pos,
    rest: usize,
    pos: Pos,
) -> Result<(), NoMemory>
    requires rest { rest ≤ length lists.old.cells.keys }
    requires steps { highest_steps steps.old.items ≤ length lists.old.cells.keys }
    ensures steps { OnOk result (map (step_in lists.new.cells.keys) steps.new.items ≡ map (step_in lists.old.cells.keys) steps.old.items ++ map (step_at pos) (map (throws action place (todos (list_at lists.old.cells.keys rest))) classes.now)) }
    ensures within { OnOk result (highest_steps steps.new.items ≤ length lists.new.cells.keys) }
    ensures kept { Keeps lists.old.cells.keys lists.new.cells.keys }
{
    for class in classes {
        let thrown = Completion::Throw(exception_depth(action), *class, place);
        add_way(
            lists,
            steps,
            action,
            Edge::Throws(*class),
            &[Item::Out(thrown)],
            rest,
            pos,
        )?;
    }
    Ok(())
}

/// The steps of an action: on, and by each exception that it throws.
pub fn action_steps(
    alloc: Global,
    lists: &mut Lists,
    p: &Program,
    action: Action,
    place: Pos,
    rest: usize,
    pos: Pos,
) -> Result<Vec<Triple>, NoMemory>
    requires { rest ≤ length lists.old.cells.keys }
    ensures steps { IfOk result (λ v. map (step_in lists.new.cells.keys) v.items ≡ map (step_at pos) (action_ways p.now action place (todos (list_at lists.old.cells.keys rest)))) }
    ensures within { IfOk result (λ v. highest_steps v.items ≤ length lists.new.cells.keys) }
    ensures kept { Keeps lists.old.cells.keys lists.new.cells.keys }
{
    let classes = exceptions_of(alloc, p, action)?;
    let mut steps = goes_on(alloc, action, rest, pos)?;
    add_throws(lists, &mut steps, action, &classes, place, rest, pos)?;
    Ok(steps)
}
