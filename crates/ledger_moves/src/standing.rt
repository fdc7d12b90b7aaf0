//! The action that stands first in a frame.

ghost use Rattle.std.specs.Prelude.{◌≡◌, ◌≤◌, List, length, slice_get};
ghost use Rattle.control_actions.specs.declared.cell.Cell.{Cell};
ghost use Rattle.java_control.specs.Remaining.{todos};
ghost use Rattle.java_control.specs.Tables.{list_at, view_in};
ghost use Rattle.ledger_moves.specs.Moves.{standing};
ghost use Rattle.std.specs.Option.{option_map};

use java_control::{Action, Item, Lists};
use rlc_base::Pos;

/// An action with its place.
#[derive(Clone, Copy)]
pub struct FirstAction {
    pub action: Action,
    pub pos: Pos,
}

// The first item of what is left to run.
fn first_item(lists: &Lists, control: usize) -> Option<Item>
    requires { control ≤ length lists.now.cells.keys }
    ensures { option_map (view_in lists.now.cells.keys) result ≡ slice_get (todos (list_at lists.now.cells.keys control)) 0 }
{
    match lists.first(control) {
        None => None,
        Some(cell) => Some(cell.item),
    }
}

fn standing_in(first: Option<Item>) -> Option<FirstAction>
    ensures { (cells : List Cell) → result ≡ standing (option_map (view_in cells) first) }
{
    match first {
        Some(Item::Act(action, pos)) => Some(FirstAction { action, pos }),
        _ => None,
    }
}

/// The action that stands first of what is left to run, where an action does.
pub fn first_action(lists: &Lists, control: usize) -> Option<FirstAction>
    requires { control ≤ length lists.now.cells.keys }
    ensures { result ≡ standing (slice_get (todos (list_at lists.now.cells.keys control)) 0) }
{
    standing_in(first_item(lists, control))
}
