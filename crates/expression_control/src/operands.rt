//! Operands, and actions behind them, put before a list.

ghost use Rattle.std.specs.Prelude.{◌≡◌, ◌+◌, ◌≤◌, ◌++◌, ◌∷◌, length, IfOk};
ghost use Rattle.expression_control.specs.Expressions.{evaluations};
ghost use Rattle.control_actions.specs.Remaining.{Act, todos};
ghost use Rattle.control_actions.specs.Tables.{Keeps, list_at};

use control_actions::{Action, Item, Lists};
use program_model::ExprId;
use rlc_base::{NoMemory, Pos};

/// A depth that does not fit is answered as want of memory.
pub fn deeper(depth: u32, by: u32) -> Result<u32, NoMemory>
    ensures { IfOk result (λ d. d ≡ depth + by) }
{
    match depth.checked_add(by) {
        None => Err(NoMemory),
        Some(sum) => Ok(sum),
    }
}

/// The first depth behind operands from a depth on.
pub fn end_of(depth: u32, operands: &[ExprId]) -> Result<u32, NoMemory>
    ensures { IfOk result (λ end. end ≡ depth + length operands.now) }
{
    match u32::try_from(operands.len()) {
        Err(_) => Err(NoMemory),
        Ok(count) => deeper(depth, count),
    }
}

/// Operands from a depth on, and an action behind them, before the list `rest`.
pub fn applied(
    lists: &mut Lists,
    action: Action,
    operands: &[ExprId],
    depth: u32,
    end: u32,
    pos: Pos,
    rest: usize,
) -> Result<usize, NoMemory>
    requires end { end ≡ depth + length operands.now }
    requires rest { rest ≤ length lists.old.cells.keys }
    ensures list { IfOk result (λ id. todos (list_at lists.new.cells.keys id) ≡ evaluations operands.now depth ++ Act action pos ∷ todos (list_at lists.old.cells.keys rest)) }
    ensures within { IfOk result (λ id. id ≤ length lists.new.cells.keys) }
    ensures kept { Keeps lists.old.cells.keys lists.new.cells.keys }
{
    let mut at = lists.push(Item::Act(action, pos), rest)?;
    let mut here = end;
    let mut left = operands.len();
    while left > 0 {
        left -= 1;
        here -= 1;
        at = lists.push(Item::Ev(operands[left], here), at)?;
    }
    Ok(at)
}
