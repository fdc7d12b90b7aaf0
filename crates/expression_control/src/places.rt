//! The places of statements, expressions and items.

ghost use Rattle.std.specs.Prelude.{◌≡◌, List};
ghost use Rattle.control_actions.specs.Remaining.{condition_place, expression_place, nowhere, origin_place, place_of, statement_place};
ghost use Rattle.control_actions.specs.Tables.{view_in};
ghost use Rattle.control_actions.specs.declared.cell.Cell.{Cell};

use control_actions::{Completion, Condition, Item};
use program_model::{Body, ExprId, StmtId};
use rlc_base::Pos;

/// No place.
pub fn nowhere() -> Pos
    ensures { result ≡ nowhere }
{
    Pos {
        file: 0,
        line: 0,
        col: 0,
    }
}

/// The place of a statement; line 0 for a number that names none.
pub fn statement_place(body: &Body, s: StmtId) -> Pos
    ensures { result ≡ statement_place body.now s }
{
    match body.statement(s) {
        None => nowhere(),
        Some(found) => found.pos,
    }
}

/// The place of an expression; line 0 for a number that names none.
pub fn expression_place(body: &Body, e: ExprId) -> Pos
    ensures { result ≡ expression_place body.now e }
{
    match body.expression(e) {
        None => nowhere(),
        Some(found) => found.pos,
    }
}

fn condition_place(body: &Body, c: Condition) -> Pos
    ensures { result ≡ condition_place body.now c }
{
    match c {
        Condition::Of(e) => expression_place(body, e),
        Condition::Absent(pos) => pos,
    }
}

// The place where a completion began.
fn origin_place(c: Completion) -> Pos
    ensures { result ≡ origin_place c }
{
    match c {
        Completion::Break(pos) => pos,
        Completion::Continue(pos) => pos,
        Completion::Return(pos) => pos,
        Completion::ReturnValue(_, pos) => pos,
        Completion::Throw(_, _, pos) => pos,
    }
}

/// The place of an item, which is that of the steps that it takes.
pub fn place_of(body: &Body, item: Item) -> Pos
    ensures { (cells : List Cell) → result ≡ place_of body.now (view_in cells item) }
{
    match item {
        Item::Do(s, _) => statement_place(body, s),
        Item::Ev(e, _) => expression_place(body, e),
        Item::Act(_, pos) => pos,
        Item::Cond(c, _, _, _) => condition_place(body, c),
        Item::NullFork(pos, _, _, _) => pos,
        Item::BoolFork(pos, _, _, _) => pos,
        Item::LoopEnd(w, _) => statement_place(body, w),
        Item::For(w, _) => statement_place(body, w),
        Item::Leave(_, pos) => pos,
        Item::Catch(s, _) => statement_place(body, s),
        Item::Fin(f, _) => statement_place(body, f),
        Item::Close(r, _) => r.pos,
        Item::Finish(_, _, f) => statement_place(body, f),
        Item::Supp(_, _, s) => statement_place(body, s),
        Item::Out(c) => origin_place(c),
        Item::Ended => nowhere(),
    }
}
