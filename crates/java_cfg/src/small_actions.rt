//! Whether a set of places has room for all places that an action names.

ghost use Rattle.std.specs.Prelude.{◌≡◌, nat_lt};
ghost use Rattle.java_cfg.specs.RowTests.{any_large_row, has_large_arc, is_large};
ghost use Rattle.java_cfg.specs.SmallTests.{are_small_operands, is_small_action, is_small_place, is_small_scope, is_small_temp};

use crate::arc::Arc;
use crate::limits::{MAX_OWNING_FIELDS, MAX_TEMPS, MAX_VARIABLES};
use java_control::{Action, Place, Scope, completion_temp, field_place};
use program_model::Program;

fn is_small_variable(variable: u32) -> bool
    ensures { result ≡ nat_lt variable 160 }
{
    (variable as usize) < MAX_VARIABLES
}

fn is_small_depth(depth: u32) -> bool
    ensures { result ≡ nat_lt depth 64 }
{
    u64::from(depth) < MAX_TEMPS
}

fn is_small_place(place: Place) -> bool
    ensures { result ≡ is_small_place place }
{
    match place {
        Place::Var(variable) => is_small_variable(variable),
        Place::This => true,
        Place::Field(number) => (number as usize) < MAX_OWNING_FIELDS,
        Place::Temp(depth) => is_small_depth(depth),
        Place::Super => true,
    }
}

fn is_small_temp(depth: Option<u32>) -> bool
    ensures { result ≡ is_small_temp depth }
{
    match depth {
        None => true,
        Some(depth) => is_small_depth(depth),
    }
}

fn is_small_scope(scope: Scope) -> bool
    ensures { result ≡ is_small_scope scope }
{
    match scope {
        Scope::Declared(_) => true,
        Scope::Variable(variable) => is_small_variable(variable),
        Scope::Temp(depth) => is_small_depth(depth),
        Scope::TempsAbove(depth) => is_small_depth(depth),
    }
}

// Whether temps have room for `count` operands, of which the first stands at `first`.
fn are_small_operands(first: u32, count: u32) -> bool
    ensures { result ≡ are_small_operands first count }
{
    is_small_depth(first) && u64::from(first) + u64::from(count) <= MAX_TEMPS
}

// Whether a set of places has room for all places that the action names.
fn is_small_action(p: &Program, action: Action) -> bool
    ensures { result ≡ is_small_action p.now action }
{
    match action {
        Action::Skip => true,
        Action::Copy(x, y) => is_small_place(x) && is_small_place(y),
        Action::Move(x, y) => is_small_place(x) && is_small_place(y),
        Action::Plain(x, _) => is_small_place(x),
        Action::Drop(scope) => is_small_scope(scope),
        Action::Settle(b, c) => is_small_depth(b) && is_small_temp(completion_temp(c)),
        Action::Enter(_, x, b, d) => {
            is_small_variable(x) && is_small_depth(b) && is_small_depth(d)
        }
        Action::Test(d) => is_small_depth(d),
        Action::Op(_, d, n) => are_small_operands(d, n),
        Action::Get(_, d, _) => is_small_depth(d),
        Action::Put(_, d, _) => u64::from(d) + 1 < MAX_TEMPS,
        Action::Cast(_, d) => is_small_depth(d),
        Action::PutOwn(f, d) => is_small_depth(d) && is_small_place(field_place(p, f)),
        Action::Call(_, d, n, _) => are_small_operands(d, n),
        Action::New(_, d, n) => u64::from(d) + u64::from(n) < MAX_TEMPS,
        Action::Super(_, d, n) => are_small_operands(d, n),
        Action::Raise(d, _) => is_small_depth(d),
        Action::End(c) => is_small_temp(completion_temp(c)),
    }
}

fn is_large(p: &Program, arc: &Arc) -> bool
    ensures { result ≡ is_large p.now arc.now }
{
    !is_small_action(p, arc.action)
}

fn has_large(p: &Program, row: &[Arc]) -> bool
    ensures { result ≡ has_large_arc p.now row.now }
{
    row.iter().any(|arc| is_large(p, arc))
}

fn has_large_row(p: &Program, row: &Vec<Arc>) -> bool
    ensures { result ≡ has_large_arc p.now row.now.items }
{
    has_large(p, row)
}

/// Whether the action of an arc of the rows names a place that no set of places holds.
pub(crate) fn any_large(p: &Program, rows: &[Vec<Arc>]) -> bool
    ensures { result ≡ any_large_row p.now rows.now }
{
    rows.iter().any(|row| has_large_row(p, row))
}
