//! The variables whose scope ends with a block or a `for` statement, and the places that are emptied together.

ghost use Rattle.std.specs.Prelude.{◌≡◌};
ghost use Rattle.std.specs.List.{list_any};
ghost use Rattle.program_model.specs.Lookups.{statement_at};
ghost use Rattle.control_actions.specs.Scopes.{declares, declares_at, declares_directly, declares_directly_at, drops_temp, drops_variable, head_declares, is_dropped, is_named};

use crate::{Place, Scope};
use program_model::{Body, Declarator, ForInitial, StatementKind, StmtId};

fn is_named(x: u32, names: &[Declarator]) -> bool
    ensures { result ≡ is_named x names.now }
{
    names.iter().any(|name| name.variable == x)
}

fn declares(x: u32, kind: &StatementKind) -> bool
    ensures { result ≡ declares x kind.now }
{
    match kind {
        StatementKind::LocalDeclaration(names) => is_named(x, names),
        _ => false,
    }
}

fn declares_at(body: &Body, x: u32, s: StmtId) -> bool
    ensures { result ≡ declares_at x (statement_at body.now s) }
{
    match body.statement(s) {
        None => false,
        Some(found) => declares(x, &found.kind),
    }
}

fn head_declares(x: u32, initial: &ForInitial) -> bool
    ensures { result ≡ head_declares x initial.now }
{
    match initial {
        ForInitial::Declaration(names) => is_named(x, names),
        ForInitial::Expressions(_) => false,
    }
}

fn some_declares(body: &Body, x: u32, statements: &[StmtId]) -> bool
    ensures { result ≡ list_any (λ s. declares_at x (statement_at body.now s)) statements.now }
{
    statements.iter().any(|s| declares_at(body, x, *s))
}

// Whether the variable is declared directly in the block, or in the head of the `for`.
fn declares_directly(body: &Body, x: u32, kind: &StatementKind) -> bool
    ensures { result ≡ declares_directly body.now x kind.now }
{
    match kind {
        StatementKind::Block(statements, _) => some_declares(body, x, statements),
        StatementKind::For(l) => head_declares(x, &l.initial),
        _ => false,
    }
}

fn declares_directly_at(body: &Body, x: u32, s: StmtId) -> bool
    ensures { result ≡ declares_directly_at body.now x (statement_at body.now s) }
{
    match body.statement(s) {
        None => false,
        Some(found) => declares_directly(body, x, &found.kind),
    }
}

fn drops_variable(body: &Body, scope: Scope, x: u32) -> bool
    ensures { result ≡ drops_variable body.now scope x }
{
    match scope {
        Scope::Declared(s) => declares_directly_at(body, x, s),
        Scope::Variable(y) => y == x,
        Scope::Temp(_) | Scope::TempsAbove(_) => false,
    }
}

fn drops_temp(scope: Scope, d: u32) -> bool
    ensures { result ≡ drops_temp scope d }
{
    match scope {
        Scope::Declared(_) | Scope::Variable(_) => false,
        Scope::Temp(e) => e == d,
        Scope::TempsAbove(e) => e < d,
    }
}

/// Whether the place is one of those that are emptied together (JLS 6.3): a variable that the scope declares directly, or one
/// of its temps.
pub fn is_dropped(body: &Body, scope: Scope, place: Place) -> bool
    ensures { result ≡ is_dropped body.now scope place }
{
    match place {
        Place::Var(x) => drops_variable(body, scope, x),
        Place::Temp(d) => drops_temp(scope, d),
        Place::This | Place::Field(_) | Place::Super => false,
    }
}
