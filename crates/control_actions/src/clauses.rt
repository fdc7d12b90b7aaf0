//! The catch clauses that take an exception.

ghost use Rattle.std.specs.Prelude.{◌≡◌};
ghost use Rattle.std.specs.List.{position_from};
ghost use Rattle.control_actions.specs.Clauses.{clause_taken, clauses_of_kind, may_take, takes_some, takes_wholly};

use program_model::{Body, CatchClause, ClassId, Program, StatementKind, StmtId, under};

/// Whether the clause takes each exception that is known by class `t`: one of its classes is `t` or above it.
pub fn takes_wholly(p: &Program, t: ClassId, clause: &CatchClause) -> bool
    ensures { result ≡ takes_wholly p.now t clause.now }
{
    clause.classes.iter().any(|c| under(p, t, *c))
}

fn takes_some(p: &Program, t: ClassId, clause: &CatchClause) -> bool
    ensures { result ≡ takes_some p.now t clause.now }
{
    clause.classes.iter().any(|c| under(p, *c, t))
}

/// Whether the clause takes some exceptions that are known by class `t`: one of its classes is `t`, above it or under it.
pub fn may_take(p: &Program, t: ClassId, clause: &CatchClause) -> bool
    ensures { result ≡ may_take p.now t clause.now }
{
    takes_wholly(p, t, clause) || takes_some(p, t, clause)
}

fn first_taking(p: &Program, clauses: &[CatchClause], class: ClassId) -> Option<usize>
    ensures { result ≡ position_from (takes_wholly p.now class) 0 clauses.now }
{
    clauses.iter().position(|c| takes_wholly(p, class, c))
}

fn clause_of_kind(p: &Program, kind: &StatementKind, class: ClassId) -> Option<usize>
    ensures { result ≡ position_from (takes_wholly p.now class) 0 (clauses_of_kind kind.now) }
{
    match kind {
        StatementKind::Try(found) => first_taking(p, &found.catches, class),
        _ => first_taking(p, &[], class),
    }
}

/// Which catch clause of a `try` statement takes an exception whose own class is `class` (JLS 11.3): the first that names a
/// class which it is under, by the number of clauses before it. None where no clause takes it, and it goes on.
pub fn clause_taken(p: &Program, body: &Body, s: StmtId, class: ClassId) -> Option<usize>
    ensures { result ≡ clause_taken p.now body.now s class }
{
    match body.statement(s) {
        None => None,
        Some(found) => clause_of_kind(p, &found.kind, class),
    }
}
