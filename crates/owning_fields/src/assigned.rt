//! Whether a field is assigned other than through `this` in its class.

ghost use Rattle.std.specs.Prelude.{◌≡◌};
ghost use Rattle.program_model.specs.Lookups.{method_at};
ghost use Rattle.program_model.specs.Typing.{is_this, kind_at};
ghost use Rattle.must_call_sets.specs.Bodies.{is_class_of};
ghost use Rattle.must_call_sets.specs.OwningCases.{assigns_from_outside, is_assigned_from_outside, is_assigned_in, is_foreign, is_foreign_place, is_foreign_target};

use program_model::{
    AssignmentTarget, Body, ClassId, ExprId, ExpressionKind, Field, FieldId, Program,
};

// Whether the expression is `this`, written or implied.
fn is_this(body: &Body, e: ExprId) -> bool
    ensures { result ≡ is_this body.now e }
{
    match body.expression(e) {
        None => false,
        Some(found) => match found.kind {
            ExpressionKind::This(_) => true,
            _ => false,
        },
    }
}

// Whether the body stands in the class.
fn stands_in(p: &Program, body: &Body, class: ClassId) -> bool
    ensures { result ≡ is_class_of class (method_at p.now body.now.method) }
{
    match p.method(body.method) {
        None => false,
        Some(method) => class == method.class,
    }
}

// Whether the field `g` of the value of `e` is the field, other than through `this` in its class.
fn is_foreign(p: &Program, body: &Body, f: FieldId, field: &Field, e: ExprId, g: FieldId) -> bool
    ensures { result ≡ is_foreign p.now body.now f field.now e g }
{
    g == f && !(is_this(body, e) && stands_in(p, body, field.class))
}

fn is_foreign_target(
    p: &Program,
    body: &Body,
    f: FieldId,
    field: &Field,
    target: &AssignmentTarget,
) -> bool
    ensures { result ≡ is_foreign_target p.now body.now f field.now target.now }
{
    match target {
        AssignmentTarget::Field(e, g) => is_foreign(p, body, f, field, *e, *g),
        _ => false,
    }
}

fn is_foreign_place(p: &Program, body: &Body, f: FieldId, field: &Field, place: ExprId) -> bool
    ensures { result ≡ is_foreign_place p.now body.now f field.now (kind_at body.now place) }
{
    match body.expression(place) {
        None => false,
        Some(found) => match found.kind {
            ExpressionKind::Field(e, g) => is_foreign(p, body, f, field, e, g),
            _ => false,
        },
    }
}

fn assigns_from_outside(
    p: &Program,
    body: &Body,
    f: FieldId,
    field: &Field,
    kind: &ExpressionKind,
) -> bool
    ensures { result ≡ assigns_from_outside p.now body.now f field.now kind.now }
{
    match kind {
        ExpressionKind::Assignment(target, _) => is_foreign_target(p, body, f, field, target),
        ExpressionKind::OperatorAssignment(step) => {
            is_foreign_place(p, body, f, field, step.target)
        }
        ExpressionKind::PostfixStep(step) => is_foreign_place(p, body, f, field, step.target),
        _ => false,
    }
}

fn is_assigned_in(p: &Program, f: FieldId, field: &Field, body: &Body) -> bool
    ensures { result ≡ is_assigned_in p.now f field.now body.now }
{
    body.expressions
        .iter()
        .any(|e| assigns_from_outside(p, body, f, field, &e.kind))
}

/// Whether some body assigns the field other than through `this` in its class.
pub(crate) fn is_assigned_from_outside(p: &Program, f: FieldId, field: &Field) -> bool
    ensures { result ≡ is_assigned_from_outside p.now f field.now }
{
    p.bodies
        .iter()
        .any(|body| is_assigned_in(p, f, field, body))
}
