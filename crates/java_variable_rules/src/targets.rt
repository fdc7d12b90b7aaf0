//! What may be assigned (JLS 4.12.4, 8.3.1.2, 15.26).

ghost use Rattle.std.specs.Prelude.{◌≡◌, nat_eq};
ghost use Rattle.std.specs.List.{find};
ghost use Rattle.std.specs.Option.{option_copied};
ghost use Rattle.program_model.specs.Lookups.{field_at};
ghost use Rattle.java_syntax.specs.ExpressionTrees.{expr_of};
ghost use Rattle.java_variable_rules.specs.Assignments.{assigned_target, is_own_place, is_through_this, may_assign, may_assign_local, may_assign_member, may_update, is_written_this};
ghost use Rattle.java_expression_parts.specs.Surroundings.{surroundings_of};

use java_expression_parts::BodyScope;
use java_member_rules::{may_assign_field, target_in};
use java_syntax::Expr;
use java_typed_trees::{Local, Shape, TargetShape};
use program_model::FieldId;

/// Whether the expression is written `this`.
pub fn is_written_this(target: &Expr) -> bool
    ensures { result ≡ is_written_this (expr_of target.now) }
{
    match target {
        Expr::This { .. } => true,
        _ => false,
    }
}

/// Whether a field that the left-hand side names is one of `this`: its simple name stands there, or `this.f`.
pub(crate) fn is_through_this(left: &Expr) -> bool
    ensures { result ≡ is_through_this (expr_of left.now) }
{
    match left {
        Expr::Identifier { .. } => true,
        Expr::FieldAccess { target, .. } => is_written_this(target),
        _ => false,
    }
}

fn local_with(locals: &[Local], number: u32) -> Option<&Local>
    ensures { option_copied result ≡ find (λ x. nat_eq x.variable.number number) locals.now }
{
    locals.iter().find(|x| x.variable.number == number)
}

fn may_assign_local(locals: &[Local], number: u32) -> bool
    ensures { result ≡ may_assign_local locals.now number }
{
    match local_with(locals, number) {
        None => false,
        Some(found) => !found.variable.is_final,
    }
}

fn may_assign_member(scope: &BodyScope, through_this: bool, field: FieldId) -> bool
    ensures { result ≡ may_assign_member (surroundings_of scope.now) through_this (field_at scope.now.scope.program.now field) }
{
    match scope.scope.program.field(field) {
        None => false,
        Some(found) => {
            may_assign_field(scope.initialized, through_this && !found.is_static, found)
        }
    }
}

fn may_assign(scope: &BodyScope, through_this: bool, shape: Shape) -> bool
    ensures { result ≡ may_assign (surroundings_of scope.now) through_this shape }
{
    match shape {
        Shape::Local(number) => may_assign_local(scope.scope.locals, number),
        Shape::Field(field) => may_assign_member(scope, through_this, field),
        Shape::StaticField(field) => may_assign_member(scope, through_this, field),
        Shape::Element => true,
        _ => false,
    }
}

/// What an assignment to the left-hand side assigns, where it may be assigned.
pub(crate) fn assigned_target(scope: &BodyScope, left: &Expr, shape: Shape) -> Option<TargetShape>
    ensures { result ≡ assigned_target (surroundings_of scope.now) (expr_of left.now) shape }
{
    if may_assign(scope, is_through_this(left), shape) {
        target_in(shape)
    } else {
        None
    }
}

fn is_own_place(through_this: bool, shape: Shape) -> bool
    ensures { result ≡ is_own_place through_this shape }
{
    match shape {
        Shape::Local(_) => true,
        Shape::StaticField(_) => true,
        Shape::Field(_) => through_this,
        _ => false,
    }
}

/// Whether an operator may assign to the left-hand side: to a variable, a static field or a field of `this` that may be
/// assigned.
pub(crate) fn may_update(scope: &BodyScope, left: &Expr, shape: Shape) -> bool
    ensures { result ≡ may_update (surroundings_of scope.now) (expr_of left.now) shape }
{
    let through_this = is_through_this(left);
    is_own_place(through_this, shape) && may_assign(scope, through_this, shape)
}
