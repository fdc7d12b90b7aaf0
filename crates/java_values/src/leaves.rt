//! The last step of actions that make a tree: what was made goes onto the stack.

ghost use Rattle.std.specs.Prelude.{◌∷◌, ◌++◌, [], map};
ghost use Rattle.java_values.specs.Leaves.{left};
ghost use Rattle.java_syntax.specs.AnnotationTrees.{anno_value_of, modifier_of};
ghost use Rattle.java_syntax.specs.DeclarationTrees.{member_of};
ghost use Rattle.java_syntax.specs.ExpressionTrees.{expr_of};
ghost use Rattle.java_syntax.specs.StatementTrees.{stmt_of};
ghost use Rattle.java_values.specs.Outcomes.{Gives, Outcome, Made};
ghost use Rattle.java_values.specs.Lists as lists;
ghost use Rattle.java_values.specs.Values as kinds;
ghost use Rattle.java_values.specs.NestedTrees.{modifiers_in, nested_of};
ghost use Rattle.java_values.specs.Values.{Value_of, values_of};

use crate::pops::leave;
use crate::values::Value;
use crate::{BuildFail, Nested, added, appended, boxed};
use java_syntax::{AnnoValue, Expr, Member, Modifier, Stmt};

/// Leaves the expression that was made, or fails as its making did.
pub fn leave_expression(
    stack: &mut Vec<Value>,
    made: Result<Nested<Expr>, BuildFail>,
) -> Result<(), BuildFail>
    ensures { (o : Outcome (Value_of kinds.expression)) → Gives (nested_of expr_of) made o → Gives (λ _. values_of stack.new.items) result (left kinds.expression o (values_of stack.old.items)) }
{
    match made {
        Ok(expression) => leave(stack, Value::Expression(expression)),
        Err(fail) => Err(fail),
    }
}

/// Leaves the statement that was made, or fails as its making did.
pub fn leave_statement(
    stack: &mut Vec<Value>,
    made: Result<Nested<Stmt>, BuildFail>,
) -> Result<(), BuildFail>
    ensures { (o : Outcome (Value_of kinds.statement)) → Gives (nested_of stmt_of) made o → Gives (λ _. values_of stack.new.items) result (left kinds.statement o (values_of stack.old.items)) }
{
    match made {
        Ok(statement) => {
            let held = boxed(*stack.allocator(), statement)?;
            leave(stack, Value::Statement(held))
        }
        Err(fail) => Err(fail),
    }
}

/// Leaves the value in an annotation that was made, or fails as its making did.
pub fn leave_annotation_value(
    stack: &mut Vec<Value>,
    made: Result<Nested<AnnoValue>, BuildFail>,
) -> Result<(), BuildFail>
    ensures { (o : Outcome (Value_of kinds.annotation_value)) → Gives (nested_of anno_value_of) made o → Gives (λ _. values_of stack.new.items) result (left kinds.annotation_value o (values_of stack.old.items)) }
{
    match made {
        Ok(value) => {
            let held = boxed(*stack.allocator(), value)?;
            leave(stack, Value::AnnotationValue(held))
        }
        Err(fail) => Err(fail),
    }
}

/// Leaves the modifiers, and this one behind them.
pub fn leave_modifier(
    stack: &mut Vec<Value>,
    all: Nested<Vec<Modifier>>,
    one: Nested<Modifier>,
) -> Result<(), BuildFail>
    ensures { Gives (λ _. values_of stack.new.items) result (Made (kinds.AModifiers (lists.added (nested_of modifiers_in all) (nested_of modifier_of one)) ∷ values_of stack.old.items)) }
{
    let made = added(all, one)?;
    leave(stack, Value::Modifiers(made))
}

/// Leaves the members, and this one behind them.
pub fn leave_member(stack: &mut Vec<Value>, all: Vec<Member>, one: Member) -> Result<(), BuildFail>
    ensures { Gives (λ _. values_of stack.new.items) result (Made (kinds.AMembers (map member_of all.items ++ member_of one ∷ []) ∷ values_of stack.old.items)) }
{
    let made = appended(all, one)?;
    leave(stack, Value::Members(made))
}
