ghost use Rattle.std.specs.Prelude.{◌≡◌, ◌∷◌, ℕ, true, List};
ghost use Rattle.java_syntax.specs.AnnotationTrees.{ModifierTree, modifier_of};
ghost use Rattle.java_values.specs.Values as kinds;
ghost use Rattle.java_values.specs.Values.{ValueTree, values_of};
ghost use Rattle.java_values.specs.Kinds.{Fits, IsTop};
ghost use Rattle.java_values.specs.NestedTrees.{Nested as NestedTree};
ghost use Rattle.java_values.specs.Lists as lists;
ghost use Rattle.java_values.specs.Outcomes.{Gives, IsNoMisfit, Outcome, Made};
ghost use Rattle.java_nodes.specs.StatementParts.{word_node};
ghost use Rattle.java_expression_actions.specs.AnnotationActions.{takes_annotation, perform_annotation, is_of_arguments, is_of_values, is_of_modifiers};

use java_nodes::{
    annotation, annotation_as_value, argument, expression_value, modifier, place_of_annotation,
    values_as_value, word,
};
use java_syntax::{AnnotationAction, Modifier};
use java_values::{
    BuildFail, Place, Value, added, leave, leave_annotation_value, leave_modifier, none,
    pop_annotation, pop_annotation_value, pop_annotation_values, pop_annotations, pop_arguments,
    pop_expression, pop_modifiers, pop_name, pop_place,
};
use std::alloc::Global;

/// Does an action of an annotation, its arguments and their values.
#[tactic(auto, using(crate::proofs::AnnotationActionLaws::argument_laws))]
fn argument_action(
    alloc: Global,
    limit: u32,
    action: AnnotationAction,
    stack: &mut Vec<Value>,
) -> Result<(), BuildFail>
    requires group { is_of_arguments action ≡ true }
    requires fits { Fits (takes_annotation action) (values_of stack.old.items) }
    ensures { Gives (λ _. values_of stack.new.items) result (perform_annotation limit action (values_of stack.old.items)) }
{
    match action {
        AnnotationAction::NoArguments => leave(stack, Value::Arguments(none(alloc))),
        AnnotationAction::Annotation => {
            let arguments = pop_arguments(stack);
            let name = pop_name(stack);
            let sign = pop_place(stack);
            let made = annotation(limit, name, arguments, sign.pos)?;
            leave(stack, Value::Annotation(made))
        }
        AnnotationAction::Pair => {
            let value = pop_annotation_value(stack);
            let key = pop_name(stack);
            let all = pop_arguments(stack);
            let made = added(all, argument(Some(key), value))?;
            leave(stack, Value::Arguments(made))
        }
        AnnotationAction::SingleValue => {
            let value = pop_annotation_value(stack);
            let all = pop_arguments(stack);
            let made = added(all, argument(None, value))?;
            leave(stack, Value::Arguments(made))
        }
        AnnotationAction::ExpressionValue => {
            let e = pop_expression(stack);
            leave_annotation_value(stack, expression_value(limit, e))
        }
        AnnotationAction::AnnotationValue => {
            let a = pop_annotation(stack);
            leave_annotation_value(stack, annotation_as_value(limit, a))
        }
        _other => unreachable!(),
    }
}

/// Does an action of lists of values and of annotations.
#[tactic(auto, using(crate::proofs::AnnotationActionLaws::value_laws))]
fn value_action(
    alloc: Global,
    limit: u32,
    action: AnnotationAction,
    stack: &mut Vec<Value>,
) -> Result<(), BuildFail>
    requires group { is_of_values action ≡ true }
    requires fits { Fits (takes_annotation action) (values_of stack.old.items) }
    ensures { Gives (λ _. values_of stack.new.items) result (perform_annotation limit action (values_of stack.old.items)) }
{
    match action {
        AnnotationAction::NoValues => leave(stack, Value::AnnotationValues(none(alloc))),
        AnnotationAction::AndValue => {
            let one = pop_annotation_value(stack);
            let all = pop_annotation_values(stack);
            let made = added(all, one)?;
            leave(stack, Value::AnnotationValues(made))
        }
        AnnotationAction::ListValue => {
            let all = pop_annotation_values(stack);
            let opened = pop_place(stack);
            leave_annotation_value(stack, values_as_value(limit, all, opened.pos))
        }
        AnnotationAction::AndAnnotation => {
            let one = pop_annotation(stack);
            let all = pop_annotations(stack);
            let made = added(all, one)?;
            leave(stack, Value::Annotations(made))
        }
        AnnotationAction::FirstAnnotation => {
            let one = pop_annotation(stack);
            let pos = place_of_annotation(&one.tree);
            let all = added(none(alloc), modifier(one))?;
            let place = leave(stack, Value::Place(Place { pos }));
            let modifiers = leave(stack, Value::Modifiers(all));
            place?;
            modifiers
        }
        _other => unreachable!(),
    }
}

/// A modifier word, by an action that adds it to the modifiers on the stack.
fn word_action(stack: &mut Vec<Value>, modifier: Modifier) -> Result<(), BuildFail>
    requires { IsTop kinds.modifiers (values_of stack.old.items) }
    ensures { (o : Outcome (List ValueTree)) → ((all : NestedTree (List ModifierTree)) (rest : List ValueTree) → values_of stack.old.items ≡ kinds.AModifiers all ∷ rest → o ≡ Made (kinds.AModifiers (lists.added all (word_node (modifier_of modifier))) ∷ rest)) → Gives (λ _. values_of stack.new.items) result o }
{
    let all = pop_modifiers(stack);
    leave_modifier(stack, all, word(modifier))
}

/// Does an action of modifiers.
#[tactic(auto, using(crate::proofs::AnnotationActionLaws::modifier_laws))]
fn modifier_action(
    alloc: Global,
    action: AnnotationAction,
    stack: &mut Vec<Value>,
) -> Result<(), BuildFail>
    requires group { is_of_modifiers action ≡ true }
    requires fits { Fits (takes_annotation action) (values_of stack.old.items) }
    ensures { (limit : ℕ) → Gives (λ _. values_of stack.new.items) result (perform_annotation limit action (values_of stack.old.items)) }
{
    match action {
        AnnotationAction::NoModifiers => leave(stack, Value::Modifiers(none(alloc))),
        AnnotationAction::AnnotationModifier => {
            let one = pop_annotation(stack);
            let all = pop_modifiers(stack);
            leave_modifier(stack, all, modifier(one))
        }
        AnnotationAction::Public => word_action(stack, Modifier::Public),
        AnnotationAction::Protected => word_action(stack, Modifier::Protected),
        AnnotationAction::Private => word_action(stack, Modifier::Private),
        AnnotationAction::Static => word_action(stack, Modifier::Static),
        AnnotationAction::Final => word_action(stack, Modifier::Final),
        AnnotationAction::Abstract => word_action(stack, Modifier::Abstract),
        _other => unreachable!(),
    }
}

/// Does the action, which finds values of the kinds that it takes.
///
/// # Errors
///
/// `TooDeep` where what it makes would be deeper than the limit.
#[tactic(auto, using(crate::proofs::AnnotationActionLaws::annotation_fits))]
pub fn perform_annotation_action(
    alloc: Global,
    limit: u32,
    action: AnnotationAction,
    stack: &mut Vec<Value>,
) -> Result<(), BuildFail>
    requires { IsNoMisfit (perform_annotation limit action (values_of stack.old.items)) }
    ensures { Gives (λ _. values_of stack.new.items) result (perform_annotation limit action (values_of stack.old.items)) }
{
    match action {
        AnnotationAction::NoArguments
        | AnnotationAction::Annotation
        | AnnotationAction::Pair
        | AnnotationAction::SingleValue
        | AnnotationAction::ExpressionValue
        | AnnotationAction::AnnotationValue => argument_action(alloc, limit, action, stack),
        AnnotationAction::NoValues
        | AnnotationAction::AndValue
        | AnnotationAction::ListValue
        | AnnotationAction::AndAnnotation
        | AnnotationAction::FirstAnnotation => value_action(alloc, limit, action, stack),
        AnnotationAction::NoModifiers
        | AnnotationAction::AnnotationModifier
        | AnnotationAction::Public
        | AnnotationAction::Protected
        | AnnotationAction::Private
        | AnnotationAction::Static
        | AnnotationAction::Final
        | AnnotationAction::Abstract => modifier_action(alloc, action, stack),
    }
}
