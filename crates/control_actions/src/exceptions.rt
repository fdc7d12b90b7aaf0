//! The exceptions that an action throws.

ghost use Rattle.std.specs.Prelude.{◌≡◌, ◌∷◌, [], IfOk, OnOk};
ghost use Rattle.program_model.specs.Lookups.{optional};
ghost use Rattle.control_actions.specs.Leaving.{HasEdges};
ghost use Rattle.program_model.specs.Hierarchy.{IsHierarchy};
ghost use Rattle.program_model.specs.SuperTests.{has_class};
ghost use Rattle.control_actions.specs.Exceptions.{class_count, exception_depth, exceptions_of, heeded, heeded_by_call, is_heeded_under, is_wholly_ignored, operator_exceptions, receiver_exceptions, some_heeded, throws_clause, throws_some_heeded, unchecked, with_class, with_classes};

use crate::{Action, Operator};
use program_model::{BinaryOperator, ClassId, MethodId, Program, is_ignored, under};
use rlc_base::NoMemory;
use std::alloc::Global;

fn has_class(classes: &[ClassId], class: ClassId) -> bool
    ensures { result ≡ has_class classes.now class }
{
    classes.iter().any(|x| *x == class)
}

// Whether the class is under a class that is ignored with its subclasses.
fn is_wholly_ignored(p: &Program, class: ClassId) -> bool
    ensures { result ≡ is_wholly_ignored p.now class }
{
    p.ignored.iter().any(|d| under(p, class, *d))
}

// Whether the class is under `t` and not ignored.
fn is_heeded_under(p: &Program, t: ClassId, class: ClassId) -> bool
    ensures { result ≡ is_heeded_under p.now t class }
{
    under(p, class, t) && !is_ignored(p, class)
}

// Whether a class of the program that is under `t` is not ignored, by looking at all classes.
fn some_heeded(p: &Program, t: ClassId) -> bool
    ensures { result ≡ some_heeded p.now t (class_count p.now) }
{
    let count = p.classes.len().min(4294967296);
    let mut some = false;
    for k in 0..count {
        let heeded = is_heeded_under(p, t, ClassId(k as u32));
        some = some || heeded;
    }
    some
}

// Whether a class of the program that is under `t` is not ignored.
fn throws_some_heeded(p: &Program, t: ClassId) -> bool
    ensures { result ≡ throws_some_heeded p.now t }
{
    if is_ignored(p, t) {
        if is_wholly_ignored(p, t) {
            false
        } else {
            some_heeded(p, t)
        }
    } else {
        true
    }
}

fn add_class(classes: &mut Vec<ClassId>, class: ClassId) -> Result<(), NoMemory>
    ensures { OnOk result (classes.new.items ≡ with_class classes.old.items class) }
{
    if !has_class(classes, class) {
        classes.push(class)?;
    }
    Ok(())
}

fn add_classes(classes: &mut Vec<ClassId>, more: &[ClassId]) -> Result<(), NoMemory>
    ensures { OnOk result (classes.new.items ≡ with_classes classes.old.items more.now) }
{
    for class in more {
        add_class(classes, *class)?;
    }
    Ok(())
}

fn add_heeded(p: &Program, classes: &mut Vec<ClassId>, more: &[ClassId]) -> Result<(), NoMemory>
    ensures { OnOk result (classes.new.items ≡ with_classes classes.old.items (heeded p.now more.now)) }
{
    for class in more {
        if !is_ignored(p, *class) {
            add_class(classes, *class)?;
        }
    }
    Ok(())
}

fn add_heeded_by_call(
    p: &Program,
    classes: &mut Vec<ClassId>,
    more: &[ClassId],
) -> Result<(), NoMemory>
    ensures { OnOk result (classes.new.items ≡ with_classes classes.old.items (heeded_by_call p.now more.now)) }
{
    for class in more {
        if throws_some_heeded(p, *class) {
            add_class(classes, *class)?;
        }
    }
    Ok(())
}

// The classes of the first list, and those of the second that are not ignored, each once.
fn thrown(
    alloc: Global,
    p: &Program,
    declared: &[ClassId],
    others: &[ClassId],
) -> Result<Vec<ClassId>, NoMemory>
    ensures { IfOk result (λ v. v.items ≡ with_classes (with_classes [] declared.now) (heeded p.now others.now)) }
{
    let mut classes = Vec::new(alloc);
    add_classes(&mut classes, declared)?;
    add_heeded(p, &mut classes, others)?;
    Ok(classes)
}

// The classes of a throws clause, and the unchecked ones of which some exceptions are not ignored, each once.
fn thrown_beside(alloc: Global, p: &Program, declared: &[ClassId]) -> Result<Vec<ClassId>, NoMemory>
    ensures { IfOk result (λ v. v.items ≡ with_classes (with_classes [] declared.now) (heeded_by_call p.now (unchecked p.now))) }
{
    let mut classes = Vec::new(alloc);
    add_classes(&mut classes, declared)?;
    add_heeded_by_call(p, &mut classes, &[p.core.runtime_exception, p.core.error])?;
    Ok(classes)
}

// The exceptions of a call: those of the throws clause, and the unchecked ones.
fn thrown_by_call(alloc: Global, p: &Program, m: MethodId) -> Result<Vec<ClassId>, NoMemory>
    ensures { IfOk result (λ v. v.items ≡ with_classes (with_classes [] (throws_clause p.now m)) (heeded_by_call p.now (unchecked p.now))) }
{
    match p.method(m) {
        None => thrown_beside(alloc, p, &[]),
        Some(found) => thrown_beside(alloc, p, &found.sig.throws),
    }
}

// The exceptions of an operator.
fn thrown_by_operator(
    alloc: Global,
    p: &Program,
    operator: Operator,
) -> Result<Vec<ClassId>, NoMemory>
    ensures { IfOk result (λ v. v.items ≡ with_classes [] (heeded p.now (operator_exceptions p.now operator))) }
{
    match operator {
        Operator::Binary(BinaryOperator::Divide | BinaryOperator::Remainder, _, _) => {
            thrown(alloc, p, &[], &[p.core.arithmetic_exception])
        }
        Operator::Element | Operator::StoreElement => {
            thrown(
                alloc,
                p,
                &[],
                &[p.core.null_pointer_exception, p.core.array_index_exception],
            )
        }
        Operator::Length => thrown(alloc, p, &[], &[p.core.null_pointer_exception]),
        Operator::NewArray(_) => thrown(alloc, p, &[], &[p.core.negative_array_size_exception]),
        _ => thrown(alloc, p, &[], &[]),
    }
}

// The exception of a field access: none through `this`.
fn thrown_by_access(
    alloc: Global,
    p: &Program,
    through_this: bool,
) -> Result<Vec<ClassId>, NoMemory>
    ensures { IfOk result (λ v. v.items ≡ with_classes [] (heeded p.now (receiver_exceptions p.now through_this))) }
{
    if through_this {
        thrown(alloc, p, &[], &[])
    } else {
        thrown(alloc, p, &[], &[p.core.null_pointer_exception])
    }
}

// The exceptions of a `throw`: the static class, and that of a null value.
fn thrown_by_raise(
    alloc: Global,
    p: &Program,
    class: Option<ClassId>,
) -> Result<Vec<ClassId>, NoMemory>
    ensures { IfOk result (λ v. v.items ≡ with_classes (with_classes [] (optional class)) (heeded p.now (p.now.core.null_pointer_exception ∷ []))) }
{
    match class {
        None => thrown(alloc, p, &[], &[p.core.null_pointer_exception]),
        Some(class) => thrown(alloc, p, &[class], &[p.core.null_pointer_exception]),
    }
}

/// The classes that an action throws, each once, in the order of the edges.
pub fn exceptions_of(alloc: Global, p: &Program, action: Action) -> Result<Vec<ClassId>, NoMemory>
    ensures { IfOk result (λ v. v.items ≡ exceptions_of p.now action) }
{
    match action {
        Action::Op(operator, _, _) => thrown_by_operator(alloc, p, operator),
        Action::Get(_, _, through_this) => thrown_by_access(alloc, p, through_this),
        Action::Put(_, _, through_this) => thrown_by_access(alloc, p, through_this),
        Action::Cast(_, _) => thrown(alloc, p, &[], &[p.core.class_cast_exception]),
        Action::Call(m, _, _, _) => thrown_by_call(alloc, p, m),
        Action::New(m, _, _) => thrown_by_call(alloc, p, m),
        Action::Super(m, _, _) => thrown_by_call(alloc, p, m),
        Action::Raise(_, class) => thrown_by_raise(alloc, p, class),
        _ => thrown(alloc, p, &[], &[]),
    }
}

/// The depth of the temp in which an action leaves the exception that it throws; 0 for one that throws nothing.
pub fn exception_depth(action: Action) -> u32
    ensures { result ≡ exception_depth action }
{
    match action {
        Action::Op(_, depth, _)
        | Action::Get(_, depth, _)
        | Action::Put(_, depth, _)
        | Action::Cast(_, depth)
        | Action::Call(_, depth, _, _)
        | Action::New(_, depth, _)
        | Action::Super(_, depth, _)
        | Action::Raise(depth, _) => depth,
        _ => 0,
    }
}

/// The law of the edges by which exceptions leave: where the hierarchy of the program is valid, an exception leaves an action
/// by an edge that the steps of the action have (JLS 11.2). Of the ignored exceptions that holds for those under a class of
/// the throws clause of a call or under the static class of a `throw`.
#[tactic(auto, using(crate::proofs::LeavingLaws::has_edges))]
pub fn edges_of_exceptions(p: &Program, action: Action)
    requires { IsHierarchy p.now }
    ensures { HasEdges p.now action }
{}
