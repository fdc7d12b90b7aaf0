//! Overload resolution over arguments that may have no type (JLS 15.12.2).

ghost use Rattle.std.specs.Prelude.{◌≡◌, IfOk, map};
ghost use Rattle.java_expression_parts.specs.Arguments.{argument_types};
ghost use Rattle.java_call_rules.specs.Calls.{choice_for, members_named, resolution, resolution_in};
ghost use Rattle.java_expression_parts.specs.Surroundings.{surroundings_of};
ghost use Rattle.java_expression_parts.specs.TypedParts.{typing_of};

use class_members::methods_named;
use java_expression_parts::{BodyScope, ExpressionTyping, applicable_to, have_types};
use java_overloads::{Choice, choice_among};
use java_typed_trees::Answer;
use program_model::{ClassId, MethodId, Program};
use rlc_base::{Code, NoMemory, Pos, Text};
use std::alloc::Global;

/// Which method a call means.
#[derive(Clone, Copy)]
pub enum MethodResolution {
    /// This method.
    Method(MethodId),
    /// None: what the rule of the call says then.
    NoMethod(Answer),
}

/// Which of these methods or constructors the arguments mean (JLS 15.12.2): the most specific of those that take them.
fn choice_for(
    alloc: Global,
    p: &Program,
    candidates: &[MethodId],
    arguments: &[ExpressionTyping],
) -> Result<Choice, NoMemory>
    ensures { IfOk result (λ x. x ≡ choice_for p.now candidates.now (argument_types (map typing_of arguments.now))) }
{
    let found = applicable_to(alloc, p, candidates, arguments)?;
    choice_among(alloc, p, &found)
}

fn resolution_in(pos: Pos, choice: Choice) -> MethodResolution
    ensures { result ≡ resolution_in pos choice }
{
    match choice {
        Choice::NotApplicable => MethodResolution::NoMethod(Answer::Wrong(Code::NoSuchMethod, pos)),
        Choice::NotSpecific => MethodResolution::NoMethod(Answer::Wrong(Code::Ambiguous, pos)),
        Choice::Chosen(method) => MethodResolution::Method(method),
    }
}

/// The method or constructor that these candidates and arguments mean, where each argument has a type.
pub fn resolution(
    alloc: Global,
    p: &Program,
    pos: Pos,
    candidates: &[MethodId],
    arguments: &[ExpressionTyping],
) -> Result<MethodResolution, NoMemory>
    ensures { IfOk result (λ r. r ≡ resolution p.now pos candidates.now (map typing_of arguments.now)) }
{
    if have_types(arguments) {
        let choice = choice_for(alloc, p, candidates, arguments)?;
        Ok(resolution_in(pos, choice))
    } else {
        Ok(MethodResolution::NoMethod(Answer::Silent(pos)))
    }
}

/// The methods of the name that are members of the class, if there is one.
pub(crate) fn members_named(
    alloc: Global,
    scope: &BodyScope,
    name: &Text,
    class: Option<ClassId>,
) -> Result<Vec<MethodId>, NoMemory>
    ensures { IfOk result (λ v. v.items ≡ members_named (surroundings_of scope.now) name.now class) }
{
    match class {
        None => Ok(Vec::new(alloc)),
        Some(found) => methods_named(
            alloc,
            scope.scope.program,
            scope.scope.class,
            found,
            name.bytes(),
        ),
    }
}
