//! With what the body of a constructor begins (JLS 8.8.7): the super call and the initialisers of the instance fields.

ghost use Rattle.std.specs.Prelude.{◌≡◌, ◌++◌, OnOk, map};
ghost use Rattle.java_call_rules.specs.Surroundings.{surroundings_of};
ghost use Rattle.java_typed_trees.specs.StatementTrees.{statement_of};
ghost use Rattle.field_initializers.specs.SourceClassesMembers.{environment_in};
ghost use Rattle.declared_bodies.specs.Bodies.{argument_surroundings, head_cases, head_statements, locals_in, source_body_of};

use crate::declared_bodies::DeclaredBody;
use crate::super_calls::push_super_call;
use field_initializers::{ProgramScope, push_initializers, surroundings_in};
use java_call_rules::BodyScope;
use java_typed_trees::{Local, StatementTree};
use rlc_base::{NoMemory, Refusal};
use std::alloc::Global;

// Where the arguments of the super call stand: there is no `this` (JLS 8.8.7.1).
fn argument_scope<'p, 'l, 'n, 'u, 'k>(
    scope: &ProgramScope<'p, 'n, 'k>,
    b: &DeclaredBody<'p, '_, 'u>,
    locals: &'l [Local],
) -> BodyScope<'p, 'l, 'p, 'n, 'u, 'k>
    requires { locals.now ≡ locals_in (source_body_of b.now) }
    ensures { surroundings_of result ≡ argument_surroundings (environment_in scope.now) (source_body_of b.now) }
{
    let class = &b.class;
    surroundings_in(
        scope,
        class,
        false,
        Some(class.class),
        locals,
        &b.signature.sig.throws,
    )
}

/// Puts what the body of a constructor begins with at the end, and counts the refusals in it. `locals` are its parameters. The
/// body of a method begins with nothing.
pub fn push_head(
    alloc: Global,
    scope: &ProgramScope,
    b: &DeclaredBody,
    locals: &[Local],
    refusals: &mut Vec<Refusal>,
    trees: &mut Vec<StatementTree>,
) -> Result<(), NoMemory>
    requires { locals.now ≡ locals_in (source_body_of b.now) }
    ensures tree { OnOk result (map statement_of trees.new.items ≡ map statement_of trees.old.items ++ head_statements (environment_in scope.now) (source_body_of b.now) (source_body_of b.now).body.super_call) }
    ensures cases { OnOk result (refusals.new.items ≡ refusals.old.items ++ head_cases (environment_in scope.now) (source_body_of b.now) (source_body_of b.now).body.super_call) }
{
    match &b.body.super_call {
        None => Ok(()),
        Some(call) => {
            let inner = argument_scope(scope, b, locals);
            push_super_call(alloc, &inner, refusals, trees, call)?;
            let covered = &b.signature.sig.throws;
            push_initializers(alloc, scope, &b.class, covered, trees, refusals)
        }
    }
}
