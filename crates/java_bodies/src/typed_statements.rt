//! The typed statements of a body.

ghost use Rattle.std.specs.Prelude.{◌≡◌, ◌++◌, IfOk, OnOk, length, map};
ghost use Rattle.java_typed_trees.specs.StatementTrees.{statement_of};
ghost use Rattle.java_typed_statements.specs.Scopes.{context_at};
ghost use Rattle.declared_bodies.specs.SourceClassesMembers.{environment_in};
ghost use Rattle.declared_bodies.specs.Bodies.{has_this, initialized_in, locals_in, source_body_of};
ghost use Rattle.java_bodies.specs.Bodies.{body_cases, body_context, body_trees};

use declared_bodies::{DeclaredBody, ProgramScope, parameters, push_head};
use java_typed_statements::{StatementScope, statements};
use java_typed_trees::{Local, StatementTree};
use program_model::{ClassId, MethodKind};
use rlc_base::{NoMemory, Refusal};
use std::alloc::Global;

fn has_this(kind: MethodKind) -> bool
    ensures { result ≡ has_this kind }
{
    match kind {
        MethodKind::Instance => true,
        MethodKind::Static => false,
        MethodKind::Ctor => true,
        MethodKind::Constant => false,
    }
}

fn initialized_in(class: ClassId, kind: MethodKind) -> Option<ClassId>
    ensures { result ≡ initialized_in class kind }
{
    match kind {
        MethodKind::Ctor => Some(class),
        MethodKind::Instance => None,
        MethodKind::Static => None,
        MethodKind::Constant => None,
    }
}

// Where the statements of the body stand.
fn statement_scope<'p, 'n, 'u, 'k>(
    scope: &ProgramScope<'p, 'n, 'k>,
    b: &DeclaredBody<'p, '_, 'u>,
) -> StatementScope<'p, 'p, 'n, 'u, 'k>
    ensures { context_at result (locals_in (source_body_of b.now)) (length (locals_in (source_body_of b.now))) ≡ body_context (environment_in scope.now) (source_body_of b.now) }
{
    let kind = b.signature.kind;
    StatementScope {
        program: scope.program,
        class: b.class.class,
        has_this: has_this(kind),
        covered: &b.signature.sig.throws,
        names: scope.names,
        unit: b.class.declared.scope,
        initialized: initialized_in(b.class.class, kind),
        constants: scope.constants,
        given: b.signature.sig.result,
        in_loop: false,
    }
}

// The number of variables, where it is one of 32 bits.
fn count_of(locals: &[Local]) -> Result<u32, NoMemory>
    ensures { IfOk result (λ n. n ≡ length locals.now) }
{
    match u32::try_from(locals.len()) {
        Ok(count) => Ok(count),
        Err(_) => Err(NoMemory),
    }
}

/// The typed statements of a body, in a constructor the super call and the field initialisers first (JLS 8.8.7). The refusals in
/// it come behind those that are counted already.
///
/// # Errors
///
/// Memory may run out.
pub fn body_statements(
    alloc: Global,
    scope: &ProgramScope,
    b: &DeclaredBody,
    refusals: &mut Vec<Refusal>,
) -> Result<Vec<StatementTree>, NoMemory>
    ensures trees { IfOk result (λ v. map statement_of v.items ≡ body_trees (environment_in scope.now) (source_body_of b.now)) }
    ensures cases { OnOk result (refusals.new.items ≡ refusals.old.items ++ body_cases (environment_in scope.now) (source_body_of b.now)) }
{
    let written = &b.body;
    let mut locals = parameters(alloc, written.parameters, &b.signature.sig.params, refusals)?;
    let mut next = count_of(&locals)?;
    let mut trees = Vec::new(alloc);
    push_head(alloc, scope, b, &locals, refusals, &mut trees)?;
    let inner = statement_scope(scope, b);
    let all = written.statements;
    let _done = statements(
        alloc,
        &inner,
        all,
        &mut locals,
        &mut next,
        refusals,
        &mut trees,
    )?;
    Ok(trees)
}
