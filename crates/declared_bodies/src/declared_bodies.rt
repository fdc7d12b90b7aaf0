//! The bodies of a program.

ghost use Rattle.std.specs.Prelude.{◌≡◌, ◌++◌, IfOk, OnOk, map};
ghost use Rattle.std.specs.Option.{option_copied, option_map};
ghost use Rattle.field_initializers.specs.SourceClassesMembers.{environment_in, numbered_method_of};
ghost use Rattle.field_initializers.specs.SourceClasses.{source_class_of};
ghost use Rattle.declared_bodies.specs.Bodies.{all_bodies, bodies_among, bodies_in, source_body, source_body_of, written_body_of};

use crate::body_trees::{BodyTree, body_of};
use field_initializers::{DeclaredClass, NumberedMethod, ProgramScope, numbered_methods};
use program_model::{Method, MethodId};
use rlc_base::NoMemory;
use std::alloc::Global;

/// A body, with the method or constructor that it is of.
#[derive(Clone, Copy)]
pub struct DeclaredBody<'p, 'd, 'u> {
    /// Its class.
    pub class: DeclaredClass<'d, 'u>,
    /// The number of the method or constructor.
    pub method: MethodId,
    /// What the table has of it.
    pub signature: &'p Method,
    /// The body.
    pub body: BodyTree<'d>,
}

// Puts the body of a method at the end, where it has one.
fn push_body<'p, 'd, 'u>(
    all: &mut Vec<DeclaredBody<'p, 'd, 'u>>,
    class: &DeclaredClass<'d, 'u>,
    method: MethodId,
    signature: Option<&'p Method>,
    body: Option<BodyTree<'d>>,
) -> Result<(), NoMemory>
    ensures { OnOk result (map source_body_of all.new.items ≡ map source_body_of all.old.items ++ source_body (source_class_of class.now) method (option_copied signature.entry) (option_map written_body_of body.entry)) }
{
    match signature {
        None => Ok(()),
        Some(signature) => match body {
            None => Ok(()),
            Some(body) => {
                all.push(DeclaredBody {
                    class: *class,
                    method,
                    signature,
                    body,
                })?;
                Ok(())
            }
        },
    }
}

// Puts the bodies of these methods of a class at the end.
fn push_bodies<'p, 'd, 'u>(
    scope: &ProgramScope<'p, '_, '_>,
    all: &mut Vec<DeclaredBody<'p, 'd, 'u>>,
    class: &DeclaredClass<'d, 'u>,
    methods: &[NumberedMethod<'d>],
) -> Result<(), NoMemory>
    ensures { OnOk result (map source_body_of all.new.items ≡ map source_body_of all.old.items ++ bodies_among (environment_in scope.now) (source_class_of class.now) (map numbered_method_of methods.now)) }
{
    for m in methods {
        let signature = scope.program.method(m.method);
        push_body(all, class, m.method, signature, body_of(&m.tree))?;
    }
    Ok(())
}

// Puts the bodies of a class at the end.
fn push_class<'p, 'd, 'u>(
    alloc: Global,
    scope: &ProgramScope<'p, '_, '_>,
    all: &mut Vec<DeclaredBody<'p, 'd, 'u>>,
    class: &DeclaredClass<'d, 'u>,
) -> Result<(), NoMemory>
    ensures { OnOk result (map source_body_of all.new.items ≡ map source_body_of all.old.items ++ bodies_in (environment_in scope.now) (source_class_of class.now)) }
{
    let methods = numbered_methods(alloc, scope, class)?;
    push_bodies(scope, all, class, &methods)
}

/// All bodies of these classes, in class order, and those of each in the order of the text.
///
/// # Errors
///
/// Memory may run out.
pub fn all_bodies<'p, 'd, 'u>(
    alloc: Global,
    scope: &ProgramScope<'p, '_, '_>,
    classes: &[DeclaredClass<'d, 'u>],
) -> Result<Vec<DeclaredBody<'p, 'd, 'u>>, NoMemory>
    ensures { IfOk result (λ v. map source_body_of v.items ≡ all_bodies (environment_in scope.now) (map source_class_of classes.now)) }
{
    let mut all = Vec::new(alloc);
    for class in classes {
        push_class(alloc, scope, &mut all, class)?;
    }
    Ok(all)
}
