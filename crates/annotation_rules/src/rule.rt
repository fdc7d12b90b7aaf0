//! The pass over a whole program that refuses annotations and names of must-call sets.

ghost use Rattle.std.specs.Prelude.{◌≡◌, ◌-◌, ◌<◌, ◌^◌, All, length};
ghost use Rattle.std.specs.List.{flat_map};
ghost use Rattle.refusal_order.specs.Refusals.{least, verdict_of};
ghost use Rattle.annotation_rules.specs.AnnotationCases.{annotation_cases, body_cases, class_cases, field_cases, method_cases};

use crate::body_cases::body_refusal;
use crate::cases::{class_refusal, field_refusal, method_refusal};
use program_model::{Body, Class, Field, Method, Program};
use refusal_order::{lesser_of, verdict_of};
use rlc_base::Refusal;

// The least refusal at a class.
fn class_refusals(p: &Program, classes: &[Class]) -> Option<Refusal>
    ensures { result ≡ least (flat_map (class_cases p.now) classes.now) }
{
    let mut least = None;
    for class in classes {
        least = lesser_of(least, class_refusal(p, class));
    }
    least
}

// The least refusal at a field.
fn field_refusals(fields: &[Field]) -> Option<Refusal>
    ensures { result ≡ least (flat_map field_cases fields.now) }
{
    let mut least = None;
    for field in fields {
        least = lesser_of(least, field_refusal(field));
    }
    least
}

// The least refusal at a method, constructor or constant.
fn method_refusals(p: &Program, methods: &[Method]) -> Option<Refusal>
    requires { All (λ m. length m.sig.params.items < 2 ^ 32 - 1) methods.now }
    ensures { result ≡ least (flat_map (method_cases p.now) methods.now) }
{
    let mut least = None;
    for method in methods {
        least = lesser_of(least, method_refusal(p, method));
    }
    least
}

// The least refusal in a body.
fn body_refusals(p: &Program, bodies: &[Body]) -> Option<Refusal>
    ensures { result ≡ least (flat_map (body_cases p.now) bodies.now) }
{
    let mut least = None;
    for body in bodies {
        least = lesser_of(least, body_refusal(p, body));
    }
    least
}

// The least refusal of all.
fn annotation_refusal(p: &Program) -> Option<Refusal>
    requires { All (λ m. length m.sig.params.items < 2 ^ 32 - 1) p.now.methods.items }
    ensures { result ≡ least (annotation_cases p.now) }
{
    let classes = class_refusals(p, &p.classes);
    let fields = field_refusals(&p.fields);
    let methods = method_refusals(p, &p.methods);
    let bodies = body_refusals(p, &p.bodies);
    lesser_of(lesser_of(lesser_of(classes, fields), methods), bodies)
}

/// Whether annotations stand right in a program whose sets and signatures are read, and each name of a must-call set is a
/// method that can be called. It takes no memory.
///
/// # Errors
///
/// The refusal at the least place, and there that of the least code. `BadAnno` for an annotation in a wrong place, twice or
/// with another value, at it; for a class of exceptions whose set is not empty, at the class; and for a parameter that is
/// assigned though its signature speaks of it, at the parameter. `NoSuchMustCall` for a name of a class's own set that is no
/// instance method without parameters which it declares or inherits, at the annotation, and for such a method that is private,
/// at the method.
pub fn annotation_rule(p: &Program) -> Result<(), Refusal>
    requires { All (λ m. length m.sig.params.items < 2 ^ 32 - 1) p.now.methods.items }
    ensures { result ≡ verdict_of (least (annotation_cases p.now)) }
{
    verdict_of(annotation_refusal(p))
}
