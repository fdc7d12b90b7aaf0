//! Which annotations, and which names of must-call sets, are refused.

ghost use Rattle.std.specs.Prelude.{◌≡◌, ◌-◌, ◌<◌, ◌^◌, ◌&&◌, is_none, length};
ghost use Rattle.std.specs.FinSet as set;
ghost use Rattle.std.specs.List.{flat_map, list_any};
ghost use Rattle.std.specs.Option.{option_copied};
ghost use Rattle.program_model.specs.Lookups.{class_at, method_at};
ghost use Rattle.program_model.specs.SuperTests.{has_class};
ghost use Rattle.annotation_kinds.specs.Annotations.{first_of};
ghost use Rattle.refusal_order.specs.Refusals.{least};
ghost use Rattle.effective_signatures.specs.Targets.{target_of};
ghost use Rattle.annotation_rules.specs.AnnotationCases.{bequeaths, class_cases, declaration_of, declaration_of_field, declaration_of_method, exceeds_type, field_cases, full_set, has_bad_value, has_plain_method, is_beyond, is_class_result, is_heavy_throwable, is_inheritable_named, is_library_in, is_needed, is_plain_named, lacks_method, method_cases, own_set_cases, place_cases, private_cases, promises_nothing, resets_nothing};
ghost use Rattle.annotation_rules.specs.Declarations.{bad_annotation, declaration_cases};

use crate::declaration::{Declaration, bad_annotation, declaration_refusal};
use annotation_kinds::{AnnotationKind, first_of, is_of, texts_at};
use effective_signatures::{has_object, is_plain, keeps_object, own_fields, reset_by, target_of};
use must_call_sets::{must, must_of_optional};
use program_model::{
    Class, ClassId, Field, FieldId, Method, MethodId, MethodKind, ParamSig, Program, RawAnno, VType,
};
use refusal_order::{lesser_of, where_true};
use rlc_base::{Code, NameId, NameSet, Refusal, Text};

// Whether the class is one of these.
fn has_class(classes: &[ClassId], class: ClassId) -> bool
    ensures { result ≡ has_class classes.now class }
{
    classes.iter().any(|x| *x == class)
}

// Whether it is a class of exceptions whose set is not empty.
fn is_heavy_throwable(p: &Program, class: &Class) -> bool
    ensures { result ≡ is_heavy_throwable p.now class.now }
{
    has_class(&class.above, p.core.throwable) && !class.must.is_subset(NameSet::empty())
}

// Whether this is an instance method of the name without parameters.
fn is_plain_named(name: &Text, method: Option<&Method>) -> bool
    ensures { result ≡ is_plain_named name.now (option_copied method.entry) }
{
    match method {
        None => false,
        Some(method) => is_plain(method) && method.name.bytes() == name.bytes(),
    }
}

// The same of one that classes under its own inherit.
fn is_inheritable_named(name: &Text, method: Option<&Method>) -> bool
    ensures { result ≡ is_inheritable_named name.now (option_copied method.entry) }
{
    match method {
        None => false,
        Some(method) => !method.is_private && is_plain_named(name, Some(method)),
    }
}

// Whether one of these methods is an instance method of the name without parameters.
fn any_plain_named(p: &Program, name: &Text, methods: &[MethodId]) -> bool
    ensures { result ≡ list_any (λ m. is_plain_named name.now (method_at p.now m)) methods.now }
{
    methods.iter().any(|m| is_plain_named(name, p.method(*m)))
}

// The same of one that classes under its own inherit.
fn any_inheritable_named(p: &Program, name: &Text, methods: &[MethodId]) -> bool
    ensures { result ≡ list_any (λ m. is_inheritable_named name.now (method_at p.now m)) methods.now }
{
    methods
        .iter()
        .any(|m| is_inheritable_named(name, p.method(*m)))
}

// Whether classes under this one inherit an instance method of the name without parameters from it.
fn bequeaths(p: &Program, name: &Text, class: ClassId) -> bool
    ensures { result ≡ bequeaths p.now name.now class }
{
    match p.class(class) {
        None => false,
        Some(found) => any_inheritable_named(p, name, &found.methods),
    }
}

fn any_bequeaths(p: &Program, name: &Text, classes: &[ClassId]) -> bool
    ensures { result ≡ list_any (bequeaths p.now name.now) classes.now }
{
    classes.iter().any(|class| bequeaths(p, name, *class))
}

// Whether the class declares or inherits an instance method of the name without parameters.
fn has_plain_method(p: &Program, class: &Class, name: &Text) -> bool
    ensures { result ≡ has_plain_method p.now class.now name.now }
{
    any_plain_named(p, name, &class.methods) || any_bequeaths(p, name, &class.above)
}

// Whether a name of the class's own set is no such method.
fn lacks_method(p: &Program, class: &Class, annotation: &RawAnno) -> bool
    ensures { result ≡ lacks_method p.now class.now annotation.now }
{
    texts_at(annotation, "value")
        .iter()
        .any(|name| !has_plain_method(p, class, name))
}

// The refusal of a class's own set.
fn own_set_refusal(p: &Program, class: &Class) -> Option<Refusal>
    ensures { result ≡ least (own_set_cases p.now class.now (first_of AnnotationKind.InheritableMustCall class.now.annos.items)) }
{
    match first_of(AnnotationKind::InheritableMustCall, &class.annos) {
        None => None,
        Some(annotation) => where_true(
            lacks_method(p, class, annotation),
            Code::NoSuchMustCall,
            annotation.pos,
        ),
    }
}

/// The least refusal at a class.
#[tactic(auto, using(crate::proofs::Folds::least_laws))]
pub fn class_refusal(p: &Program, class: &Class) -> Option<Refusal>
    ensures { result ≡ least (class_cases p.now class.now) }
{
    let annotations = declaration_refusal(Declaration::Class, &class.annos);
    let throwable = where_true(is_heavy_throwable(p, class), Code::BadAnno, class.pos);
    lesser_of(lesser_of(annotations, throwable), own_set_refusal(p, class))
}

fn declaration_of_field(field: &Field) -> Declaration
    ensures { result ≡ declaration_of_field field.now }
{
    if field.is_static {
        Declaration::StaticField
    } else {
        Declaration::InstanceField
    }
}

/// The least refusal at a field.
pub fn field_refusal(field: &Field) -> Option<Refusal>
    ensures { result ≡ least (field_cases field.now) }
{
    declaration_refusal(declaration_of_field(field), &field.annos)
}

fn is_library(p: &Program, class: ClassId) -> bool
    ensures { result ≡ is_library_in (class_at p.now class) }
{
    match p.class(class) {
        None => false,
        Some(found) => found.library,
    }
}

// Whether the result is of a class type.
fn is_class_result(result_type: Option<VType>) -> bool
    ensures { result ≡ is_class_result result_type }
{
    match result_type {
        Some(VType::Obj(_) | VType::Str) => true,
        Some(VType::Primitive(_) | VType::Arr(_) | VType::NullType) | None => false,
    }
}

fn declaration_of(library: bool, gives_class: bool, kind: MethodKind) -> Declaration
    ensures { result ≡ declaration_of library gives_class kind }
{
    match kind {
        MethodKind::Constant => Declaration::StaticField,
        MethodKind::Ctor if library => Declaration::LibraryConstructor,
        MethodKind::Ctor => Declaration::Constructor,
        MethodKind::Instance | MethodKind::Static if library && gives_class => {
            Declaration::LibraryFactory
        }
        MethodKind::Instance | MethodKind::Static => Declaration::Method,
    }
}

fn declaration_of_method(p: &Program, method: &Method) -> Declaration
    ensures { result ≡ declaration_of_method p.now method.now }
{
    declaration_of(
        is_library(p, method.class),
        is_class_result(method.sig.result),
        method.kind,
    )
}

// Whether a text of the promise names no parameter and no owning field, or `this` or a field where there is no object.
fn promises_nothing(
    p: &Program,
    method: &Method,
    kind: AnnotationKind,
    with_object: bool,
    annotation: &RawAnno,
) -> bool
    requires { length method.now.sig.params.items < 2 ^ 32 - 1 }
    ensures { result ≡ promises_nothing p.now method.now kind with_object annotation.now }
{
    let count = method.sig.params.len() as u32;
    let own = own_fields(&p.classes, method.class);
    is_of(kind, annotation)
        && names_nothing(
            with_object,
            count,
            &p.fields,
            own,
            texts_at(annotation, "value"),
        )
}

// Whether one of the texts names nothing.
fn names_nothing(
    with_object: bool,
    count: u32,
    fields: &[Field],
    own: &[FieldId],
    texts: &[Text],
) -> bool
    ensures { result ≡ list_any (λ text. is_none (target_of with_object count fields.now own.now text)) texts.now }
{
    texts.iter().any(|text| target_of(with_object, count, fields, own, text.bytes()).is_none())
}

// Whether the reset has no target.
fn resets_nothing(method: &Method, annotation: &RawAnno) -> bool
    requires { length method.now.sig.params.items < 2 ^ 32 - 1 }
    ensures { result ≡ resets_nothing method.now annotation.now }
{
    is_of(AnnotationKind::CreatesMustCallFor, annotation) && reset_by(method, annotation).is_none()
}

// What must be called on the result, or on the object that a constructor makes.
fn full_set(p: &Program, method: &Method) -> NameSet
    ensures { result ≡ full_set p.now method.now method.now.kind }
{
    match method.kind {
        MethodKind::Ctor => must(p, method.class),
        MethodKind::Instance | MethodKind::Static | MethodKind::Constant => {
            must_of_optional(p, method.sig.result)
        }
    }
}

fn is_beyond(full: NameSet, first: Option<NameSet>) -> bool
    ensures { result ≡ is_beyond full first }
{
    match first {
        None => false,
        Some(first) => !first.is_subset(full),
    }
}

// Whether the set that a fresh result starts with is not within that of its type.
fn exceeds_type(p: &Program, method: &Method, annotation: &RawAnno) -> bool
    ensures { result ≡ exceeds_type p.now method.now annotation.now }
{
    is_of(AnnotationKind::MustCall, annotation) && is_beyond(full_set(p, method), method.sig.first)
}

// Whether the annotation's value says nothing of this method.
fn has_bad_value(p: &Program, method: &Method, annotation: &RawAnno) -> bool
    requires { length method.now.sig.params.items < 2 ^ 32 - 1 }
    ensures { result ≡ has_bad_value p.now method.now annotation.now }
{
    let with_object = has_object(method.kind);
    let keeps_it = keeps_object(method.kind);
    promises_nothing(
        p,
        method,
        AnnotationKind::EnsuresCalledMethods,
        with_object,
        annotation,
    ) || promises_nothing(
        p,
        method,
        AnnotationKind::EnsuresCalledMethodsOnException,
        keeps_it,
        annotation,
    ) || resets_nothing(method, annotation)
        || exceeds_type(p, method, annotation)
}

// The least refusal of an annotation whose value says nothing of this method.
fn value_refusal(p: &Program, method: &Method, annotations: &[RawAnno]) -> Option<Refusal>
    requires { length method.now.sig.params.items < 2 ^ 32 - 1 }
    ensures { result ≡ least (flat_map (λ a. bad_annotation (has_bad_value p.now method.now a) a) annotations.now) }
{
    let mut least = None;
    for annotation in annotations {
        let refusal = bad_annotation(has_bad_value(p, method, annotation), annotation);
        least = lesser_of(least, refusal);
    }
    least
}

// The least refusal of the annotations of parameters.
fn parameter_refusal(parameters: &[ParamSig]) -> Option<Refusal>
    ensures { result ≡ least (flat_map (λ x. declaration_cases Declaration.Parameter x.annos.items) parameters.now) }
{
    let mut least = None;
    for parameter in parameters {
        let refusal = declaration_refusal(Declaration::Parameter, &parameter.annos);
        least = lesser_of(least, refusal);
    }
    least
}

// Whether the name must be called on objects of the class or of one under it.
fn is_needed(p: &Program, class: ClassId, name: Option<NameId>) -> bool
    ensures { result ≡ is_needed p.now class name }
{
    match name {
        None => false,
        Some(name) => any_needs(&p.classes, class, name),
    }
}

fn any_needs(classes: &[Class], class: ClassId, name: NameId) -> bool
    ensures { result ≡ list_any (λ k. has_class k.above.items class && set.contains k.must name.0) classes.now }
{
    classes
        .iter()
        .any(|k| has_class(&k.above, class) && k.must.contains(name))
}

// The refusal of a private method whose name is needed.
fn private_refusal(p: &Program, method: &Method) -> Option<Refusal>
    ensures { result ≡ least (private_cases p.now method.now) }
{
    where_true(
        method.is_private && is_needed(p, method.class, method.sig.interest),
        Code::NoSuchMustCall,
        method.pos,
    )
}

// The least refusal of where annotations stand on a method, its receiver and its parameters.
fn place_refusal(p: &Program, method: &Method) -> Option<Refusal>
    ensures { result ≡ least (place_cases p.now method.now) }
{
    let declared = declaration_refusal(declaration_of_method(p, method), &method.annos);
    let receiver = declaration_refusal(Declaration::Receiver, &method.sig.receiver.annos);
    lesser_of(
        lesser_of(declared, receiver),
        parameter_refusal(&method.sig.params),
    )
}

/// The least refusal at a method, constructor or constant.
pub fn method_refusal(p: &Program, method: &Method) -> Option<Refusal>
    requires { length method.now.sig.params.items < 2 ^ 32 - 1 }
    ensures { result ≡ least (method_cases p.now method.now) }
{
    let values = value_refusal(p, method, &method.annos);
    lesser_of(
        lesser_of(place_refusal(p, method), values),
        private_refusal(p, method),
    )
}
