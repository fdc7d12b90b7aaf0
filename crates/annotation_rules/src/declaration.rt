//! Where annotations may stand.

ghost use Rattle.std.specs.Prelude.{◌≡◌, ◌<◌, true, length, position, IfSome};
ghost use Rattle.std.specs.List.{flat_map};
ghost use Rattle.refusal_order.specs.Refusals.{least};
ghost use Rattle.annotation_kinds.specs.Annotations.{is_of, kinds};
ghost use Rattle.annotation_rules.specs.Declarations.{allowed, bad_annotation, declaration_cases, is_allowed, is_wrong, repeats, speaks_of_owning};

use annotation_kinds::{AnnotationKind, KINDS, is_of, is_read};
use program_model::RawAnno;
use refusal_order::{lesser_of, where_true};
use rlc_base::{Code, Refusal};

/// A kind of declaration that annotations stand on.
#[derive(Clone, Copy, Debug)]
pub enum Declaration {
    /// A class or interface.
    Class,
    InstanceField,
    /// A static field, and so a constant of a stub.
    StaticField,
    Method,
    /// A method of a stub whose result is of a class type.
    LibraryFactory,
    Constructor,
    /// A constructor of a stub.
    LibraryConstructor,
    /// A declared parameter.
    Parameter,
    /// A receiver parameter (JLS 8.4).
    Receiver,
    /// A local, resource or catch variable.
    Variable,
}

const ON_CLASS: [AnnotationKind; 1] = [AnnotationKind::InheritableMustCall];

const ON_FIELD: [AnnotationKind; 2] = [AnnotationKind::Owning, AnnotationKind::NotOwning];

const ON_METHOD: [AnnotationKind; 6] = [
    AnnotationKind::Owning,
    AnnotationKind::NotOwning,
    AnnotationKind::MustCallAlias,
    AnnotationKind::CreatesMustCallFor,
    AnnotationKind::EnsuresCalledMethods,
    AnnotationKind::EnsuresCalledMethodsOnException,
];

const ON_FACTORY: [AnnotationKind; 7] = [
    AnnotationKind::Owning,
    AnnotationKind::NotOwning,
    AnnotationKind::MustCallAlias,
    AnnotationKind::CreatesMustCallFor,
    AnnotationKind::EnsuresCalledMethods,
    AnnotationKind::EnsuresCalledMethodsOnException,
    AnnotationKind::MustCall,
];

const ON_CONSTRUCTOR: [AnnotationKind; 3] = [
    AnnotationKind::MustCallAlias,
    AnnotationKind::EnsuresCalledMethods,
    AnnotationKind::EnsuresCalledMethodsOnException,
];

const ON_LIBRARY_CONSTRUCTOR: [AnnotationKind; 4] = [
    AnnotationKind::MustCallAlias,
    AnnotationKind::EnsuresCalledMethods,
    AnnotationKind::EnsuresCalledMethodsOnException,
    AnnotationKind::MustCall,
];

const ON_PARAMETER: [AnnotationKind; 4] = [
    AnnotationKind::Owning,
    AnnotationKind::NotOwning,
    AnnotationKind::MustCallAlias,
    AnnotationKind::CalledMethods,
];

const ON_RECEIVER: [AnnotationKind; 1] = [AnnotationKind::MustCallAlias];

// The annotations that may stand on a declaration.
fn allowed(declaration: Declaration) -> &'static [AnnotationKind]
    ensures { result.now ≡ allowed declaration }
{
    match declaration {
        Declaration::Class => &ON_CLASS,
        Declaration::InstanceField => &ON_FIELD,
        Declaration::Method => &ON_METHOD,
        Declaration::LibraryFactory => &ON_FACTORY,
        Declaration::Constructor => &ON_CONSTRUCTOR,
        Declaration::LibraryConstructor => &ON_LIBRARY_CONSTRUCTOR,
        Declaration::Parameter => &ON_PARAMETER,
        Declaration::Receiver => &ON_RECEIVER,
        Declaration::StaticField | Declaration::Variable => &[],
    }
}

fn is_allowed(declaration: Declaration, annotation: &RawAnno) -> bool
    ensures { result ≡ is_allowed declaration annotation.now }
{
    allowed(declaration)
        .iter()
        .any(|kind| is_of(*kind, annotation))
}

fn is_wrong(declaration: Declaration, annotation: &RawAnno) -> bool
    ensures { result ≡ is_wrong declaration annotation.now }
{
    is_read(annotation) && !(is_allowed(declaration, annotation) && annotation.shaped)
}

fn speaks_of_owning(annotation: &RawAnno) -> bool
    ensures { result ≡ speaks_of_owning annotation.now }
{
    is_of(AnnotationKind::Owning, annotation) || is_of(AnnotationKind::NotOwning, annotation)
}

// The refusal of an annotation, where its case holds.
pub fn bad_annotation(holds: bool, annotation: &RawAnno) -> Option<Refusal>
    ensures { result ≡ least (bad_annotation holds annotation.now) }
{
    where_true(holds, Code::BadAnno, annotation.pos)
}

// The least refusal of an annotation that stands in a wrong place, or with another value.
fn wrong_annotation(declaration: Declaration, annotations: &[RawAnno]) -> Option<Refusal>
    ensures { result ≡ least (flat_map (λ a. bad_annotation (is_wrong declaration a) a) annotations.now) }
{
    let mut least = None;
    for annotation in annotations {
        let refusal = bad_annotation(is_wrong(declaration, annotation), annotation);
        least = lesser_of(least, refusal);
    }
    least
}

// The least refusal of annotations of this kind, of which none may stand there.
fn any_of(kind: AnnotationKind, annotations: &[RawAnno]) -> Option<Refusal>
    ensures { result ≡ least (flat_map (λ a. bad_annotation (is_of kind a) a) annotations.now) }
{
    let mut least = None;
    for annotation in annotations {
        let refusal = bad_annotation(is_of(kind, annotation), annotation);
        least = lesser_of(least, refusal);
    }
    least
}

// Where the first annotation of the kind stands.
fn first_place(kind: AnnotationKind, annotations: &[RawAnno]) -> Option<usize>
    ensures place { result ≡ position (is_of kind) annotations.now }
    ensures within { IfSome result (λ i. i < length annotations.now) }
{
    annotations.iter().position(|a| is_of(kind, a))
}

// The least refusal of an annotation that another of its kind comes before.
fn repeated(kind: AnnotationKind, annotations: &[RawAnno]) -> Option<Refusal>
    ensures { result ≡ least (repeats (is_of kind) annotations.now) }
{
    match first_place(kind, annotations) {
        None => None,
        Some(first) => any_of(kind, &annotations[first + 1..]),
    }
}

// The least refusal of annotations that say whether the obligation moves, of which none may stand there.
fn any_owning(annotations: &[RawAnno]) -> Option<Refusal>
    ensures { result ≡ least (flat_map (λ a. bad_annotation (speaks_of_owning a) a) annotations.now) }
{
    let mut least = None;
    for annotation in annotations {
        let refusal = bad_annotation(speaks_of_owning(annotation), annotation);
        least = lesser_of(least, refusal);
    }
    least
}

// Where the first annotation stands that says whether the obligation moves.
fn first_owning(annotations: &[RawAnno]) -> Option<usize>
    ensures place { result ≡ position speaks_of_owning annotations.now }
    ensures within { IfSome result (λ i. i < length annotations.now) }
{
    annotations.iter().position(|a| speaks_of_owning(a))
}

// The least refusal of an annotation that says whether the obligation moves, and that another such comes before.
fn repeated_owning(annotations: &[RawAnno]) -> Option<Refusal>
    ensures { result ≡ least (repeats speaks_of_owning annotations.now) }
{
    match first_owning(annotations) {
        None => None,
        Some(first) => any_owning(&annotations[first + 1..]),
    }
}

// The least refusal of an annotation that another of its kind comes before, of all kinds.
fn repeated_kinds(annotations: &[RawAnno]) -> Option<Refusal>
    ensures { result ≡ least (flat_map (λ kind. repeats (is_of kind) annotations.now) kinds) }
{
    let mut least = None;
    for kind in &KINDS {
        least = lesser_of(least, repeated(*kind, annotations));
    }
    least
}

/// The least refusal of the annotations of a declaration: one stands in a wrong place, with another value, or twice, or
/// `@Owning` stands with `@NotOwning`.
#[tactic(auto, using(crate::proofs::Folds::least_laws))]
pub fn declaration_refusal(declaration: Declaration, annotations: &[RawAnno]) -> Option<Refusal>
    ensures { result ≡ least (declaration_cases declaration annotations.now) }
{
    lesser_of(
        lesser_of(
            wrong_annotation(declaration, annotations),
            repeated_kinds(annotations),
        ),
        repeated_owning(annotations),
    )
}
