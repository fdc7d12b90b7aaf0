//! The annotations that the checker reads, and the texts that they hold.

ghost use Rattle.std.specs.Prelude.{◌≡◌, filter, drop};
ghost use Rattle.std.specs.List.{list_any};
ghost use Rattle.std.specs.Option.{option_copied};
ghost use Rattle.std.specs.Str.{bytes_eq};
ghost use Rattle.annotation_kinds.specs.Annotations.{argument_at, first_of, is_marked, is_of, is_read, first_named, kind_named, name_of, names_listed, texts_at};

use program_model::{RawAnno, RawArg};
use rlc_base::Text;

/// An annotation of the Must Call, Called Methods and Resource Leak Checkers (Checker Framework manual) that is read. All
/// others have no effect.
#[derive(Clone, Copy, Debug)]
pub enum AnnotationKind {
    /// On a class or interface: the type's own must-call set.
    InheritableMustCall,
    /// On a method or constructor of a stub: bounds the set that a fresh result starts with.
    MustCall,
    /// The obligation moves to the parameter, field or caller.
    Owning,
    /// The obligation does not move.
    NotOwning,
    /// The parameter and the result are aliases of one resource.
    MustCallAlias,
    /// The call creates the obligation of its target anew.
    CreatesMustCallFor,
    /// Where the method ends normally, the named methods were called on the named objects.
    EnsuresCalledMethods,
    /// Where the method ends by an exception, the named methods were called on the named objects.
    EnsuresCalledMethodsOnException,
    /// On a parameter: the methods that must have been called before.
    CalledMethods,
}

/// All annotations that are read.
pub const KINDS: [AnnotationKind; 9] = [
    AnnotationKind::InheritableMustCall,
    AnnotationKind::MustCall,
    AnnotationKind::Owning,
    AnnotationKind::NotOwning,
    AnnotationKind::MustCallAlias,
    AnnotationKind::CreatesMustCallFor,
    AnnotationKind::EnsuresCalledMethods,
    AnnotationKind::EnsuresCalledMethodsOnException,
    AnnotationKind::CalledMethods,
];

impl AnnotationKind {
    /// The last identifier of its name.
    pub fn name(self) -> &'static str
        ensures { result.now ≡ name_of self }
    {
        match self {
            AnnotationKind::InheritableMustCall => "InheritableMustCall",
            AnnotationKind::MustCall => "MustCall",
            AnnotationKind::Owning => "Owning",
            AnnotationKind::NotOwning => "NotOwning",
            AnnotationKind::MustCallAlias => "MustCallAlias",
            AnnotationKind::CreatesMustCallFor => "CreatesMustCallFor",
            AnnotationKind::EnsuresCalledMethods => "EnsuresCalledMethods",
            AnnotationKind::EnsuresCalledMethodsOnException => "EnsuresCalledMethodsOnException",
            AnnotationKind::CalledMethods => "CalledMethods",
        }
    }
}

// Whether the kind has this name.
fn has_name(kind: AnnotationKind, name: &[u8]) -> bool
    ensures { result ≡ bytes_eq name.now (name_of kind) }
{
    name == kind.name().as_bytes()
}

// The first of these kinds that has this name.
fn first_named<'a>(kinds: &'a [AnnotationKind], name: &[u8]) -> Option<&'a AnnotationKind>
    ensures { option_copied result ≡ first_named kinds.now name.now }
{
    kinds.iter().find(|kind| has_name(**kind, name))
}

/// The kind of the annotations of this name, without the package; none where they are not read.
pub fn kind_named(name: &[u8]) -> Option<AnnotationKind>
    ensures { result ≡ kind_named name.now }
{
    match first_named(&KINDS, name) {
        None => None,
        Some(kind) => Some(*kind),
    }
}

/// Whether the annotation is of this kind.
pub fn is_of(kind: AnnotationKind, annotation: &RawAnno) -> bool
    ensures { result ≡ is_of kind annotation.now }
{
    annotation.name.bytes() == kind.name().as_bytes()
}

/// Whether the annotation is one that is read.
pub fn is_read(annotation: &RawAnno) -> bool
    ensures { result ≡ is_read annotation.now }
{
    KINDS.iter().any(|kind| is_of(*kind, annotation))
}

/// Whether an annotation of this kind stands among these.
pub fn is_marked(kind: AnnotationKind, annotations: &[RawAnno]) -> bool
    ensures { result ≡ is_marked kind annotations.now }
{
    annotations.iter().any(|annotation| is_of(kind, annotation))
}

/// The first annotation of this kind.
pub fn first_of(kind: AnnotationKind, annotations: &[RawAnno]) -> Option<&RawAnno>
    ensures { option_copied result ≡ first_of kind annotations.now }
{
    annotations
        .iter()
        .find(|annotation| is_of(kind, annotation))
}

// The first argument with this key.
fn argument_at<'a>(arguments: &'a [RawArg], key: &str) -> Option<&'a RawArg>
    ensures { option_copied result ≡ argument_at arguments.now key.now }
{
    arguments
        .iter()
        .find(|argument| argument.key.bytes() == key.as_bytes())
}

/// The texts of the annotation at a key, in their order: none where the annotation has not the form that belongs to its
/// name.
pub fn texts_at<'a>(annotation: &'a RawAnno, key: &str) -> &'a [Text]
    ensures { result.now ≡ texts_at annotation.now key.now }
{
    if !annotation.shaped {
        return &[];
    }
    match argument_at(&annotation.args, key) {
        None => &[],
        Some(argument) => &argument.values,
    }
}

/// The names of methods that the annotation lists, from left to right.
pub fn names_listed(annotation: &RawAnno) -> &[Text]
    ensures { result.now ≡ names_listed annotation.now }
{
    if is_of(AnnotationKind::InheritableMustCall, annotation)
        || is_of(AnnotationKind::MustCall, annotation)
        || is_of(AnnotationKind::CalledMethods, annotation)
    {
        texts_at(annotation, "value")
    } else if is_of(AnnotationKind::EnsuresCalledMethods, annotation)
        || is_of(AnnotationKind::EnsuresCalledMethodsOnException, annotation)
    {
        texts_at(annotation, "methods")
    } else {
        &[]
    }
}
