//! Sets of names from the texts of annotations.

ghost use Rattle.std.specs.Prelude.{◌≡◌, ◌<◌};
ghost use Rattle.std.specs.Option.{option_copied};
ghost use Rattle.effective_signatures.specs.Effective.{called_before, first_set, number_in};
ghost use Rattle.effective_signatures.specs.Sets.{numbers_of, own_or, own_set, value_set, with_number};

use annotation_kinds::{AnnotationKind, first_of, texts_at};
use program_model::{Method, RawAnno};
use rlc_base::{NameId, NameSet, Names, Text};

/// The number of the name, where the table holds it.
pub fn number_in(names: &Names, name: &[u8]) -> Option<NameId>
    ensures { result ≡ number_in names.now name.now }
{
    names.find(name)
}

// The set with the number of the name, where the table holds it.
fn with_number(names: &Names, set: NameSet, name: &Text) -> NameSet
    ensures { result ≡ with_number names.now set name.now }
{
    match names.find(name.bytes()) {
        None => set,
        Some(number) => set.insert(number),
    }
}

/// The numbers that the table has for these names.
pub fn numbers_of(names: &Names, texts: &[Text]) -> NameSet
    ensures { result ≡ numbers_of names.now texts.now }
{
    let mut set = NameSet::empty();
    for text in texts {
        set = with_number(names, set, text);
    }
    set
}

// The set that an annotation lists as its value.
fn value_set(names: &Names, annotation: Option<&RawAnno>) -> Option<NameSet>
    ensures { result ≡ value_set names.now (option_copied annotation.entry) }
{
    match annotation {
        None => None,
        Some(annotation) => Some(numbers_of(names, texts_at(annotation, "value"))),
    }
}

/// The set of a class's own `@InheritableMustCall`.
pub fn own_set(names: &Names, annotations: &[RawAnno]) -> Option<NameSet>
    ensures { result ≡ own_set names.now annotations.now }
{
    value_set(
        names,
        first_of(AnnotationKind::InheritableMustCall, annotations),
    )
}

/// The set that bounds a fresh result, where `@MustCall` stands on the method or constructor.
pub fn first_set(names: &Names, method: &Method) -> Option<NameSet>
    ensures { result ≡ first_set names.now method.now }
{
    value_set(names, first_of(AnnotationKind::MustCall, &method.annos))
}

/// A set, or another where there is none.
pub fn own_or(own: Option<NameSet>, inherited: NameSet) -> NameSet
    ensures { result ≡ own_or own inherited }
{
    match own {
        None => inherited,
        Some(own) => own,
    }
}

/// The methods that must have been called before on a parameter with these annotations.
pub fn called_before(names: &Names, annotations: &[RawAnno]) -> NameSet
    ensures { result ≡ called_before names.now annotations.now }
{
    own_or(
        value_set(names, first_of(AnnotationKind::CalledMethods, annotations)),
        NameSet::empty(),
    )
}
