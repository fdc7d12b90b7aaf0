//! The must-call sets that classes say themselves, and whose sets make up that of a class.

ghost use Rattle.std.specs.Prelude.{◌≡◌, length, map, IfOk};
ghost use Rattle.std.specs.List.{list_any};
ghost use Rattle.std.specs.Option.{option_copied, option_map};
ghost use Rattle.class_names.specs.ClassNames.{rows_in};
ghost use Rattle.class_order.specs.Declarations.{declaration_of};
ghost use Rattle.class_headers.specs.SuperTypes.{supers_of};
ghost use Rattle.program_model.specs.declared.program.RawArg.{RawArg};
ghost use Rattle.java_annotations.specs.Annotations.{annotation_in, texts_in};
ghost use Rattle.super_obligations.specs.Obligations.{has_name, has_text, own_set, own_set_by, own_sets, says_name, set_sources, sources_by};

use annotation_kinds::{AnnotationKind, first_of};
use class_headers::Supers;
use class_order::Declared;
use java_annotations::raw_annotations;
use program_model::{ClassId, RawAnno, RawArg};
use rlc_base::NoMemory;
use std::alloc::Global;

// Whether there is a text at an argument.
fn has_value(argument: &RawArg) -> bool
    ensures { result ≡ has_text argument.now.values.items }
{
    match argument.values.first() {
        None => false,
        Some(_) => true,
    }
}

// Whether there is a text at one of the arguments.
fn any_value(arguments: &[RawArg]) -> bool
    ensures { result ≡ list_any (λ (x : RawArg). has_text x.values.items) arguments.now }
{
    arguments.iter().any(|x| has_value(x))
}

// Whether there is a text in an annotation.
fn has_text(annotation: &RawAnno) -> bool
    ensures { result ≡ has_text (texts_in (annotation_in annotation.now)) }
{
    any_value(&annotation.args)
}

// The set that an annotation says, where there is one.
fn own_set_by(annotation: Option<&RawAnno>) -> Option<bool>
    ensures { result ≡ own_set_by (option_map annotation_in (option_copied annotation.entry)) }
{
    match annotation {
        None => None,
        Some(annotation) => Some(has_text(annotation)),
    }
}

// Whether the set that a class says itself has a name, where it says one.
fn own_set(alloc: Global, class: &Declared) -> Result<Option<bool>, NoMemory>
    ensures { IfOk result (λ o. o ≡ own_set (declaration_of class.now)) }
{
    let annotations = raw_annotations(alloc, &class.declaration.modifiers)?;
    Ok(own_set_by(first_of(AnnotationKind::InheritableMustCall, &annotations)))
}

/// The same of all classes, in class order.
pub(crate) fn own_sets(alloc: Global, order: &[Declared]) -> Result<Vec<Option<bool>>, NoMemory>
    ensures { IfOk result (λ v. v.items ≡ own_sets (map declaration_of order.now)) }
{
    let mut owns = Vec::new(alloc);
    for class in order {
        owns.push(own_set(alloc, class)?)?;
    }
    Ok(owns)
}

// The classes whose sets make up that of a class with these super types.
fn sources_by(alloc: Global, own: Option<bool>, supers: &Supers) -> Result<Vec<ClassId>, NoMemory>
    ensures { IfOk result (λ v. v.items ≡ sources_by own (supers_of supers.now)) }
{
    let mut sources = Vec::new(alloc);
    if own.is_none() {
        if let Some(class) = supers.super_class {
            sources.push(class)?;
        }
        sources.extend_from_slice(&supers.interfaces)?;
    }
    Ok(sources)
}

/// The classes whose sets make up that of each class, in class order.
pub(crate) fn set_sources(
    alloc: Global,
    owns: &[Option<bool>],
    supers: &[Supers],
) -> Result<Vec<Vec<ClassId>>, NoMemory>
    requires { length owns.now ≡ length supers.now }
    ensures { IfOk result (λ v. rows_in v.items ≡ set_sources owns.now (map supers_of supers.now)) }
{
    let mut all = Vec::new(alloc);
    for number in 0..owns.len() {
        all.push(sources_by(alloc, owns[number], &supers[number])?)?;
    }
    Ok(all)
}

fn has_name(own: Option<bool>) -> bool
    ensures { result ≡ has_name own }
{
    match own {
        None => false,
        Some(found) => found,
    }
}

/// Whether a class says a set of its own that has a name.
pub(crate) fn says_name(owns: &[Option<bool>], class: ClassId) -> bool
    ensures { result ≡ says_name owns.now class }
{
    match owns.get(class.0 as usize) {
        None => false,
        Some(own) => has_name(*own),
    }
}
