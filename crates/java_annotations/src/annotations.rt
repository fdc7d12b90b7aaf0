//! Annotations as the program's table keeps them.

ghost use Rattle.std.specs.Prelude.{◌≡◌, ◌<◌, ◌≤◌, ◌-◌, ◌++◌, IfOk, OnOk, map, if◌then◌else◌, []};
ghost use Rattle.java_syntax.specs.AnnotationTrees.{anno_of};
ghost use Rattle.java_syntax.specs.AnnotationTrees as trees;
ghost use Rattle.java_annotations.specs.Forms.{argument_form, is_shaped};
ghost use Rattle.java_annotations.specs.Annotations.{annotation_in, annotation_of, annotations_of, annotations_of_modifier, argument_in, argument_of, last_identifier};

use crate::forms::{argument_forms, key_text};
use crate::kinds::is_shaped;
use crate::values::texts_of;
use java_syntax::{Anno, AnnoArgument, Modifier};
use program_model::{RawAnno, RawArg};
use rlc_base::{NoMemory, Text};
use std::alloc::Global;

// The last identifier of a name.
fn last_identifier(name: &[u8]) -> &[u8]
    ensures { result.now ≡ last_identifier name.now }
{
    let mut start = name.len();
    'back: while start > 0 && name[start - 1] != b'.' {
        start -= 1;
    }
    &name[start..]
}

// A text of these bytes.
fn text(alloc: Global, bytes: &[u8]) -> Result<Text, NoMemory>
    ensures { IfOk result (λ made. made ≡ bytes.now) }
{
    let copied = bytes.to_vec(alloc)?;
    Ok(Text::from_bytes(copied))
}

// An argument with the texts that stand in it.
fn raw_argument(alloc: Global, argument: &AnnoArgument) -> Result<RawArg, NoMemory>
    ensures { IfOk result (λ made. argument_in made ≡ argument_of (trees.argument_of argument.now)) }
{
    let key = text(alloc, key_text(&argument.key))?;
    match texts_of(alloc, &argument.value) {
        Ok(values) => Ok(RawArg { key, values }),
        Err(error) => Err(error),
    }
}

// The arguments of an annotation with the texts that stand in them.
fn raw_arguments(alloc: Global, arguments: &[AnnoArgument]) -> Result<Vec<RawArg>, NoMemory>
    ensures { IfOk result (λ made. map argument_in made.items ≡ map (λ a. argument_of (trees.argument_of a)) arguments.now) }
{
    let mut made = Vec::new(alloc);
    'each: for argument in arguments {
        made.push(raw_argument(alloc, argument)?)?;
    }
    Ok(made)
}

// The arguments of an annotation, where they have the form that belongs to it.
fn shaped_arguments(
    alloc: Global,
    shaped: bool,
    arguments: &[AnnoArgument],
) -> Result<Vec<RawArg>, NoMemory>
    ensures { IfOk result (λ made. map argument_in made.items ≡ (if shaped then map (λ a. argument_of (trees.argument_of a)) arguments.now else [])) }
{
    if shaped {
        raw_arguments(alloc, arguments)
    } else {
        Ok(Vec::new(alloc))
    }
}

// Whether the arguments of an annotation have the form that belongs to its name.
fn has_form(alloc: Global, name: &[u8], arguments: &[AnnoArgument]) -> Result<bool, NoMemory>
    ensures { IfOk result (λ yes. yes ≡ is_shaped name.now (map (λ a. argument_form (trees.argument_of a)) arguments.now)) }
{
    let forms = argument_forms(alloc, arguments)?;
    Ok(is_shaped(name, &forms))
}

/// An annotation as the program's table keeps it: by the last identifier of its name, with the texts in its arguments where
/// they have the form that belongs to it.
///
/// # Errors
///
/// Memory may run out.
pub fn raw_annotation(alloc: Global, annotation: &Anno) -> Result<RawAnno, NoMemory>
    ensures { IfOk result (λ made. annotation_in made ≡ annotation_of (anno_of annotation.now)) }
{
    let Anno {
        name,
        arguments,
        pos,
    } = annotation;
    let last = last_identifier(name.text.bytes());
    let shaped = has_form(alloc, last, arguments)?;
    let name = text(alloc, last)?;
    match shaped_arguments(alloc, shaped, arguments) {
        Ok(args) => Ok(RawAnno {
            name,
            args,
            shaped,
            pos: *pos,
        }),
        Err(error) => Err(error),
    }
}

// Puts the annotation that a modifier is at the end, where it is one.
fn push_annotation(
    alloc: Global,
    made: &mut Vec<RawAnno>,
    modifier: &Modifier,
) -> Result<(), NoMemory>
    ensures { OnOk result (map annotation_in made.new.items ≡ map annotation_in made.old.items ++ annotations_of_modifier modifier.now) }
{
    if let Modifier::Annotation(annotation) = modifier {
        made.push(raw_annotation(alloc, annotation)?)?;
    }
    Ok(())
}

/// The annotations among these modifiers, in order, as the program's table keeps them.
///
/// # Errors
///
/// Memory may run out.
pub fn raw_annotations(alloc: Global, modifiers: &[Modifier]) -> Result<Vec<RawAnno>, NoMemory>
    ensures { IfOk result (λ made. map annotation_in made.items ≡ annotations_of modifiers.now) }
{
    let mut made = Vec::new(alloc);
    'each: for modifier in modifiers {
        push_annotation(alloc, &mut made, modifier)?;
    }
    Ok(made)
}
