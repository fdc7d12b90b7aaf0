//! The forms that the arguments of annotations have.

ghost use Rattle.std.specs.Prelude.{◌≡◌, IfOk, map};
ghost use Rattle.java_syntax.specs.AnnotationTrees.{anno_value_of, argument_of};
ghost use Rattle.java_annotations.specs.Forms.{argument_form, form_of, form_of_list, form_of_text, key_of, key_text};

use crate::values::{are_texts, text_of_expression};
use annotation_kinds::is_position;
use java_syntax::{AnnoArgument, AnnoValue, Name};
use rlc_base::{NoMemory, Text};
use std::alloc::Global;

/// The key of an annotation's argument (JLS 9.7.1).
#[derive(Clone, Copy)]
pub enum Key {
    /// `value`, which stands for a key that is not written.
    Value,
    /// `methods`.
    Methods,
    /// Another name.
    Other,
}

/// The form of an annotation's value (JLS 9.7.1).
#[derive(Clone, Copy)]
pub enum Form {
    /// A text that names a position of a signature.
    Position,
    /// Another text.
    Text,
    /// Texts in braces, or none.
    Texts,
    /// What is none of these.
    Other,
}

/// The form of an annotation's argument.
#[derive(Clone, Copy)]
pub struct ArgumentForm {
    pub key: Key,
    pub form: Form,
}

/// The key of an argument; `value` where none is written (JLS 9.7.3).
pub fn key_text(key: &Option<Name>) -> &[u8]
    ensures { result.now ≡ key_text key.now }
{
    match key {
        None => b"value",
        Some(name) => name.text.bytes(),
    }
}

fn key_of(text: &[u8]) -> Key
    ensures { result ≡ key_of text.now }
{
    if text == b"value".as_slice() {
        Key::Value
    } else if text == b"methods".as_slice() {
        Key::Methods
    } else {
        Key::Other
    }
}

fn form_of_text(text: &Option<Text>) -> Form
    ensures { result ≡ form_of_text text.now }
{
    match text {
        None => Form::Other,
        Some(text) => {
            if is_position(text.bytes()) {
                Form::Position
            } else {
                Form::Text
            }
        }
    }
}

fn form_of_list(alloc: Global, values: &[AnnoValue]) -> Result<Form, NoMemory>
    ensures { IfOk result (λ form. form ≡ form_of_list (map anno_value_of values.now)) }
{
    if are_texts(alloc, values)? {
        Ok(Form::Texts)
    } else {
        Ok(Form::Other)
    }
}

fn form_of(alloc: Global, value: &AnnoValue) -> Result<Form, NoMemory>
    ensures { IfOk result (λ form. form ≡ form_of (anno_value_of value.now)) }
{
    match value {
        AnnoValue::Expression(e) => {
            let text = text_of_expression(alloc, e)?;
            Ok(form_of_text(&text))
        }
        AnnoValue::Annotation(_) => Ok(Form::Other),
        AnnoValue::List { values, .. } => form_of_list(alloc, values),
    }
}

fn argument_form(alloc: Global, argument: &AnnoArgument) -> Result<ArgumentForm, NoMemory>
    ensures { IfOk result (λ form. form ≡ argument_form (argument_of argument.now)) }
{
    let form = form_of(alloc, &argument.value)?;
    Ok(ArgumentForm {
        key: key_of(key_text(&argument.key)),
        form,
    })
}

/// The forms of the arguments of an annotation.
pub fn argument_forms(
    alloc: Global,
    arguments: &[AnnoArgument],
) -> Result<Vec<ArgumentForm>, NoMemory>
    ensures { IfOk result (λ found. found.items ≡ map (λ a. argument_form (argument_of a)) arguments.now) }
{
    let mut found = Vec::new(alloc);
    'each: for argument in arguments {
        found.push(argument_form(alloc, argument)?)?;
    }
    Ok(found)
}
