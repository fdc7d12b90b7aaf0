//! The forms that belong to the kinds of annotations.

ghost use Rattle.std.specs.Prelude.{◌≡◌};
ghost use Rattle.java_annotations.specs.Forms.{form_at_methods, form_at_value, has_form, has_methods, has_no_argument, has_value, is_list, is_promise, is_shaped, is_text_or_list, names_position, only_value};

use crate::forms::{ArgumentForm, Form, Key};
use annotation_kinds::{AnnotationKind, kind_named};

fn is_list(form: Form) -> bool
    ensures { result ≡ is_list form }
{
    match form {
        Form::Texts => true,
        Form::Position | Form::Text | Form::Other => false,
    }
}

fn is_text_or_list(form: Form) -> bool
    ensures { result ≡ is_text_or_list form }
{
    match form {
        Form::Position | Form::Text | Form::Texts => true,
        Form::Other => false,
    }
}

fn names_position(form: Form) -> bool
    ensures { result ≡ names_position form }
{
    match form {
        Form::Position => true,
        Form::Text | Form::Texts | Form::Other => false,
    }
}

fn form_at_value(argument: ArgumentForm) -> Form
    ensures { result ≡ form_at_value argument.key argument.form }
{
    match argument.key {
        Key::Value => argument.form,
        Key::Methods | Key::Other => Form::Other,
    }
}

fn form_at_methods(argument: ArgumentForm) -> Form
    ensures { result ≡ form_at_methods argument.key argument.form }
{
    match argument.key {
        Key::Methods => argument.form,
        Key::Value | Key::Other => Form::Other,
    }
}

fn has_value(argument: ArgumentForm) -> bool
    ensures { result ≡ has_value argument }
{
    is_text_or_list(form_at_value(argument))
}

fn has_methods(argument: ArgumentForm) -> bool
    ensures { result ≡ has_methods argument }
{
    is_text_or_list(form_at_methods(argument))
}

fn has_no_argument(arguments: &[ArgumentForm]) -> bool
    ensures { result ≡ has_no_argument arguments.now }
{
    arguments.is_empty()
}

// The form of a `value` that stands alone.
fn only_value(arguments: &[ArgumentForm]) -> Form
    ensures { result ≡ only_value arguments.now }
{
    match arguments {
        [only] => form_at_value(*only),
        _ => Form::Other,
    }
}

// Whether these are `value` and `methods`, each once.
fn is_promise(arguments: &[ArgumentForm]) -> bool
    ensures { result ≡ is_promise arguments.now }
{
    match arguments {
        [a, b] => (has_value(*a) && has_methods(*b)) || (has_methods(*a) && has_value(*b)),
        _ => false,
    }
}

// Whether the arguments have the form that belongs to the kind.
fn has_form(kind: AnnotationKind, arguments: &[ArgumentForm]) -> bool
    ensures { result ≡ has_form kind arguments.now }
{
    match kind {
        AnnotationKind::InheritableMustCall | AnnotationKind::CalledMethods => {
            is_text_or_list(only_value(arguments))
        }
        AnnotationKind::MustCall => is_list(only_value(arguments)),
        AnnotationKind::Owning | AnnotationKind::NotOwning | AnnotationKind::MustCallAlias => {
            has_no_argument(arguments)
        }
        AnnotationKind::CreatesMustCallFor => {
            has_no_argument(arguments) || names_position(only_value(arguments))
        }
        AnnotationKind::EnsuresCalledMethods | AnnotationKind::EnsuresCalledMethodsOnException =>
            is_promise(arguments),
    }
}

/// Whether the arguments have the form that belongs to an annotation of this name. Under a name that is not read every
/// argument has.
pub fn is_shaped(name: &[u8], arguments: &[ArgumentForm]) -> bool
    ensures { result ≡ is_shaped name.now arguments.now }
{
    match kind_named(name) {
        None => true,
        Some(kind) => has_form(kind, arguments),
    }
}
