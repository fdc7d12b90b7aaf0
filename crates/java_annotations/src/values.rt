//! The texts that stand in the values of annotations.

ghost use Rattle.std.specs.Prelude.{◌≡◌, ◌++◌, IfOk, OnOk, map};
ghost use Rattle.java_syntax.specs.AnnotationTrees.{anno_value_of};
ghost use Rattle.java_syntax.specs.ExpressionTrees.{expr_of};
ghost use Rattle.program_model.specs.Lookups.{optional};
ghost use Rattle.java_annotations.specs.Forms.{are_texts, text_of, text_of_expression, texts_among, texts_of};

use java_literals::text_value;
use java_syntax::{AnnoValue, Expr};
use rlc_base::{NoMemory, Text};
use std::alloc::Global;

/// The text of a string literal; none of another expression.
pub fn text_of_expression(alloc: Global, e: &Expr) -> Result<Option<Text>, NoMemory>
    ensures { IfOk result (λ text. text ≡ text_of_expression (expr_of e.now)) }
{
    match e {
        Expr::Literal { text, .. } => text_value(alloc, text.bytes()),
        _other => Ok(None),
    }
}

// The text that a value is.
fn text_of(alloc: Global, value: &AnnoValue) -> Result<Option<Text>, NoMemory>
    ensures { IfOk result (λ text. text ≡ text_of (anno_value_of value.now)) }
{
    match value {
        AnnoValue::Expression(e) => text_of_expression(alloc, e),
        AnnoValue::Annotation(_) | AnnoValue::List { .. } => Ok(None),
    }
}

/// Whether all values are texts.
pub fn are_texts(alloc: Global, values: &[AnnoValue]) -> Result<bool, NoMemory>
    ensures { IfOk result (λ yes. yes ≡ are_texts (map anno_value_of values.now)) }
{
    'each: for value in values {
        let text = text_of(alloc, value)?;
        if text.is_none() {
            return Ok(false);
        }
    }
    Ok(true)
}

// A text, where there is one.
fn optional_text(alloc: Global, text: Option<Text>) -> Result<Vec<Text>, NoMemory>
    ensures { IfOk result (λ found. found.items ≡ optional text) }
{
    let mut found = Vec::new(alloc);
    if let Some(text) = text {
        found.push(text)?;
    }
    Ok(found)
}

// Puts the text of a value at the end, where it is one.
fn push_text(alloc: Global, found: &mut Vec<Text>, value: &AnnoValue) -> Result<(), NoMemory>
    ensures { OnOk result (found.new.items ≡ found.old.items ++ optional (text_of (anno_value_of value.now))) }
{
    if let Some(text) = text_of(alloc, value)? {
        found.push(text)?;
    }
    Ok(())
}

// The texts among values.
fn texts_among(alloc: Global, values: &[AnnoValue]) -> Result<Vec<Text>, NoMemory>
    ensures { IfOk result (λ found. found.items ≡ texts_among (map anno_value_of values.now)) }
{
    let mut found = Vec::new(alloc);
    'each: for value in values {
        push_text(alloc, &mut found, value)?;
    }
    Ok(found)
}

/// The texts of a value: the one that it is, or those that stand in its braces.
pub fn texts_of(alloc: Global, value: &AnnoValue) -> Result<Vec<Text>, NoMemory>
    ensures { IfOk result (λ found. found.items ≡ texts_of (anno_value_of value.now)) }
{
    match value {
        AnnoValue::Expression(e) => optional_text(alloc, text_of_expression(alloc, e)?),
        AnnoValue::Annotation(_) => Ok(Vec::new(alloc)),
        AnnoValue::List { values, .. } => texts_among(alloc, values),
    }
}
