//! The methods, constructors and constants of the table.

ghost use Rattle.std.specs.Prelude.{◌≡◌, All, IfOk, map};
ghost use Rattle.std.specs.List.{AllZip};
ghost use Rattle.class_names.specs.Meanings.{unit_of};
ghost use Rattle.class_declarations.specs.Members.{written_method_of, written_of};
ghost use Rattle.table_members.specs.Methods.{HasFewParameters, IsKnownHead, IsMethod};

use crate::signatures::signature;
use class_declarations::DeclaredMethod;
use class_names::ClassNames;
use class_order::{has_final, has_private};
use java_annotations::raw_annotations;
use program_model::Method;
use rlc_base::{NoMemory, Text};
use std::alloc::Global;

// A text of these bytes.
fn text(alloc: Global, bytes: &[u8]) -> Result<Text, NoMemory>
    ensures { IfOk result (λ made. made ≡ bytes.now) }
{
    let copied = bytes.to_vec(alloc)?;
    Ok(Text::from_bytes(copied))
}

// What the table has of a method, constructor or constant.
fn table_method(
    alloc: Global,
    names: &ClassNames,
    written: &DeclaredMethod,
) -> Result<Method, NoMemory>
    requires { IsKnownHead names.now (unit_of written.now.declared.scope) (written_of written.now.tree) }
    ensures method { IfOk result (λ m. IsMethod names.now (written_method_of written.now) m) }
    ensures parameters { IfOk result HasFewParameters }
{
    let name = text(alloc, written.tree.name())?;
    let annos = raw_annotations(alloc, written.tree.modifiers())?;
    match signature(
        alloc,
        names,
        &written.declared.scope,
        written.class,
        &written.tree,
    ) {
        Ok(sig) => Ok(Method {
            class: written.class,
            name,
            sig,
            kind: written.tree.kind(),
            is_private: has_private(written.tree.modifiers()),
            is_final: has_final(written.tree.modifiers()),
            is_abstract: written.tree.is_abstract_in(&written.declared),
            body: None,
            annos,
            pos: written.tree.pos(),
        }),
        Err(error) => Err(error),
    }
}

/// The methods, constructors and constants of the table, by what is written of them in the same order, where each name in
/// their heads means a class.
///
/// # Errors
///
/// Memory may run out. 2^32 - 1 parameters of one method and more count as that.
pub fn table_methods(
    alloc: Global,
    names: &ClassNames,
    written: &[DeclaredMethod],
) -> Result<Vec<Method>, NoMemory>
    requires { All (λ w. IsKnownHead names.now w.declaration.unit w.written) (map written_method_of written.now) }
    ensures methods { IfOk result (λ v. AllZip (IsMethod names.now) (map written_method_of written.now) v.items) }
    ensures parameters { IfOk result (λ v. All HasFewParameters v.items) }
{
    let mut methods = Vec::new(alloc);
    'each: for method in written {
        methods.push(table_method(alloc, names, method)?)?;
    }
    Ok(methods)
}
