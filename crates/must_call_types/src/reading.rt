//! Reading the annotations of a program into its sets, signatures and table of names.

ghost use Rattle.std.specs.Prelude.{◌≡◌, ◌-◌, ◌<◌, ◌^◌, [], All, length, IfErr, OnOk};
ghost use Rattle.std.specs.List.{AllZip};
ghost use Rattle.annotation_rules.specs.AnnotationCases.{annotation_cases};
ghost use Rattle.program_model.specs.Hierarchy.{IsHierarchy};
ghost use Rattle.program_model.specs.Validity.{HasBodies, IsValid};
ghost use Rattle.must_call_types.specs.NameTable.{IsNameStop};
ghost use Rattle.effective_signatures.specs.SignedMethods.{IsSignedMethod};
ghost use Rattle.must_call_types.specs.Signed.{IsSignatureStop, IsSigned};

use crate::inheritance::{put_own_sets, settle};
use crate::names::name_table;
use annotation_rules::annotation_rule;
use effective_signatures::sign;
use program_model::{Class, Field, Method, Program};
use rlc_base::{Names, NoMemory, Stop};
use std::alloc::Global;

// Gives each method its effective signature.
fn sign_methods(
    alloc: Global,
    names: &Names,
    fields: &[Field],
    classes: &[Class],
    methods: &mut [Method],
) -> Result<(), NoMemory>
    requires { All (λ m. length m.sig.params.items < 2 ^ 32 - 1) methods.old }
    ensures { OnOk result (AllZip (IsSignedMethod names.now fields.now classes.now) methods.old methods.new) }
{
    for method in methods.iter_mut() {
        sign(alloc, names, fields, classes, method)?;
    }
    Ok(())
}

// Fills the sets, the signatures and the table of names.
fn sign_program(alloc: Global, p: &mut Program) -> Result<(), Stop>
    requires hierarchy { IsHierarchy p.old }
    requires parameters { All (λ m. length m.sig.params.items < 2 ^ 32 - 1) p.old.methods.items }
    ensures signed { OnOk result (IsSigned p.old p.new) }
    ensures kept { OnOk result (All (λ m. length m.sig.params.items < 2 ^ 32 - 1) p.new.methods.items) }
    ensures stopped { IfErr result (IsNameStop p.old) }
{
    let names = name_table(alloc, p)?;
    p.names = names;
    sign_methods(alloc, &p.names, &p.fields, &p.classes, &mut p.methods)?;
    put_own_sets(&p.names, &mut p.classes);
    settle(&mut p.classes);
    Ok(())
}

/// Reads the annotations of a program: gives its classes their must-call sets and its methods their effective signatures, and
/// makes its table of names. A valid program stays valid. After an error the program is only dropped.
///
/// # Errors
///
/// `TooMuch` with `TooManyNames` where the annotations of classes, members and parameters list more than 128 names: at the
/// annotation that brings the 129th in the order of files and places. Else `Refused` as by `annotation_rule`. Memory may run out.
pub fn read_signatures(alloc: Global, p: &mut Program) -> Result<(), Stop>
    requires hierarchy { IsHierarchy p.old }
    requires parameters { All (λ m. length m.sig.params.items < 2 ^ 32 - 1) p.old.methods.items }
    ensures signed { OnOk result (IsSigned p.old p.new) }
    ensures right { OnOk result (annotation_cases p.new ≡ []) }
    ensures valid { OnOk result (IsValid p.old → IsValid p.new) }
    ensures bodies { OnOk result (HasBodies p.old → HasBodies p.new) }
    ensures stopped { IfErr result (IsSignatureStop p.old p.new) }
{
    sign_program(alloc, p)?;
    match annotation_rule(p) {
        Ok(()) => Ok(()),
        Err(refusal) => Err(Stop::Refused(refusal)),
    }
}
