//! The parameters of methods and constructors (JLS 8.4.1), which are the first variables of their bodies.

ghost use Rattle.std.specs.Prelude.{◌≡◌, ◌++◌, ◌∷◌, [], length, IfOk, OnOk};
ghost use Rattle.java_statement_rules.specs.DeclaredVariables.{double_cases};
ghost use Rattle.source_classes.specs.Parameters.{parameter, parameters, parameters_cases};

use java_statement_rules::{count_double, has_final, local_variable};
use java_syntax::Param;
use java_typed_trees::Local;
use program_model::ParamSig;
use rlc_base::{NoMemory, Refusal};
use std::alloc::Global;

// A parameter of this type, as the variable of the body with this number.
fn parameter(number: usize, written: &Param, signature: &ParamSig) -> Result<Local, NoMemory>
    ensures { IfOk result (λ x. x ≡ parameter number written.now signature.now) }
{
    let Ok(number) = u32::try_from(number) else {
        return Err(NoMemory);
    };
    let is_final = has_final(&written.modifiers);
    local_variable(
        number,
        &written.name.text,
        Some(signature.vtype),
        is_final,
        None,
    )
}

// Puts one parameter more at the end, and counts the refusal of one whose name is there already.
fn declare(
    locals: &mut Vec<Local>,
    refusals: &mut Vec<Refusal>,
    written: &Param,
    signature: &ParamSig,
) -> Result<(), NoMemory>
    ensures local { OnOk result (locals.new.items ≡ locals.old.items ++ parameter (length locals.old.items) written.now signature.now ∷ []) }
    ensures cases { OnOk result (refusals.new.items ≡ refusals.old.items ++ double_cases written.now.name.pos locals.old.items written.now.name.text) }
{
    let name = &written.name;
    count_double(name.pos, locals, &name.text, refusals)?;
    let next = parameter(locals.len(), written, signature)?;
    locals.push(next)?;
    Ok(())
}

/// The parameters with these types, as the variables that are in scope where a body begins. A parameter of a name that one
/// before it has is refused, at its name (JLS 6.4): its refusal comes behind those that are counted already.
///
/// # Errors
///
/// Where memory runs out, for which more parameters than there are numbers of variables, 2 ^ 32, count too.
pub fn parameters(
    alloc: Global,
    written: &[Param],
    signatures: &[ParamSig],
    refusals: &mut Vec<Refusal>,
) -> Result<Vec<Local>, NoMemory>
    ensures locals { IfOk result (λ v. v.items ≡ parameters written.now signatures.now) }
    ensures cases { OnOk result (refusals.new.items ≡ refusals.old.items ++ parameters_cases written.now signatures.now) }
{
    let mut locals = Vec::new(alloc);
    for i in 0..written.len().min(signatures.len()) {
        declare(&mut locals, refusals, &written[i], &signatures[i])?;
    }
    Ok(locals)
}
