//! The annotations of a typed program, and the rules on its signatures.

ghost use Rattle.std.specs.Prelude.{All, IfErr, IfOk, OnOk};
ghost use Rattle.program_model.specs.Validity.{HasBodies, IsNumbered, IsValid};
ghost use Rattle.must_call_types.specs.WellFormed.{HasSmallInterests, IsWellFormed};
ghost use Rattle.class_table.specs.Methods.{HasFewParameters};
ghost use Rattle.signature_rules.specs.RulePasses.{HasNoRuleCase};
ghost use Rattle.signed_programs.specs.SignedPrograms.{IsAnnotated, IsRuleStop, IsSigningStop};

use must_call_types::read_signatures;
use program_model::Program;
use rlc_base::Stop;
use signature_rules::rule_refusal;
use std::alloc::Global;

// The rules on signatures.
fn check_rules(p: &Program) -> Result<(), Stop>
    requires { IsNumbered p.now }
    ensures right { OnOk result (HasNoRuleCase p.now) }
    ensures stopped { IfErr result (IsRuleStop p.now) }
{
    match rule_refusal(p) {
        Ok(()) => Ok(()),
        Err(refusal) => Err(Stop::Refused(refusal)),
    }
}

/// The program with the sets and signatures that its annotations say.
///
/// # Errors
///
/// As by `read_signatures`, and else as by `rule_refusal`.
pub fn signed(alloc: Global, typed: Program) -> Result<Program, Stop>
    requires valid { IsValid typed }
    requires bodies { HasBodies typed }
    requires parameters { All HasFewParameters typed.methods.items }
    ensures annotated { IfOk result (IsAnnotated typed) }
    ensures right { IfOk result HasNoRuleCase }
    ensures well_formed { IfOk result IsWellFormed }
    ensures parameters { IfOk result (λ p. All HasFewParameters p.methods.items) }
    ensures interests { IfOk result HasSmallInterests }
    ensures stopped { IfErr result (IsSigningStop typed) }
{
    let mut program = typed;
    read_signatures(alloc, &mut program)?;
    check_rules(&program)?;
    Ok(program)
}
