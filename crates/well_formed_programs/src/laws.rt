//! Which programs are well formed. The law is the contract of a function that does nothing.

ghost use Rattle.std.specs.Prelude.{◌≡◌, []};
ghost use Rattle.program_model.specs.declared.program.Program.{Program};
ghost use Rattle.program_model.specs.Validity.{HasBodies, IsValid};
ghost use Rattle.must_call_types.specs.AnnotationCases.{annotation_cases};
ghost use Rattle.must_call_types.specs.WellFormed.{IsWellFormed};
ghost use Rattle.must_call_types.specs.Signed.{IsSigned};
ghost use Rattle.signature_rules.specs.RulePasses.{HasNoRuleCase};

/// A valid program with all its bodies is well formed where its annotations are read, none of them is refused, and no rule on its
/// signatures refuses it.
pub fn signed_program_is_well_formed()
    ensures { (typed p : Program) → IsSigned typed p → annotation_cases p ≡ [] → HasNoRuleCase p → IsValid p → HasBodies p → IsWellFormed p }
{}

/// The annotations of a program that are read already say the same once more: its sets, signatures and names are what they say.
pub fn signed_program_is_signed()
    ensures { (typed p : Program) → IsSigned typed p → IsSigned p p }
{}
