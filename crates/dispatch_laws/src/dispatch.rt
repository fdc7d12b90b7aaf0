//! Calls in accepted programs. Each law is the contract of a function that does nothing.

ghost use Rattle.std.specs.Prelude.{◌≡◌, ◌⊎◌, false, Some};
ghost use Rattle.program_model.specs.declared.kinds.MethodId.{MethodId};
ghost use Rattle.program_model.specs.declared.program.Method.{Method};
ghost use Rattle.program_model.specs.declared.program.Program.{Program};
ghost use Rattle.program_model.specs.Lookups.{method_at};
ghost use Rattle.program_model.specs.Overrides.{is_library};
ghost use Rattle.agreement.specs.AcceptedProgramsConditions.{HasWholeLibrary};
ghost use Rattle.agreement.specs.Accept.{Accept};
ghost use Rattle.dispatch_laws.specs.Dispatch.{IsOverriding};
ghost use Rattle.agreement.specs.PlainForms.{IsPlainCall, MayRun};
ghost use Rattle.dispatch_laws.specs.PlainCalls.{FieldsPromisedAlone};

/// A method of the program that may run at a call is the named one, or overrides it (JLS 8.4.8.1, 15.12.4.4).
pub fn named_or_overriding_method_runs()
    ensures { (p : Program) → Accept p → HasWholeLibrary p → (m r : MethodId) (n x : Method) → MayRun p m r → method_at p m ≡ Some n → method_at p r ≡ Some x → is_library p x.class ≡ false
        → (r ≡ m) ⊎ IsOverriding p x n }
{}

/// In an accepted program a call is a plain one: what the signature that it names says of the parameters, of the result and of what is promised, holds of
/// whatever may run. (A class with a method that promises on a field has none under it but itself.)
pub fn call_is_plain()
    ensures { (p : Program) → Accept p → HasWholeLibrary p → FieldsPromisedAlone p → (m : MethodId) → IsPlainCall p m }
{}
