//! Dispatch and the rules on overriding. Each law is the contract of a function that does nothing.

ghost use Rattle.std.specs.Prelude.{◌≡◌, ◌⊎◌, true, false, Some, []};
ghost use Rattle.program_model.specs.declared.kinds.ClassId.{ClassId};
ghost use Rattle.program_model.specs.declared.kinds.MethodId.{MethodId};
ghost use Rattle.program_model.specs.declared.program.Method.{Method};
ghost use Rattle.program_model.specs.declared.program.Program.{Program};
ghost use Rattle.program_model.specs.Hierarchy.{IsHierarchy};
ghost use Rattle.program_model.specs.Lookups.{method_at};
ghost use Rattle.program_model.specs.Overrides.{is_abstract, is_library};
ghost use Rattle.program_model.specs.Validity.{IsTypedProgram};
ghost use Rattle.agreement.specs.Cases.{class_cases};
ghost use Rattle.annotation_rules.specs.WellFormed.{IsWellFormed};
ghost use Rattle.agreement.specs.LedgerCallsCalls.{overriding_in};
ghost use Rattle.agreement.specs.AcceptedProgramsConditions.{DeclaresOnce, HasWholeLibrary};
ghost use Rattle.dispatch_laws.specs.Dispatch.{IsOverriding, IsRightOverriding, KeepsSignature};

/// The method that an object of a class that is not abstract runs is the named one, or overrides it: the rules on overriding have
/// compared the two (JLS 8.4.8.1, 15.12.4.4).
pub fn running_method_overrides()
    ensures { (p : Program) → IsTypedProgram p → ((d : ClassId) → class_cases p d ≡ []) → DeclaresOnce p
        → (named : MethodId) (n x : Method) (c : ClassId) → method_at p named ≡ Some n → is_abstract p c ≡ false → method_at p (overriding_in p named (Some n) c) ≡ Some x
        → (overriding_in p named (Some n) c ≡ named) ⊎ IsOverriding p x n }
{}

/// In an accepted program each method may override those that it overrides.
pub fn overriding_is_right()
    ensures { (p : Program) → IsWellFormed p → ((d : ClassId) → class_cases p d ≡ []) → (x n : Method) → IsOverriding p x n → IsRightOverriding p x n }
{}

/// A method keeps its own signature.
pub fn method_keeps_own_signature()
    ensures { (p : Program) → IsHierarchy p → (n : Method) → KeepsSignature p n n }
{}

/// What a caller is told by the signature that a call names holds of the method that an object of a class that is not abstract runs.
pub fn running_method_keeps_signature()
    ensures { (p : Program) → IsWellFormed p → ((d : ClassId) → class_cases p d ≡ []) → DeclaresOnce p
        → (named : MethodId) (n x : Method) (c : ClassId) → method_at p named ≡ Some n → is_abstract p c ≡ false → method_at p (overriding_in p named (Some n) c) ≡ Some x
        → KeepsSignature p x n }
{}

/// An object of a class of the library, which may be abstract, runs a method of the library, or the named one.
pub fn library_object_runs_library_method()
    ensures { (p : Program) → IsTypedProgram p → HasWholeLibrary p
        → (named : MethodId) (n x : Method) (c : ClassId) → method_at p named ≡ Some n → is_library p c ≡ true → method_at p (overriding_in p named (Some n) c) ≡ Some x
        → (overriding_in p named (Some n) c ≡ named) ⊎ (is_library p x.class ≡ true) }
{}
