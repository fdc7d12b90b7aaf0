//! Dispatch on objects with owning fields. Each law is the contract of a function that does nothing.

ghost use Rattle.std.specs.Prelude.{◌≡◌, true, Some};
ghost use Rattle.std.specs.FinSet as set;
ghost use Rattle.rlc_base.specs.declared.name_id.NameId.{NameId};
ghost use Rattle.program_model.specs.declared.kinds.MethodId.{MethodId};
ghost use Rattle.program_model.specs.declared.program.Method.{Method};
ghost use Rattle.program_model.specs.declared.program.Program.{Program};
ghost use Rattle.program_model.specs.Lookups.{method_at};
ghost use Rattle.annotation_rules.specs.MustCallSets.{must_of};
ghost use Rattle.agreement.specs.Obligations.{method_named};
ghost use Rattle.agreement.specs.Accept.{Accept};
ghost use Rattle.dispatch_laws.specs.Owners.{RunsOwnMethods};

/// In an accepted program an object with owning fields runs the must-call method that its own class declares, whichever method of this
/// name a call names (JLS 8.4.8.1, 15.12.4.4).
pub fn owners_run_own_methods()
    ensures { (p : Program) → Accept p → RunsOwnMethods p }
{}

/// In an accepted program a must-call method that a class declares is the class's instance method without parameters of that name.
pub fn must_call_method_is_named()
    ensures { (p : Program) → Accept p → (m : MethodId) (d : Method) (i : NameId) → method_at p m ≡ Some d → d.sig.interest ≡ Some i → set.contains (must_of p d.class) i.0 ≡ true
        → method_named p d.class i ≡ Some m }
{}
