//! The modes of facts. Each law is the contract of a function that does nothing.

ghost use Rattle.std.specs.Prelude.{◌≡◌, ℕ, true, false, Some, List, slice_get};
ghost use Rattle.program_model.specs.declared.kinds.BodyId.{BodyId};
ghost use Rattle.program_model.specs.declared.program.Method.{Method};
ghost use Rattle.program_model.specs.declared.program.Program.{Program};
ghost use Rattle.program_model.specs.declared.tree.Body.{Body};
ghost use Rattle.program_model.specs.Lookups.{body_at, method_at};
ghost use Rattle.java_control.specs.Calls.{is_reset_of_this};
ghost use Rattle.java_control.specs.Remaining.{Todo};
ghost use Rattle.control_actions.specs.declared.action.Action.{Action};
ghost use Rattle.control_actions.specs.declared.fact.Fact.{Fact};
ghost use Rattle.control_actions.specs.declared.fact.Mode.TheVariants as modes;
ghost use Rattle.control_actions.specs.declared.fact.Origin.{Origin};
ghost use Rattle.ownership_rules.specs.Bodies.{is_alias_constructor};
ghost use Rattle.ownership_rules.specs.MustCallSets.{is_heavy_class, must_of};
ghost use Rattle.place_laws.specs.Accept.{Accept};
ghost use Rattle.place_laws.specs.Paths.{Comes, Move, Reach, relation_of};
ghost use Rattle.fact_laws.specs.Anew.{IsInHands, MayBeAnew};
ghost use Rattle.fact_laws.specs.Lending.{may_be_lent};

/// A fact that says that its object is lent is that of the argument, or of `this`, whose obligation the body's method creates anew, or of `this` of a
/// constructor.
pub fn lent_facts_are_those_of_targets()
    ensures { (p : Program) (b : BodyId) (x : Body) (m : Method) → body_at p b ≡ Some x → method_at p x.method ≡ Some m
        → (o : Origin) (k : List Todo) (f : Fact) → Reach p b (relation_of p b) o k f → f.mode ≡ modes.Lent → may_be_lent m o.kind ≡ true }
{}

/// The object whose obligation a call creates anew is in a fact that says that the frame owns it, and its class has an obligation, or in one that says that it is
/// lent, or in one that says that a field of `this` holds it, and its class has an obligation: in a constructor without an aliased argument, or in a method that creates the
/// obligation of `this` anew. (In a constructor with an aliased argument, no call creates that of `this` anew.)
pub fn targets_are_in_hands()
    ensures { (p : Program) → Accept p → (b : BodyId) (x : Body) (m : Method) → body_at p b ≡ Some x → method_at p x.method ≡ Some m
        → (is_alias_constructor p b ≡ true → (c : List Todo) (i : ℕ) (t : Move (List Todo)) → Comes (relation_of p b) c → slice_get ((relation_of p b).next c) i ≡ Some t
        → is_reset_of_this p t.action ≡ false)
        → (o : Origin) (k : List Todo) (f : Fact) → Reach p b (relation_of p b) o k f → (a : Action) (j : ℕ) → MayBeAnew p b o a j f
        → IsInHands p b f.mode (is_heavy_class p o.class) }
{}

/// What the origin of a fact needs in full is all that its class asks for.
pub fn origins_need_all()
    ensures { (p : Program) (b : BodyId) (o : Origin) (k : List Todo) (f : Fact) → Reach p b (relation_of p b) o k f → o.full ≡ must_of p o.class }
{}
