//! Of which origin the facts at parameters and at `this` are. Each law is the contract of a function that does nothing.

ghost use Rattle.std.specs.Prelude.{◌≡◌, ◌+◌, ℕ, suc, true, false, Some, List, slice_get};
ghost use Rattle.program_model.specs.declared.kinds.BodyId.{BodyId};
ghost use Rattle.program_model.specs.declared.kinds.VType.TheVariants as types;
ghost use Rattle.program_model.specs.declared.program.Method.{Method};
ghost use Rattle.program_model.specs.declared.program.ParamSig.{ParamSig};
ghost use Rattle.program_model.specs.declared.program.Program.{Program};
ghost use Rattle.program_model.specs.declared.tree.Body.{Body};
ghost use Rattle.program_model.specs.Lookups.{body_at, method_at};
ghost use Rattle.ownership_rules.specs.Assigned.{is_spoken_variable};
ghost use Rattle.ownership_rules.specs.Bodies.{alias_position, is_alias_constructor};
ghost use Rattle.java_control.specs.Calls.{is_reset_of_this};
ghost use Rattle.java_control.specs.Remaining.{Todo};
ghost use Rattle.control_actions.specs.declared.fact.Fact.{Fact};
ghost use Rattle.control_actions.specs.declared.fact.Mode.TheVariants as modes;
ghost use Rattle.control_actions.specs.declared.fact.Origin.{Origin};
ghost use Rattle.control_actions.specs.declared.fact.OriginKind.TheVariants as kinds;
ghost use Rattle.control_actions.specs.declared.place.Place.TheVariants as places;
ghost use Rattle.ownership_rules.specs.Facts.{has, is_origin_at};
ghost use Rattle.place_laws.specs.Paths.{Comes, Move, Reach, relation_of};
ghost use Rattle.place_laws.specs.Accept.{Accept};

/// A fact that a path brings to a control, and that holds in a parameter of which the signature of the body's method speaks, is that of the
/// parameter.
pub fn spoken_parameters_have_their_own_facts()
    ensures { (p : Program) → Accept p → (b : BodyId) (x : Body) (m : Method) (v : ℕ) → body_at p b ≡ Some x → method_at p x.method ≡ Some m → is_spoken_variable m v ≡ true
        → (o : Origin) (k : List Todo) (f : Fact) → Reach p b (relation_of p b) o k f → has f.places (places.Var v) ≡ true → is_origin_at o.kind (Some (v + 1)) ≡ true }
{}

/// A fact that a path brings to a control, and that holds in `this`, is that of `this`.
pub fn this_has_its_own_fact()
    ensures { (p : Program) → Accept p → (b : BodyId) (x : Body) → body_at p b ≡ Some x
        → (o : Origin) (k : List Todo) (f : Fact) → Reach p b (relation_of p b) o k f → has f.places places.This ≡ true → is_origin_at o.kind (Some 0) ≡ true }
{}

/// A fact that a path brings to a control, and that is in mode Alias, is that of the aliased parameter, and holds in it.
pub fn alias_facts_hold_in_their_parameter()
    ensures parameter { (p : Program) → Accept p → (b : BodyId) (x : Body) (m : Method) (v : ℕ) → body_at p b ≡ Some x → method_at p x.method ≡ Some m → m.sig.alias ≡ Some (suc v)
        → (o : Origin) (k : List Todo) (f : Fact) → Reach p b (relation_of p b) o k f → f.mode ≡ modes.Alias → has f.places (places.Var v) ≡ true }
    ensures this { (p : Program) → Accept p → (b : BodyId) (x : Body) (m : Method) → body_at p b ≡ Some x → method_at p x.method ≡ Some m → m.sig.alias ≡ Some 0
        → (o : Origin) (k : List Todo) (f : Fact) → Reach p b (relation_of p b) o k f → f.mode ≡ modes.Alias → has f.places places.This ≡ true }
{}

/// A fact of a parameter is of the class of the parameter's type, and one of `this` of the class that declares the method.
pub fn parameter_facts_have_declared_classes()
    ensures parameter { (p : Program) → Accept p → (b : BodyId) (x : Body) (m : Method) (v : ℕ) (q : ParamSig) → body_at p b ≡ Some x → method_at p x.method ≡ Some m → slice_get m.sig.params.items v ≡ Some q
        → (o : Origin) (k : List Todo) (f : Fact) → Reach p b (relation_of p b) o k f → o.kind ≡ kinds.Param v → q.vtype ≡ types.Obj o.class }
    ensures this { (p : Program) → Accept p → (b : BodyId) (x : Body) (m : Method) → body_at p b ≡ Some x → method_at p x.method ≡ Some m
        → (o : Origin) (k : List Todo) (f : Fact) → Reach p b (relation_of p b) o k f → o.kind ≡ kinds.ThisRef → o.class ≡ m.class }
{}

/// A fact of a parameter of which the signature of the body's method speaks holds in the parameter.
pub fn spoken_parameters_keep_their_facts()
    ensures { (p : Program) → Accept p → (b : BodyId) (x : Body) (m : Method) (v : ℕ) → body_at p b ≡ Some x → method_at p x.method ≡ Some m → is_spoken_variable m v ≡ true
        → (o : Origin) (k : List Todo) (f : Fact) → Reach p b (relation_of p b) o k f → is_origin_at o.kind (Some (v + 1)) ≡ true → has f.places (places.Var v) ≡ true }
{}

/// In a constructor with an aliased argument that creates the obligation of `this` nowhere anew, a fact that says that a field of `this` holds its object is that of the aliased
/// parameter.
pub fn held_facts_are_those_of_the_argument()
    ensures { (p : Program) → Accept p → (b : BodyId) (x : Body) (m : Method) → body_at p b ≡ Some x → method_at p x.method ≡ Some m → is_alias_constructor p b ≡ true
        → ((c : List Todo) (i : ℕ) (t : Move (List Todo)) → Comes (relation_of p b) c → slice_get ((relation_of p b).next c) i ≡ Some t → is_reset_of_this p t.action ≡ false)
        → (o : Origin) (k : List Todo) (f : Fact) → Reach p b (relation_of p b) o k f → f.mode ≡ modes.Held → is_origin_at o.kind (alias_position p b) ≡ true }
{}
