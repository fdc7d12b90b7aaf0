//! Facts in mode Own whose need is not met. Each law is the contract of a function that does nothing.

ghost use Rattle.std.specs.Prelude.{◌≡◌, ◌⊎◌, ℕ, true, false, None};
ghost use Rattle.std.specs.FinSet as set;
ghost use Rattle.program_model.specs.declared.kinds.BodyId.{BodyId};
ghost use Rattle.program_model.specs.declared.program.Program.{Program};
ghost use Rattle.ownership_rules.specs.Bodies.{reset_in};
ghost use Rattle.control_actions.specs.declared.action.Action.{Action};
ghost use Rattle.control_actions.specs.declared.action.Action.TheVariants as actions;
ghost use Rattle.control_actions.specs.declared.action.Completion.{Completion};
ghost use Rattle.control_actions.specs.declared.action.Edge.{Edge};
ghost use Rattle.control_actions.specs.declared.fact.Fact.{Fact};
ghost use Rattle.control_actions.specs.declared.fact.Mode.TheVariants as modes;
ghost use Rattle.control_actions.specs.declared.fact.Origin.{Origin};
ghost use Rattle.control_actions.specs.declared.place.Place.{Place};
ghost use Rattle.ownership_rules.specs.Callees.{callee};
ghost use Rattle.ownership_rules.specs.Facts.{has, is_met, need};
ghost use Rattle.place_laws.specs.PlaceRows.{places_after};
ghost use Rattle.place_laws.specs.CalledRows.{called_after};
ghost use Rattle.ownership_rules.specs.MovesAtCalls.{moved_at_call};
ghost use Rattle.ownership_rules.specs.MovesAtReturns.{moved_at_return, result_type};
ghost use Rattle.ownership_rules.specs.declared.moved.Moved.TheVariants as moves;
ghost use Rattle.place_laws.specs.Flow.{flow};
ghost use Rattle.ledger_state.specs.declared.object.Object.{Object};
ghost use Rattle.place_laws.specs.Obligations.{is_unmet};
ghost use Rattle.fact_laws.specs.Outcomes.{After, IsCallRow, IsFault, IsNotNull, IsPlainRow};

/// The need of a fact is not met while its object is unmet, where all that must be called on the object is needed by the fact, and all
/// that the fact knows was called.
pub fn fact_is_owed()
    ensures { (x : Object) (o : Origin) (f : Fact) → is_unmet x ≡ true → set.is_subset x.must (need o f) ≡ true → set.is_subset f.called x.called ≡ true
        → is_met o f ≡ false }
{}

/// A step that calls nothing keeps such a fact: at the places after the step, or as it is, where all its places stay.
pub fn owed_fact_at_other_steps()
    ensures { (p : Program) (b : BodyId) (o : Origin) (a : Action) (e : Edge) (f : Fact) → IsPlainRow a → f.mode ≡ modes.Own → is_met o f ≡ false → IsNotNull f a e
        → After (λ g. (g ≡ record f { places = places_after p b a e f.places; mode = modes.Own })
        ⊎ ((g ≡ f) × ((q : Place) → has f.places q ≡ true → has (places_after p b a e f.places) q ≡ true))) (flow p b o a e f) }
{}

/// A call that resets nothing and does not move the object keeps such a fact, with the names that the call counts for.
pub fn owed_fact_at_calls()
    ensures { (p : Program) (b : BodyId) (o : Origin) (a : Action) (e : Edge) (f : Fact) → IsCallRow a → reset_in (callee p a) ≡ None → f.mode ≡ modes.Own
        → is_met o (record f { called = called_after p b a e f }) ≡ false → (moved_at_call p o a e f ≡ moves.Moves → ⊥)
        → After (λ g. g ≡ record f { places = places_after p b a e f.places; mode = modes.Own; called = called_after p b a e f }) (flow p b o a e f) }
{}

/// The end of a body breaks a rule where such a fact is there, but where its object is the result and moves to the caller.
pub fn owed_fact_at_ends()
    ensures { (p : Program) (b : BodyId) (o : Origin) (c : Completion) (e : Edge) (f : Fact) → f.mode ≡ modes.Own → is_met o f ≡ false
        → (moved_at_return p b o (actions.End c) f ≡ moves.Moves → ⊥) → IsFault (flow p b o (actions.End c) e f) }
{}

/// A body without a result moves nothing that its frame owns to its caller.
pub fn result_of_no_type_stays()
    ensures { (p : Program) (b : BodyId) (o : Origin) (c : Completion) (f : Fact) → result_type p b ≡ None → f.mode ≡ modes.Own
        → moved_at_return p b o (actions.End c) f ≡ moves.Moves → ⊥ }
{}
