//! Facts in any mode. Each law is the contract of a function that does nothing.

ghost use Rattle.std.specs.Prelude.{◌≡◌, ◌⊎◌, ℕ, true, false, None, Some};
ghost use Rattle.std.specs.FinSet as set;
ghost use Rattle.program_model.specs.declared.kinds.BodyId.{BodyId};
ghost use Rattle.program_model.specs.declared.kinds.FieldId.{FieldId};
ghost use Rattle.program_model.specs.declared.program.Program.{Program};
ghost use Rattle.control_actions.specs.declared.action.Action.{Action};
ghost use Rattle.control_actions.specs.declared.action.Action.TheVariants as actions;
ghost use Rattle.control_actions.specs.declared.action.Completion.{Completion};
ghost use Rattle.control_actions.specs.declared.action.Edge.{Edge};
ghost use Rattle.control_actions.specs.declared.fact.Fact.{Fact};
ghost use Rattle.control_actions.specs.declared.fact.Mode.TheVariants as modes;
ghost use Rattle.control_actions.specs.declared.fact.Origin.{Origin};
ghost use Rattle.control_actions.specs.declared.place.Place.{Place};
ghost use Rattle.ownership_rules.specs.Facts.{has, owes};
ghost use Rattle.place_laws.specs.PlaceRows.{places_after};
ghost use Rattle.place_laws.specs.CalledRows.{called_after};
ghost use Rattle.place_laws.specs.Promises.{promised_at_end};
ghost use Rattle.ownership_rules.specs.MovesAtReturns.{moved_at_return};
ghost use Rattle.ownership_rules.specs.declared.moved.Moved.TheVariants as moves;
ghost use Rattle.place_laws.specs.Ends.{constructor_throws};
ghost use Rattle.place_laws.specs.Flow.{flow};
ghost use Rattle.fact_laws.specs.Outcomes.{After, IsCallRow, IsFault, IsNotNull, IsPlainRow};
ghost use Rattle.fact_laws.specs.Going.{ArePlaces, GoesAs, StoresAs, is_owned_in};
ghost use Rattle.fact_laws.specs.Anew.{GoesAnew, MayBeAnew, is_target};
ghost use Rattle.ownership_rules.specs.Bodies.{reset_in};
ghost use Rattle.ownership_rules.specs.Callees.{callee};
ghost use Rattle.ownership_rules.specs.Facts.{is_met};
ghost use Rattle.ownership_rules.specs.MustCallSets.{no_names};
ghost use Rattle.ownership_rules.specs.MovesAtCalls.{moved_at_call};

/// A step that calls nothing and stores into no owning field lets a fact go on that has a place after it.
pub fn fact_at_other_steps()
    ensures { (p : Program) (b : BodyId) (o : Origin) (a : Action) (e : Edge) (f : Fact) (q : Place) → IsPlainRow a → IsNotNull f a e
        → has (places_after p b a e f.places) q ≡ true
        → After (GoesAs f (places_after p b a e f.places) (called_after p b a e f)) (flow p b o a e f) }
{}

/// A call lets a fact go on that has a place after it.
pub fn fact_at_calls()
    ensures { (p : Program) (b : BodyId) (o : Origin) (a : Action) (e : Edge) (f : Fact) (q : Place) → IsCallRow a
        → has (places_after p b a e f.places) q ≡ true
        → After (GoesAs f (places_after p b a e f.places) (called_after p b a e f)) (flow p b o a e f) }
{}

/// The store into an owning field lets a fact go on that has a place after it.
pub fn fact_at_stores()
    ensures { (p : Program) (b : BodyId) (o : Origin) (x : FieldId) (d : ℕ) (e : Edge) (f : Fact) (q : Place)
        → has (places_after p b (actions.PutOwn x d) e f.places) q ≡ true
        → After (λ g. ArePlaces g.places (places_after p b (actions.PutOwn x d) e f.places) × StoresAs p b o x d f g) (flow p b o (actions.PutOwn x d) e f) }
{}

/// Where no result moves, the end of a body breaks a rule unless the frame owes nothing, no constructor throws whose fields own an open
/// obligation, and all that the method promises was called.
pub fn fact_at_ends()
    ensures { (p : Program) (b : BodyId) (o : Origin) (c : Completion) (e : Edge) (f : Fact) → (moved_at_return p b o (actions.End c) f ≡ moves.Moves → ⊥)
        → IsFault (flow p b o (actions.End c) e f)
        ⊎ ((owes o f ≡ false) × (constructor_throws p b o c f ≡ false) × (set.is_subset (promised_at_end p b o.kind f.places (actions.End c)) f.called ≡ true)) }
{}

/// Where the result moves as an alias, or does not move, the end of a body breaks a rule unless all that the method promises was called.
pub fn promises_at_ends()
    ensures { (p : Program) (b : BodyId) (o : Origin) (c : Completion) (e : Edge) (f : Fact) → (moved_at_return p b o (actions.End c) f ≡ moves.Moves → f.mode ≡ modes.Alias)
        → IsFault (flow p b o (actions.End c) e f) ⊎ (set.is_subset (promised_at_end p b o.kind f.places (actions.End c)) f.called ≡ true) }
{}

/// What a field owns never moves as a result.
pub fn held_result_stays()
    ensures { (p : Program) (b : BodyId) (o : Origin) (c : Completion) (f : Fact) → f.mode ≡ modes.Held → moved_at_return p b o (actions.End c) f ≡ moves.Moves → ⊥ }
{}

/// A call breaks a rule that creates the obligation of an object anew which is in a fact with a place after it, or somebody answers for the object, and
/// the fact goes on with no names and full.
pub fn fact_of_target()
    ensures { (p : Program) (b : BodyId) (o : Origin) (a : Action) (e : Edge) (f : Fact) (q : Place) → IsCallRow a → is_target p a f.places ≡ true
        → has (places_after p b a e f.places) q ≡ true → After (GoesAnew p b o a f (places_after p b a e f.places)) (flow p b o a e f) }
{}

/// A fact whose object moves at a call, and that has a place after it, says no longer that it is owned.
pub fn moved_fact_is_not_owned()
    ensures { (p : Program) (b : BodyId) (o : Origin) (a : Action) (e : Edge) (f : Fact) (q : Place) → IsCallRow a
        → has (places_after p b a e f.places) q ≡ true → moved_at_call p o a e f ≡ moves.Moves → After (λ g. is_owned_in g.mode ≡ false) (flow p b o a e f) }
{}

/// A fact of which the frame owes a call after it is never gone: where its object is not the one whose obligation the call creates anew, and does not
/// move; and where it is that one, and its class has an obligation.
pub fn owed_fact_with_target()
    ensures apart { (p : Program) (b : BodyId) (o : Origin) (a : Action) (e : Edge) (f : Fact) → IsCallRow a → is_target p a f.places ≡ false → f.mode ≡ modes.Own
        → is_met o (record f { called = called_after p b a e f }) ≡ false → (moved_at_call p o a e f ≡ moves.Moves → ⊥)
        → After (λ g. g ≡ record f { places = places_after p b a e f.places; mode = modes.Own; called = called_after p b a e f }) (flow p b o a e f) }
    ensures target { (p : Program) (b : BodyId) (o : Origin) (a : Action) (e : Edge) (f : Fact) → IsCallRow a → is_target p a f.places ≡ true → f.mode ≡ modes.Own
        → set.is_subset o.full no_names ≡ false
        → After (λ g. g ≡ record f { places = places_after p b a e f.places; mode = modes.Own; called = no_names; full = true }) (flow p b o a e f) }
{}

/// A call breaks a rule that creates the obligation of a fact's object anew, or somebody answers for the object, and it does not move.
pub fn target_is_answered()
    ensures { (p : Program) (b : BodyId) (o : Origin) (a : Action) (e : Edge) (f : Fact) → IsCallRow a → is_target p a f.places ≡ true
        → IsFault (flow p b o a e f) ⊎ ((k : ℕ) × (reset_in (callee p a) ≡ Some k) × MayBeAnew p b o a k f × (moved_at_call p o a e f ≡ moves.Moves → ⊥)) }
{}
