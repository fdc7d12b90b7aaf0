//! The places of facts. Each law is the contract of a function that does nothing.

ghost use Rattle.std.specs.Prelude.{◌≡◌, ℕ, ◌<◌, true, false, ◌||◌, Some, None};
ghost use Rattle.std.specs.FinSet as set;
ghost use Rattle.program_model.specs.declared.kinds.BodyId.{BodyId};
ghost use Rattle.program_model.specs.declared.program.Program.{Program};
ghost use Rattle.program_model.specs.declared.tree.Body.{Body};
ghost use Rattle.program_model.specs.Lookups.{body_at};
ghost use Rattle.control_actions.specs.declared.action.Action.{Action};
ghost use Rattle.control_actions.specs.declared.action.Edge.{Edge};
ghost use Rattle.control_actions.specs.declared.place.Place.{Place};
ghost use Rattle.java_control.specs.PlaceNumbers.{IsSmall, number_of};
ghost use Rattle.java_control.specs.Sources.{is_place, source};
ghost use Rattle.step_laws.specs.Facts.{PlaceSet, has, is_nowhere};
ghost use Rattle.step_laws.specs.SmallActions.{IsSmallAction};
ghost use Rattle.step_laws.specs.PlaceRows.{places_after};
ghost use Rattle.place_laws.specs.Places.{HasPlacesAlone, IsWay, SetsLocals, has_source, is_local, takes_alias};

/// A number of a set of places is that of one place.
pub fn place_is_numbered()
    ensures { (n : ℕ) → n < 242 → (q : Place) × IsSmall q × (number_of q ≡ n) }
{}

/// A variable or temp is among the places after a step exactly where its source was among them before, or a call gives it an alias of
/// the resource of an operand that was among them.
pub fn places_come_from_sources()
    ensures { (p : Program) (b : BodyId) (x : Body) (a : Action) (e : Edge) (held : PlaceSet) (q : Place) → body_at p b ≡ Some x → IsSmallAction p a
        → IsSmall q → is_local q ≡ true → IsWay a e
        → has (places_after p b a e held) q ≡ (takes_alias p a e held q || has_source held (source p x a e q)) }
{}

/// A step that sets of places have room for leaves none but numbers of places.
pub fn places_stay_in_range()
    ensures { (p : Program) (b : BodyId) (a : Action) (e : Edge) (held : PlaceSet) → IsSmallAction p a → HasPlacesAlone held → HasPlacesAlone (places_after p b a e held) }
{}

/// A set of places that is not empty has one.
pub fn some_place_is_held()
    ensures { (held : PlaceSet) → HasPlacesAlone held → is_nowhere held ≡ false → (q : Place) × IsSmall q × (has held q ≡ true) }
{}

/// The set of one place.
pub fn single_place()
    ensures has { (x q : Place) → IsSmall x → IsSmall q → has (set.insert set.empty (number_of x)) q ≡ is_place x q }
    ensures some { (x : Place) → is_nowhere (set.insert set.empty (number_of x)) ≡ false }
    ensures alone { (x : Place) → IsSmall x → HasPlacesAlone (set.insert set.empty (number_of x)) }
    ensures same { (x q : Place) → is_place x q ≡ true → x ≡ q }
{}

/// A step that sets variables and temps alone puts an object into no other place.
pub fn no_other_place_joins()
    ensures { (p : Program) (b : BodyId) (a : Action) (e : Edge) (held : PlaceSet) (q : Place) → IsSmallAction p a → SetsLocals a → IsSmall q → is_local q ≡ false
        → has (places_after p b a e held) q ≡ true → has held q ≡ true }
{}

/// Sets of places have room for the source of a place that they have room for.
pub fn source_is_small()
    ensures { (p : Program) (x : Body) (a : Action) (e : Edge) (q z : Place) → IsSmallAction p a → IsSmall q → source p x a e q ≡ Some z → IsSmall z }
{}
