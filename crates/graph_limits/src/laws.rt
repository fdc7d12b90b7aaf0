//! What holds of a body whose graph is made. Each law is the contract of a function that does nothing.

ghost use Rattle.std.specs.Prelude.{◌↔◌, List};
ghost use Rattle.program_model.specs.Validity.{IsTypedProgram};
ghost use Rattle.java_control.specs.Remaining.{Todo};
ghost use Rattle.java_cfg.specs.Graphs.{IsGraphOf};
ghost use Rattle.java_cfg.specs.Limits.{HasTooManyPlaces};
ghost use Rattle.must_call_types.specs.WellFormed.{HasSmallInterests};
ghost use Rattle.must_call_types.specs.Signed.{IsSigned};
ghost use Rattle.graph_relation.specs.Paths.{FitsPlaces, relation_of};
ghost use Rattle.graph_relation.specs.Nodes.{FitsRows, relation_in};
ghost use Rattle.graph_relation.specs.Pairs.{IsPairsCause};
ghost use Rattle.graph_limits.specs.ListedFields.{HasListedFields};

use java_cfg::Arc;
use program_model::{BodyId, Program};
use rlc_base::{Pos, Stop};

/// Where a body has not too many places, sets of places and of names have room for what its graph names, and births can be
/// counted. Classes list their fields, and the names of interest are among those of the table.
pub fn graph_has_room()
    ensures { (p : Program) (b : BodyId) (nodes : List (List Todo)) (rows : List (List Arc)) → HasListedFields p → HasSmallInterests p
        → IsGraphOf p b nodes rows → (HasTooManyPlaces p b → ⊥) → FitsRows p b rows }
{}

/// Where a body has not too many places, sets of places have room for what the steps of its paths name. Classes list their
/// fields.
pub fn paths_have_room()
    ensures { (p : Program) (b : BodyId) → HasListedFields p → (HasTooManyPlaces p b → ⊥) → FitsPlaces p b (relation_of p b) }
{}

/// Paths through the graph of a body reach more than 1,000,000 pairs of a node and a fact exactly where paths of controls reach
/// more than 1,000,000 pairs of a control and a fact.
pub fn pairs_are_the_same()
    ensures { (p : Program) (b : BodyId) (nodes : List (List Todo)) (rows : List (List Arc)) (pos : Pos) (stop : Stop) → IsGraphOf p b nodes rows
        → (IsPairsCause p b (relation_in rows) pos stop ↔ IsPairsCause p b (relation_of p b) pos stop) }
{}

/// The names of interest of a program whose annotations are read are among the 128 names that a set of names has room for.
pub fn interests_are_small()
    ensures { (p signed : Program) → IsSigned p signed → HasSmallInterests signed }
{}

/// The reading of annotations keeps the lists of fields.
pub fn signed_lists_fields()
    ensures { (p signed : Program) → IsSigned p signed → HasListedFields p → HasListedFields signed }
{}

/// The classes of a typed program list their fields.
pub fn typed_lists_fields()
    ensures { (p : Program) → IsTypedProgram p → HasListedFields p }
{}
