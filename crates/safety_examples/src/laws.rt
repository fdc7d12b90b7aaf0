//! The laws. Each is the contract of a function that does nothing.

ghost use Rattle.std.specs.Prelude.{◌≡◌, true, Some, [], ◌∷◌};
ghost use Rattle.program_model.specs.Validity.{HasBodies, IsValid};
ghost use Rattle.program_model.specs.declared.kinds.ClassId.{ClassId};
ghost use Rattle.rlc_base.specs.declared.place.Pos.{Pos};
ghost use Rattle.program_model.specs.declared.kinds.BodyId.{BodyId};
ghost use Rattle.control_actions.specs.declared.fact.Origin.{Origin};
ghost use Rattle.control_actions.specs.declared.fact.Rule.{Rule};
ghost use Rattle.obligation_facts.specs.Facts.{Names};
ghost use Rattle.soundness_laws.specs.Accept.{Accept};
ghost use Rattle.soundness_laws.specs.Paths.{Faulty, relation_of};
ghost use Rattle.annotation_rules.specs.AnnotationCases.{annotation_cases};
ghost use Rattle.class_overrides.specs.Cases.{class_cases};
ghost use Rattle.must_call_sets.specs.WellFormed.{IsWellFormed};
ghost use Rattle.soundness_laws.specs.Signed.{IsSigned};
ghost use Rattle.must_call_sets.specs.MustCallSets.{is_heavy_class};
ghost use Rattle.ledger_text.specs.declared.how.How.TheVariants as hows;
ghost use Rattle.soundness_laws.specs.Runs.{run};
ghost use Rattle.soundness_laws.specs.Safety.{IsSafe};
ghost use Rattle.safety_examples.specs.CarefulPrograms.{careful, careless, io_exception, main_method, socket};
ghost use Rattle.safety_examples.specs.Runs.{birth, close, then_throws};

/// A program that makes a socket and never closes it is not safe.
pub fn careless_is_not_safe()
    ensures { IsSafe careless → ⊥ }
{}

/// A program that makes a socket and closes it is valid, and has the bodies that it runs.
pub fn careful_is_valid()
    ensures valid { IsValid careful }
    ensures bodies { HasBodies careful }
{}

/// That program is well formed, what its classes override is as Java asks, its annotations are right, and its sets and signatures are
/// what they say.
pub fn careful_is_well_formed()
    ensures well_formed { IsWellFormed careful }
    ensures overriding { (c : ClassId) → class_cases careful c ≡ [] }
    ensures annotations { annotation_cases careful ≡ [] }
    ensures signatures { IsSigned careful careful }
{}

/// No path in a body of that program breaks a rule.
pub fn careful_has_no_fault()
    ensures { (b : BodyId) (o : Origin) (rule : Rule) (at : Pos) (names : Names) → Faulty careful b (relation_of careful b) o rule at names → ⊥ }
{}

/// That program is accepted.
pub fn careful_is_accepted()
    ensures { Accept careful }
{}

/// A run of that program: the library makes a socket, which `main` owns and on which `close` must be called; the call of `close`
/// throws; and `main` ends by that exception, with nothing leaked.
pub fn careful_run_ends()
    ensures obligation { is_heavy_class careful socket ≡ true }
    ensures ledger { (run careful main_method then_throws 11).config.entries ≡ birth ∷ close ∷ [] }
    ensures ended { (run careful main_method then_throws 11).how ≡ hows.Ended (Some io_exception) }
{}
