//! In which order the statements of a laid body stand. Each law is the contract of a function that does nothing.

ghost use Rattle.std.specs.Prelude.{◌≡◌, All, Some, false};
ghost use Rattle.program_model.specs.Heads.{HeadsFirst, OneSuperCall, begins_with_super_call, initialized_fields, is_head};
ghost use Rattle.program_model.specs.Jumps.{HasJumpsInLoops};
ghost use Rattle.program_model.specs.Lookups.{statement_at};
ghost use Rattle.program_model.specs.Trees.{statements_in};
ghost use Rattle.program_model.specs.declared.kinds.StmtId.{StmtId};
ghost use Rattle.program_model.specs.declared.tree.Body.{Body};
ghost use Rattle.program_model.specs.declared.tree.TStmt.{TStmt};
ghost use Rattle.java_typed_trees.specs.StatementTrees.{StmtTrees};
ghost use Rattle.java_typing_laws.specs.Bodies.{IsLaid};
ghost use Rattle.elaboration_laws.specs.OrderedTrees.{HaveHeadsFirst, HaveOneSuperCall, begin_with_super_call, fields_initialized, have_free_jump};

/// The super call and the initialisers of fields come first among the body's own statements (JLS 8.8.7, 12.5).
pub fn laid_heads_come_first()
    ensures { (b : Body) (ts : StmtTrees) → IsLaid b ts → HaveHeadsFirst ts → HeadsFirst b b.stmts.items }
{}

/// They stand in no other statement.
pub fn parts_are_no_heads()
    ensures { (b : Body) (ts : StmtTrees) → IsLaid b ts → HaveHeadsFirst ts → (s : StmtId) (x : TStmt) → statement_at b s ≡ Some x → All (λ t. is_head b t ≡ false) (statements_in x.kind) }
{}

/// Of the body's own statements the first alone may be a super call (JLS 8.8.7.1).
pub fn laid_super_call_comes_first()
    ensures { (b : Body) (ts : StmtTrees) → IsLaid b ts → HaveOneSuperCall ts → OneSuperCall b b.stmts.items }
{}

/// The body begins with a super call where the typed statements do.
pub fn laid_super_call_is_due()
    ensures { (b : Body) (ts : StmtTrees) → IsLaid b ts → begins_with_super_call b b.stmts.items ≡ begin_with_super_call ts }
{}

/// The body runs the initialisers of the fields that the typed statements assign so (JLS 8.3.2).
pub fn laid_initializers_assign()
    ensures { (b : Body) (ts : StmtTrees) → IsLaid b ts → initialized_fields b ≡ fields_initialized ts }
{}

/// Each `break` and `continue` of the body stands in a loop, where those of the typed statements do (JLS 14.15, 14.16).
pub fn laid_jumps_are_in_loops()
    ensures { (b : Body) (ts : StmtTrees) → IsLaid b ts → have_free_jump ts ≡ false → HasJumpsInLoops b }
{}
