ghost use Rattle.std.specs.Prelude.{◌≡◌, ℕ, Bool, All, List, [], ◌∷◌, None};
ghost use Rattle.java_syntax.specs.declared.symbols.Symbol.TheVariants as symbols;
ghost use Rattle.java_syntax.specs.declared.symbols.Item.TheVariants.{Read};
ghost use Rattle.java_syntax.specs.declared.names.Typ.{Typ as TypTree};
ghost use Rattle.java_syntax.specs.Derives.{Lexeme, Step, Derives, at_start};
ghost use Rattle.java_syntax.specs.ExpressionTrees.{ExprTree};
ghost use Rattle.java_syntax.specs.AnnotationTrees.{AnnoTree};
ghost use Rattle.java_syntax.specs.DeclarationTrees.{UnitTree};
ghost use Rattle.java_values.specs.NestedTrees.{Nested};
ghost use Rattle.java_values.specs.Values.{AUnit, AUnits, AExpression, AType, AAnnotations};
ghost use Rattle.java_values.specs.Outcomes.{Made};
ghost use Rattle.java_values.specs.Lists.{none_of};
ghost use Rattle.java_exprs.specs.Evaluation.{evaluate};
ghost use Rattle.reading_laws.specs.Names.{IsType};
ghost use Rattle.reading_laws.specs.Expressions.{IsExpression, HasLooseOperator};
ghost use Rattle.reading_laws.specs.Annotations.{AreAnnotations};
ghost use Rattle.reading_laws.specs.Declarations.{IsUnit, AreUnits};

/// What is derived as a source file (JLS 7.3) is what its tree is written with.
pub fn unit_is_written()
    ensures { (limit : ℕ) (stub : Bool) (tokens : List Lexeme) (steps : List Step) (tree : UnitTree) → All HasLooseOperator tokens → Derives (at_start stub) (Read symbols.CompilationUnit ∷ []) tokens steps → evaluate limit steps None [] ≡ Made (AUnit tree ∷ []) → IsUnit tree tokens }
{}

/// What is derived as a stub file is what its sections are written with.
pub fn stub_is_written()
    ensures { (limit : ℕ) (stub : Bool) (tokens : List Lexeme) (steps : List Step) (trees : List UnitTree) → All HasLooseOperator tokens → Derives (at_start stub) (Read symbols.StubFile ∷ []) tokens steps → evaluate limit steps None [] ≡ Made (AUnits trees ∷ []) → AreUnits trees tokens }
{}

/// What is derived as an expression (JLS 15) is what its tree is written with.
pub fn expression_is_written()
    ensures { (limit : ℕ) (stub : Bool) (tokens : List Lexeme) (steps : List Step) (e : Nested ExprTree) → All HasLooseOperator tokens → Derives (at_start stub) (Read symbols.Expression ∷ []) tokens steps → evaluate limit steps None [] ≡ Made (AExpression e ∷ []) → IsExpression e.tree tokens }
{}

/// What is derived as a type (JLS 4) is what it is written with.
pub fn type_is_written()
    ensures { (limit : ℕ) (stub : Bool) (tokens : List Lexeme) (steps : List Step) (typ : TypTree) → All HasLooseOperator tokens → Derives (at_start stub) (Read symbols.Type ∷ []) tokens steps → evaluate limit steps None [] ≡ Made (AType typ ∷ []) → IsType typ tokens }
{}

/// What is derived as annotations (JLS 9.7) is what their trees are written with.
pub fn annotations_are_written()
    ensures { (limit : ℕ) (stub : Bool) (tokens : List Lexeme) (steps : List Step) (all : Nested (List AnnoTree)) → All HasLooseOperator tokens → Derives (at_start stub) (Read symbols.Annotations ∷ []) tokens steps → evaluate limit steps None (AAnnotations (none_of AnnoTree) ∷ []) ≡ Made (AAnnotations all ∷ []) → AreAnnotations all.tree tokens }
{}
