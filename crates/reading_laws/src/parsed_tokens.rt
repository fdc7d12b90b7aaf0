ghost use Rattle.std.specs.Prelude.{◌≡◌, ◌-◌, ℕ, true, All, List, length, map, take};
ghost use Rattle.java_syntax.specs.declared.names.Typ.{Typ as TypTree};
ghost use Rattle.java_syntax.specs.Derives.{lexeme_of, text_of};
ghost use Rattle.java_syntax.specs.declared.words.Word.TheVariants as words;
ghost use Rattle.java_lexer.specs.Words.{is_listed};
ghost use Rattle.java_lexer.specs.Cut.{IsTokenOf};
ghost use Rattle.java_syntax.specs.ExpressionTrees.{ExprTree};
ghost use Rattle.java_syntax.specs.AnnotationTrees.{AnnoTree};
ghost use Rattle.java_syntax.specs.DeclarationTrees.{UnitTree};
ghost use Rattle.java_exprs.specs.FrontTrees.{IsExpressionFront, IsTypeFront, IsAnnotationsFront};
ghost use Rattle.program_front.specs.FileTrees.{IsUnitTree, IsStubTree};
ghost use Rattle.reading_laws.specs.Operators.{infix_texts};
ghost use Rattle.reading_laws.specs.Names.{IsType};
ghost use Rattle.reading_laws.specs.Expressions.{IsExpression, is_infix};
ghost use Rattle.reading_laws.specs.Annotations.{AreAnnotations};
ghost use Rattle.reading_laws.specs.Declarations.{IsUnit, AreUnits};

use java_syntax::Token;

/// The tokens of a source file (JLS 7.3) are those that its tree is written with.
pub fn parsed_unit_is_written()
    ensures { (bytes : List ℕ) (tokens : List Token) (tree : UnitTree) → All (IsTokenOf bytes) tokens → IsUnitTree (map (lexeme_of bytes) tokens) tree → IsUnit tree (map (lexeme_of bytes) tokens) }
{}

/// The tokens of a stub file are those that its sections are written with.
pub fn parsed_stub_is_written()
    ensures { (bytes : List ℕ) (tokens : List Token) (trees : List UnitTree) → All (IsTokenOf bytes) tokens → IsStubTree (map (lexeme_of bytes) tokens) trees → AreUnits trees (map (lexeme_of bytes) tokens) }
{}

/// The first tokens that are an expression (JLS 15) are those that its tree is written with.
pub fn parsed_expression_is_written()
    ensures { (bytes : List ℕ) (tokens : List Token) (limit count : ℕ) (tree : ExprTree) → All (IsTokenOf bytes) tokens → IsExpressionFront limit (map (lexeme_of bytes) tokens) count tree → IsExpression tree (take count (map (lexeme_of bytes) tokens)) }
{}

/// The first tokens that are a type (JLS 4) are those that it is written with.
pub fn parsed_type_is_written()
    ensures { (bytes : List ℕ) (tokens : List Token) (count : ℕ) (typ : TypTree) → All (IsTokenOf bytes) tokens → IsTypeFront (map (lexeme_of bytes) tokens) count typ → IsType typ (take count (map (lexeme_of bytes) tokens)) }
{}

/// The first tokens that are annotations (JLS 9.7) are those that their trees are written with.
pub fn parsed_annotations_are_written()
    ensures { (bytes : List ℕ) (tokens : List Token) (limit count : ℕ) (all : List AnnoTree) → All (IsTokenOf bytes) tokens → IsAnnotationsFront limit (map (lexeme_of bytes) tokens) count all → AreAnnotations all (take count (map (lexeme_of bytes) tokens)) }
{}

/// A token of a class of operators between two operands (JLS 15.17 to 15.24) is a listed one, and so is what a compound assignment
/// (JLS 15.26.2) has before its `=`: no operator of a tree stands for a text that isn't listed.
pub fn operators_are_listed()
    ensures between { (bytes : List ℕ) (t : Token) → IsTokenOf bytes t → is_infix t.word ≡ true → is_listed infix_texts (text_of bytes t) ≡ true }
    ensures compound { (bytes : List ℕ) (t : Token) → IsTokenOf bytes t → t.word ≡ words.Compound → is_listed infix_texts (take (length (text_of bytes t) - 1) (text_of bytes t)) ≡ true }
{}
