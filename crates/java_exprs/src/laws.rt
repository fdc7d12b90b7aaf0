//! That the actions of the table fit together. Each law is the contract of a function that does nothing.

ghost use Rattle.std.specs.Prelude.{◌≡◌, ℕ, Bool, List, [], ◌∷◌, None, map};
ghost use Rattle.java_syntax.specs.declared.symbols.Symbol.{Symbol};
ghost use Rattle.java_syntax.specs.declared.symbols.Item.TheVariants.{Read};
ghost use Rattle.java_syntax.specs.Derives.{Lexeme, Step, Derives, at_start};
ghost use Rattle.java_values.specs.Values as kinds;
ghost use Rattle.java_values.specs.Values.{ValueTree};
ghost use Rattle.java_values.specs.Kinds.{kind_of, IsTop};
ghost use Rattle.java_exprs.specs.SymbolKinds.{symbol_takes, symbol_leaves, LeavesKinds};
ghost use Rattle.java_exprs.specs.Evaluation.{evaluate};

/// Where values of the kinds that a symbol takes stand on the stack, and what parentheses hold is not on top, each action
/// of a derivation from the symbol finds values of the kinds that it takes; and the derivation leaves those of the symbol,
/// unless it is too deep.
pub fn kinds_fit()
    ensures { (limit : ℕ) (stub : Bool) (symbol : Symbol) (tokens : List Lexeme) (steps : List Step) (stack : List ValueTree) → Derives (at_start stub) (Read symbol ∷ []) tokens steps → map kind_of stack ≡ symbol_takes symbol → (IsTop kinds.parenthesized stack → ⊥) → LeavesKinds (symbol_leaves symbol) (evaluate limit steps None stack) }
{}
