ghost use Rattle.std.specs.Prelude.{◌≡◌, ℕ, List, take, drop};
ghost use Rattle.java_syntax.specs.declared.productions.Production.TheVariants.{Declare, State, Compute};
ghost use Rattle.java_syntax.specs.Derives.{after, allowed, at_start, enters, is_left, lexeme_of, may_cast, no_modifier, with_modifier};
ghost use Rattle.java_syntax.specs.declared.productions.DeclarationProduction.TheVariants as declaration;
ghost use Rattle.java_grammar.specs.Reached.{span_text, surroundings_of};

use java_syntax::{
    DeclarationProduction, Effect, ExpressionProduction, Modifiers, Owner, Production,
    StatementProduction, Token, Word,
};

/// Where a name's bytes stand in the file.
#[derive(Copy, Clone)]
pub struct Span {
    /// Where they begin, counted from 0.
    pub start: u32,
    /// How many there are.
    pub len: u32,
}

/// What the conditions of the grammar look at.
#[derive(Copy, Clone)]
pub struct Context {
    /// Is this a stub file?
    pub is_stub: bool,
    /// Where the declaration stands.
    pub owner: Owner,
    /// The modifier words of the declaration so far.
    pub modifiers: Modifiers,
    /// The class's name.
    pub class_name: Span,
    /// The name that may be a constructor's.
    pub member_name: Span,
    /// What the last token ended.
    pub ended: Effect,
}

fn no_modifiers() -> Modifiers
    ensures { result ≡ no_modifier }
{
    Modifiers {
        has_access: false,
        is_private: false,
        is_static: false,
        is_final: false,
        is_abstract: false,
    }
}

/// The context at the start of a file.
pub fn new_context(is_stub: bool) -> Context
    ensures { (bytes : List ℕ) → surroundings_of bytes result ≡ at_start is_stub }
{
    Context {
        is_stub,
        owner: Owner::File,
        modifiers: no_modifiers(),
        class_name: Span { start: 0, len: 0 },
        member_name: Span { start: 0, len: 0 },
        ended: Effect::Passes,
    }
}

fn add_modifier(modifiers: Modifiers, word: Word) -> Modifiers
    ensures { result ≡ with_modifier modifiers word }
{
    match word {
        Word::Public | Word::Protected => Modifiers {
            has_access: true,
            ..modifiers
        },
        Word::Private => Modifiers {
            has_access: true,
            is_private: true,
            ..modifiers
        },
        Word::Static => Modifiers {
            is_static: true,
            ..modifiers
        },
        Word::Final => Modifiers {
            is_final: true,
            ..modifiers
        },
        Word::Abstract => Modifiers {
            is_abstract: true,
            ..modifiers
        },
        _ => modifiers,
    }
}

/// The context behind a token that a production takes with this effect.
pub fn advance(effect: Effect, token: Token, context: Context) -> Context
    ensures { (bytes : List ℕ) → surroundings_of bytes result ≡ after effect (lexeme_of bytes token) (surroundings_of bytes context) }
{
    let name = Span {
        start: token.start,
        len: token.len,
    };
    match effect {
        Effect::Adds => Context {
            modifiers: add_modifier(context.modifiers, token.word),
            ended: Effect::Passes,
            ..context
        },
        Effect::NamesClass => Context {
            class_name: name,
            ended: Effect::Passes,
            ..context
        },
        Effect::NamesMember => Context {
            member_name: name,
            ended: Effect::Passes,
            ..context
        },
        _ => Context {
            ended: effect,
            ..context
        },
    }
}

/// The context in which a production's items begin.
pub fn enter(production: Production, context: Context) -> Context
    ensures { (bytes : List ℕ) → surroundings_of bytes result ≡ enters production (surroundings_of bytes context) }
{
    match production {
        Production::Declare(DeclarationProduction::ModifiedType) => Context {
            owner: Owner::File,
            modifiers: no_modifiers(),
            ..context
        },
        Production::Declare(DeclarationProduction::ModifiedMember) => Context {
            owner: Owner::Class,
            modifiers: no_modifiers(),
            ..context
        },
        Production::Declare(DeclarationProduction::HeadOf) => Context {
            owner: Owner::Interface,
            modifiers: no_modifiers(),
            ..context
        },
        _ => context,
    }
}

fn behind(bytes: &[u8], start: usize) -> &[u8]
    ensures { result.now ≡ drop start bytes.now }
{
    if start <= bytes.len() {
        &bytes[start..]
    } else {
        &[]
    }
}

fn front(bytes: &[u8], len: usize) -> &[u8]
    ensures { result.now ≡ take len bytes.now }
{
    if len <= bytes.len() {
        &bytes[..len]
    } else {
        bytes
    }
}

fn text(bytes: &[u8], span: Span) -> &[u8]
    ensures { result.now ≡ span_text bytes.now span }
{
    front(behind(bytes, span.start as usize), span.len as usize)
}

/// May the declaration's production be used there?
fn is_declaration_allowed(bytes: &[u8], production: DeclarationProduction, context: Context) -> bool
    ensures { result ≡ allowed (Declare production) (surroundings_of bytes.now context) }
{
    let modifiers = context.modifiers;
    let is_in_file = matches!(context.owner, Owner::File);
    let is_in_interface = matches!(context.owner, Owner::Interface);
    match production {
        DeclarationProduction::AndPublic => !modifiers.has_access,
        DeclarationProduction::AndProtected => !modifiers.has_access && !is_in_interface,
        DeclarationProduction::AndPrivate => !modifiers.has_access
            && !modifiers.is_abstract
            && !is_in_interface,
        DeclarationProduction::AndStatic => !modifiers.is_static
            && !modifiers.is_abstract
            && !is_in_interface
            && !is_in_file,
        DeclarationProduction::AndFinal => !modifiers.is_final
            && !modifiers.is_abstract
            && !is_in_interface,
        DeclarationProduction::AndAbstract => !modifiers.is_abstract
            && !modifiers.is_static
            && !modifiers.is_final
            && !modifiers.is_private,
        DeclarationProduction::ConstructorOf => is_constructor_allowed(bytes, context),
        DeclarationProduction::FieldOf => !modifiers.is_abstract,
        DeclarationProduction::SomeInitializer | DeclarationProduction::SomeConstructorBody =>
            !context.is_stub,
        DeclarationProduction::SomeMethodBody => !context.is_stub && !modifiers.is_abstract,
        DeclarationProduction::NoMethodBody => context.is_stub || modifiers.is_abstract,
        DeclarationProduction::NoConstructorBody => context.is_stub,
        _ => true,
    }
}

/// Has the member the name of its class, and no modifier but an access word?
fn is_constructor_allowed(bytes: &[u8], context: Context) -> bool
    ensures { result ≡ allowed (Declare declaration.ConstructorOf) (surroundings_of bytes.now context) }
{
    let modifiers = context.modifiers;
    text(bytes, context.member_name) == text(bytes, context.class_name)
        && !modifiers.is_static
        && !modifiers.is_final
        && !modifiers.is_abstract
}

/// Does what ends there stand left of an assignment (JLS 15.26)?
fn is_assignable(effect: Effect) -> bool
    ensures { result ≡ is_left effect }
{
    matches!(effect, Effect::Assigns)
}

/// May a cast's operand stand behind what ends there (JLS 15.16)?
fn ends_type(effect: Effect) -> bool
    ensures { result ≡ may_cast effect }
{
    matches!(effect, Effect::ClosesName | Effect::ClosesArray)
}

/// May the statement's production be used behind what ended last?
fn is_statement_allowed(production: StatementProduction, context: Context) -> bool
    ensures { (bytes : List ℕ) → result ≡ allowed (State production) (surroundings_of bytes context) }
{
    match production {
        StatementProduction::AssignAction | StatementProduction::CompoundAction => is_assignable(
            context.ended,
        ),
        StatementProduction::CallTail => matches!(context.ended, Effect::Calls),
        _ => true,
    }
}

/// May the expression's production be used behind what ended last?
fn is_expression_allowed(production: ExpressionProduction, context: Context) -> bool
    ensures { (bytes : List ℕ) → result ≡ allowed (Compute production) (surroundings_of bytes context) }
{
    match production {
        ExpressionProduction::AssignTail | ExpressionProduction::CompoundTail => is_assignable(
            context.ended,
        ),
        ExpressionProduction::CastExpression | ExpressionProduction::CastOf => ends_type(
            context.ended,
        ),
        ExpressionProduction::ParenthesesExpression | ExpressionProduction::ParenthesesOf => {
            !matches!(context.ended, Effect::ClosesArray)
        }
        _ => true,
    }
}

/// May the production be used there?
pub fn is_allowed(bytes: &[u8], production: Production, context: Context) -> bool
    ensures { result ≡ allowed production (surroundings_of bytes.now context) }
{
    match production {
        Production::Declare(production) => is_declaration_allowed(bytes, production, context),
        Production::State(production) => is_statement_allowed(production, context),
        Production::Compute(production) => is_expression_allowed(production, context),
    }
}
