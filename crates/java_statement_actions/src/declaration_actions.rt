ghost use Rattle.std.specs.Prelude.{◌≡◌, ℕ, true};
ghost use Rattle.java_values.specs.Values.{values_of};
ghost use Rattle.java_values.specs.Kinds.{Fits};
ghost use Rattle.java_values.specs.Outcomes.{Gives, IsNoMisfit};
ghost use Rattle.java_statement_actions.specs.DeclarationActions.{takes_declaration, perform_declaration, is_of_files, is_of_classes, is_of_heads, is_of_members, is_of_constructors};
ghost use Rattle.java_syntax.specs.declared.actions.DeclarationAction.TheVariants as action;

use java_nodes::unit;
use java_syntax::{
    Block, ClassDecl, ConstructorBody, ConstructorDecl, DeclarationAction, FieldDecl, Import,
    Member, MethodDecl, Modifier, Name, Param, SuperCall, Typ,
};
use java_values::{
    BuildFail, Parameters, Place, Value, added, appended, leave, leave_member, none, pop_block,
    pop_constructor_body, pop_expressions, pop_imports, pop_members, pop_modifiers, pop_name,
    pop_names, pop_optional_name, pop_optional_type, pop_parameters, pop_place, pop_statement,
    pop_typ, pop_types, pop_unit, pop_units, pop_variables,
};
use std::alloc::Global;

/// An import of a type (JLS 7.5.1), or of all types of a package (JLS 7.5.2).
fn import(name: Name, star: bool, word: Place) -> Import
    ensures { result ≡ record { name = name.text; star = star; pos = word.pos } }
{
    Import {
        name: name.text,
        star,
        pos: word.pos,
    }
}

/// A parameter with its modifiers.
fn parameter(modifiers: Vec<Modifier>, typ: Typ, name: Name) -> Param
    ensures { result ≡ record { modifiers = modifiers; typ = typ; name = name } }
{
    Param {
        modifiers,
        typ,
        name,
    }
}

/// A method, whose body may be absent.
fn method(
    modifiers: Vec<Modifier>,
    outcome: Option<Typ>,
    name: Name,
    parameters: Parameters,
    throws: Vec<Name>,
    body: Option<Block>,
) -> MethodDecl
    ensures { result ≡ record { modifiers = modifiers; result = outcome; name = name; receiver = parameters.receiver; parameters = parameters.declared; throws = throws; body = body } }
{
    MethodDecl {
        modifiers,
        result: outcome,
        name,
        receiver: parameters.receiver,
        parameters: parameters.declared,
        throws,
        body,
    }
}

/// A constructor, whose body may be absent.
fn constructor(
    modifiers: Vec<Modifier>,
    name: Name,
    parameters: Parameters,
    throws: Vec<Name>,
    body: Option<ConstructorBody>,
) -> ConstructorDecl
    ensures { result ≡ record { modifiers = modifiers; name = name; receiver = parameters.receiver; parameters = parameters.declared; throws = throws; body = body } }
{
    ConstructorDecl {
        modifiers,
        name,
        receiver: parameters.receiver,
        parameters: parameters.declared,
        throws,
        body,
    }
}

/// Does an action of names that may be absent, imports and sections.
#[tactic(auto, using(crate::proofs::DeclarationActionLaws::file_laws))]
fn file_action(
    alloc: Global,
    action: DeclarationAction,
    stack: &mut Vec<Value>,
) -> Result<(), BuildFail>
    requires group { is_of_files action ≡ true }
    requires fits { Fits (takes_declaration action) (values_of stack.old.items) }
    ensures { (limit : ℕ) → Gives (λ _. values_of stack.new.items) result (perform_declaration limit action (values_of stack.old.items)) }
{
    match action {
        DeclarationAction::NoName => leave(stack, Value::OptionalName(None)),
        DeclarationAction::SomeName => {
            let name = pop_name(stack);
            leave(stack, Value::OptionalName(Some(name)))
        }
        DeclarationAction::NoImports => leave(stack, Value::Imports(Vec::new(alloc))),
        DeclarationAction::Import => {
            let name = pop_name(stack);
            let word = pop_place(stack);
            let all = pop_imports(stack);
            let made = appended(all, import(name, false, word))?;
            leave(stack, Value::Imports(made))
        }
        DeclarationAction::ImportAll => {
            let name = pop_name(stack);
            let word = pop_place(stack);
            let all = pop_imports(stack);
            let made = appended(all, import(name, true, word))?;
            leave(stack, Value::Imports(made))
        }
        DeclarationAction::Unit => {
            let types = pop_types(stack);
            let imports = pop_imports(stack);
            let package = pop_optional_name(stack);
            leave(stack, Value::Unit(unit(alloc, package, imports, types)))
        }
        DeclarationAction::NoUnits => leave(stack, Value::Units(Vec::new(alloc))),
        DeclarationAction::AndUnit => {
            let one = pop_unit(stack);
            let all = pop_units(stack);
            leave(stack, Value::Units(appended(all, one)?))
        }
        _other => unreachable!(),
    }
}

/// Does an action of classes and interfaces (JLS 8.1, 9.1).
#[tactic(auto, using(crate::proofs::DeclarationActionLaws::class_laws))]
fn class_action(
    alloc: Global,
    action: DeclarationAction,
    stack: &mut Vec<Value>,
) -> Result<(), BuildFail>
    requires group { is_of_classes action ≡ true }
    requires fits { Fits (takes_declaration action) (values_of stack.old.items) }
    ensures { (limit : ℕ) → Gives (λ _. values_of stack.new.items) result (perform_declaration limit action (values_of stack.old.items)) }
{
    match action {
        DeclarationAction::NoTypes => leave(stack, Value::Types(Vec::new(alloc))),
        DeclarationAction::Class => {
            let members = pop_members(stack);
            let interfaces = pop_names(stack);
            let superclass = pop_optional_name(stack);
            let name = pop_name(stack);
            let modifiers = pop_modifiers(stack);
            let all = pop_types(stack);
            let class = ClassDecl {
                modifiers: modifiers.tree,
                is_interface: false,
                name,
                superclass,
                interfaces,
                members,
            };
            leave(stack, Value::Types(appended(all, class)?))
        }
        DeclarationAction::Interface => {
            let members = pop_members(stack);
            let interfaces = pop_names(stack);
            let name = pop_name(stack);
            let modifiers = pop_modifiers(stack);
            let all = pop_types(stack);
            let interface = ClassDecl {
                modifiers: modifiers.tree,
                is_interface: true,
                name,
                superclass: None,
                interfaces,
                members,
            };
            leave(stack, Value::Types(appended(all, interface)?))
        }
        _other => unreachable!(),
    }
}

/// Does an action of results and parameters.
#[tactic(auto, using(crate::proofs::DeclarationActionLaws::head_laws))]
fn head_action(
    alloc: Global,
    action: DeclarationAction,
    stack: &mut Vec<Value>,
) -> Result<(), BuildFail>
    requires group { is_of_heads action ≡ true }
    requires fits { Fits (takes_declaration action) (values_of stack.old.items) }
    ensures { (limit : ℕ) → Gives (λ _. values_of stack.new.items) result (perform_declaration limit action (values_of stack.old.items)) }
{
    match action {
        DeclarationAction::NoMembers => leave(stack, Value::Members(Vec::new(alloc))),
        DeclarationAction::NoResult => leave(stack, Value::OptionalType(None)),
        DeclarationAction::SomeResult => {
            let typ = pop_typ(stack);
            leave(stack, Value::OptionalType(Some(typ)))
        }
        DeclarationAction::Method => {
            let name = pop_name(stack);
            let typ = pop_typ(stack);
            let outcome = leave(stack, Value::OptionalType(Some(typ)));
            let named = leave(stack, Value::Name(name));
            outcome?;
            named
        }
        DeclarationAction::NoParameters => {
            let receiver = None;
            let declared = Vec::new(alloc);
            leave(stack, Value::Parameters(Parameters { receiver, declared }))
        }
        DeclarationAction::Parameter => {
            let name = pop_name(stack);
            let typ = pop_typ(stack);
            let modifiers = pop_modifiers(stack);
            let all = pop_parameters(stack);
            let receiver = all.receiver;
            let declared = appended(all.declared, parameter(modifiers.tree, typ, name))?;
            leave(stack, Value::Parameters(Parameters { receiver, declared }))
        }
        DeclarationAction::Receiver => {
            let name = pop_name(stack);
            let typ = pop_typ(stack);
            let modifiers = pop_modifiers(stack);
            let declared = pop_parameters(stack).declared;
            let receiver = Some(parameter(modifiers.tree, typ, name));
            leave(stack, Value::Parameters(Parameters { receiver, declared }))
        }
        _other => unreachable!(),
    }
}

/// Does an action of fields and methods (JLS 8.3, 8.4).
#[tactic(auto, using(crate::proofs::DeclarationActionLaws::member_laws))]
fn member_action(action: DeclarationAction, stack: &mut Vec<Value>) -> Result<(), BuildFail>
    requires group { is_of_members action ≡ true }
    requires fits { Fits (takes_declaration action) (values_of stack.old.items) }
    ensures { (limit : ℕ) → Gives (λ _. values_of stack.new.items) result (perform_declaration limit action (values_of stack.old.items)) }
{
    match action {
        DeclarationAction::Field => {
            let variables = pop_variables(stack);
            let typ = pop_typ(stack);
            let modifiers = pop_modifiers(stack);
            let all = pop_members(stack);
            let field = FieldDecl {
                modifiers: modifiers.tree,
                typ,
                variables: variables.tree,
            };
            leave_member(stack, all, Member::Field(field))
        }
        DeclarationAction::MethodBody => {
            let body = Some(pop_block(stack).tree);
            let throws = pop_names(stack);
            let parameters = pop_parameters(stack);
            let name = pop_name(stack);
            let outcome = pop_optional_type(stack);
            let modifiers = pop_modifiers(stack).tree;
            let all = pop_members(stack);
            let made = method(modifiers, outcome, name, parameters, throws, body);
            leave_member(stack, all, Member::Method(made))
        }
        DeclarationAction::MethodHead => {
            let throws = pop_names(stack);
            let parameters = pop_parameters(stack);
            let name = pop_name(stack);
            let outcome = pop_optional_type(stack);
            let modifiers = pop_modifiers(stack).tree;
            let all = pop_members(stack);
            let made = method(modifiers, outcome, name, parameters, throws, None);
            leave_member(stack, all, Member::Method(made))
        }
        _other => unreachable!(),
    }
}

/// Does an action of constructors (JLS 8.8).
#[tactic(auto, using(crate::proofs::DeclarationActionLaws::constructor_laws))]
fn constructor_action(
    alloc: Global,
    action: DeclarationAction,
    stack: &mut Vec<Value>,
) -> Result<(), BuildFail>
    requires group { is_of_constructors action ≡ true }
    requires fits { Fits (takes_declaration action) (values_of stack.old.items) }
    ensures { (limit : ℕ) → Gives (λ _. values_of stack.new.items) result (perform_declaration limit action (values_of stack.old.items)) }
{
    match action {
        DeclarationAction::Constructor => {
            let body = pop_constructor_body(stack);
            let throws = pop_names(stack);
            let parameters = pop_parameters(stack);
            let name = pop_name(stack);
            let modifiers = pop_modifiers(stack).tree;
            let all = pop_members(stack);
            let made = constructor(modifiers, name, parameters, throws, Some(body));
            leave_member(stack, all, Member::Constructor(made))
        }
        DeclarationAction::ConstructorHead => {
            let throws = pop_names(stack);
            let parameters = pop_parameters(stack);
            let name = pop_name(stack);
            let modifiers = pop_modifiers(stack).tree;
            let all = pop_members(stack);
            let made = constructor(modifiers, name, parameters, throws, None);
            leave_member(stack, all, Member::Constructor(made))
        }
        DeclarationAction::NoSuperCall => leave(stack, Value::SuperCall(None)),
        DeclarationAction::SuperCall => {
            let arguments = pop_expressions(stack).tree;
            let pos = pop_place(stack).pos;
            let call = SuperCall { arguments, pos };
            leave(stack, Value::SuperCall(Some(call)))
        }
        DeclarationAction::FirstStatement => {
            let first = pop_statement(stack);
            let all = added(none(alloc), first)?;
            let call = leave(stack, Value::SuperCall(None));
            let statements = leave(stack, Value::Statements(all));
            call?;
            statements
        }
        _other => unreachable!(),
    }
}

/// Does the action, which finds values of the kinds that it takes.
///
/// # Errors
///
/// `TooDeep` where what it makes would be deeper than the limit.
#[tactic(auto, using(crate::proofs::DeclarationActionLaws::declaration_fits))]
pub fn perform_declaration_action(
    alloc: Global,
    limit: u32,
    action: DeclarationAction,
    stack: &mut Vec<Value>,
) -> Result<(), BuildFail>
    requires { IsNoMisfit (perform_declaration limit action (values_of stack.old.items)) }
    ensures { Gives (λ _. values_of stack.new.items) result (perform_declaration limit action (values_of stack.old.items)) }
{
    match action {
        DeclarationAction::NoName
        | DeclarationAction::SomeName
        | DeclarationAction::NoImports
        | DeclarationAction::Import
        | DeclarationAction::ImportAll
        | DeclarationAction::Unit
        | DeclarationAction::NoUnits
        | DeclarationAction::AndUnit => file_action(alloc, action, stack),
        DeclarationAction::NoTypes | DeclarationAction::Class | DeclarationAction::Interface =>
            class_action(alloc, action, stack),
        DeclarationAction::NoMembers
        | DeclarationAction::NoResult
        | DeclarationAction::SomeResult
        | DeclarationAction::Method
        | DeclarationAction::NoParameters
        | DeclarationAction::Parameter
        | DeclarationAction::Receiver => head_action(alloc, action, stack),
        DeclarationAction::Field | DeclarationAction::MethodBody | DeclarationAction::MethodHead =>
            member_action(action, stack),
        DeclarationAction::Constructor
        | DeclarationAction::ConstructorHead
        | DeclarationAction::NoSuperCall
        | DeclarationAction::SuperCall
        | DeclarationAction::FirstStatement => constructor_action(alloc, action, stack),
    }
}
