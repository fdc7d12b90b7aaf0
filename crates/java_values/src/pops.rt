ghost use Rattle.std.specs.Prelude.{◌≡◌, ◌∷◌, true, is_some, reverse, map, option_map};
ghost use Rattle.java_syntax.specs.ExpressionTrees.{expr_of};
ghost use Rattle.java_syntax.specs.AnnotationTrees.{anno_of, anno_value_of};
ghost use Rattle.java_syntax.specs.StatementTrees.{local_of, stmt_of, block_of, for_start_of};
ghost use Rattle.java_syntax.specs.DeclarationTrees.{super_call_of, constructor_body_of, member_of, class_of, unit_of};
ghost use Rattle.java_values.specs.NestedTrees.{lexeme_in, nested_of, exprs_in, annos_in, arguments_in, anno_values_in, modifiers_in, variables_in, stmts_in, resources_in, catches_in, open_operation_of, identifiers_of, optional_in, parenthesized_of};
ghost use Rattle.java_values.specs.Values.{values_of, value_of, parameters_of};
ghost use Rattle.java_values.specs.Values as kinds;
ghost use Rattle.java_values.specs.Kinds.{IsTop, top_kind};
ghost use Rattle.java_values.specs.Outcomes.{Gives, Made};

use crate::values::{Parameters, Place, Value};
use crate::{BuildFail, Identifiers, Lexeme, Nested, OpenOperation, Parenthesized, put};
use java_syntax::{
    Anno, AnnoArgument, AnnoValue, Block, Catch, ClassDecl, ConstructorBody, Expr, ForStart,
    Import, Local, Member, Modifier, Name, Resource, Stmt, SuperCall, Typ, Unit, Variable,
};

/// Puts the value on the stack, as an action's last step.
pub fn leave(stack: &mut Vec<Value>, value: Value) -> Result<(), BuildFail>
    ensures { Gives (λ _. values_of stack.new.items) result (Made (value_of value ∷ values_of stack.old.items)) }
{
    put(stack, value)?;
    Ok(())
}

/// Takes the value on top off the stack.
fn pop_top(stack: &mut Vec<Value>) -> Value
    requires { is_some (top_kind (values_of stack.old.items)) ≡ true }
    ensures { values_of stack.old.items ≡ value_of result ∷ values_of stack.new.items }
{
    match stack.pop() {
        Some(value) => value,
        None => unreachable!(),
    }
}

/// Takes the place of a token off the stack.
pub fn pop_place(stack: &mut Vec<Value>) -> Place
    requires { IsTop kinds.place (values_of stack.old.items) }
    ensures { values_of stack.old.items ≡ kinds.APlace result.pos ∷ values_of stack.new.items }
{
    match pop_top(stack) {
        Value::Place(found) => found,
        _other => unreachable!(),
    }
}

/// Takes the value of this kind off the stack: an operator that waits for its operands.
pub fn pop_token(stack: &mut Vec<Value>) -> Lexeme
    requires { IsTop kinds.token (values_of stack.old.items) }
    ensures { values_of stack.old.items ≡ kinds.AToken (lexeme_in result) ∷ values_of stack.new.items }
{
    match pop_top(stack) {
        Value::Token(found) => found,
        _other => unreachable!(),
    }
}

/// Takes the value of this kind off the stack: a name with its dots, or an identifier.
pub fn pop_name(stack: &mut Vec<Value>) -> Name
    requires { IsTop kinds.name (values_of stack.old.items) }
    ensures { values_of stack.old.items ≡ kinds.AName result ∷ values_of stack.new.items }
{
    match pop_top(stack) {
        Value::Name(found) => found,
        _other => unreachable!(),
    }
}

/// Takes the value of this kind off the stack: a name that may be absent.
pub fn pop_optional_name(stack: &mut Vec<Value>) -> Option<Name>
    requires { IsTop kinds.optional_name (values_of stack.old.items) }
    ensures { values_of stack.old.items ≡ kinds.AOptionalName result ∷ values_of stack.new.items }
{
    match pop_top(stack) {
        Value::OptionalName(found) => found,
        _other => unreachable!(),
    }
}

/// Takes the value of this kind off the stack: identifiers that dots join: a type, or an expression.
pub fn pop_identifiers(stack: &mut Vec<Value>) -> Identifiers
    requires { IsTop kinds.identifiers (values_of stack.old.items) }
    ensures { values_of stack.old.items ≡ kinds.AIdentifiers (identifiers_of result) ∷ values_of stack.new.items }
{
    match pop_top(stack) {
        Value::Identifiers(found) => found,
        _other => unreachable!(),
    }
}

/// Takes the value of this kind off the stack: names in their order.
pub fn pop_names(stack: &mut Vec<Value>) -> Vec<Name>
    requires { IsTop kinds.names (values_of stack.old.items) }
    ensures { values_of stack.old.items ≡ kinds.ANames result.items ∷ values_of stack.new.items }
{
    match pop_top(stack) {
        Value::Names(found) => found,
        _other => unreachable!(),
    }
}

/// Takes the value of this kind off the stack: a type.
pub fn pop_typ(stack: &mut Vec<Value>) -> Typ
    requires { IsTop kinds.typ (values_of stack.old.items) }
    ensures { values_of stack.old.items ≡ kinds.AType result ∷ values_of stack.new.items }
{
    match pop_top(stack) {
        Value::Type(found) => found,
        _other => unreachable!(),
    }
}

/// Takes the value of this kind off the stack: the type of a method's result; none for `void`.
pub fn pop_optional_type(stack: &mut Vec<Value>) -> Option<Typ>
    requires { IsTop kinds.optional_type (values_of stack.old.items) }
    ensures { values_of stack.old.items ≡ kinds.AOptionalType result ∷ values_of stack.new.items }
{
    match pop_top(stack) {
        Value::OptionalType(found) => found,
        _other => unreachable!(),
    }
}

/// Takes the value of this kind off the stack: an expression.
pub fn pop_expression(stack: &mut Vec<Value>) -> Nested<Expr>
    requires { IsTop kinds.expression (values_of stack.old.items) }
    ensures { values_of stack.old.items ≡ kinds.AExpression (nested_of expr_of result) ∷ values_of stack.new.items }
{
    match pop_top(stack) {
        Value::Expression(found) => found,
        _other => unreachable!(),
    }
}

/// Takes the value of this kind off the stack: an expression that may be absent.
pub fn pop_optional_expression(stack: &mut Vec<Value>) -> Nested<Option<Expr>>
    requires { IsTop kinds.optional_expression (values_of stack.old.items) }
    ensures { values_of stack.old.items ≡ kinds.AOptionalExpression (nested_of optional_in result) ∷ values_of stack.new.items }
{
    match pop_top(stack) {
        Value::OptionalExpression(found) => found,
        _other => unreachable!(),
    }
}

/// Takes the value of this kind off the stack: expressions in their order.
pub fn pop_expressions(stack: &mut Vec<Value>) -> Nested<Vec<Expr>>
    requires { IsTop kinds.expressions (values_of stack.old.items) }
    ensures { values_of stack.old.items ≡ kinds.AExpressions (nested_of exprs_in result) ∷ values_of stack.new.items }
{
    match pop_top(stack) {
        Value::Expressions(found) => found,
        _other => unreachable!(),
    }
}

/// Takes the value of this kind off the stack: the arguments behind an identifier, where it is a method's name.
pub fn pop_call(stack: &mut Vec<Value>) -> Option<Nested<Vec<Expr>>>
    requires { IsTop kinds.call (values_of stack.old.items) }
    ensures { values_of stack.old.items ≡ kinds.ACall (option_map (nested_of exprs_in) result) ∷ values_of stack.new.items }
{
    match pop_top(stack) {
        Value::Call(found) => found,
        _other => unreachable!(),
    }
}

/// Takes the value of this kind off the stack: operators that wait for their right operands, the tightest last.
pub fn pop_operations(stack: &mut Vec<Value>) -> Vec<OpenOperation>
    requires { IsTop kinds.operations (values_of stack.old.items) }
    ensures { values_of stack.old.items ≡ kinds.AOperations (map open_operation_of (reverse result.items)) ∷ values_of stack.new.items }
{
    match pop_top(stack) {
        Value::Operations(found) => found,
        _other => unreachable!(),
    }
}

/// Takes the value of this kind off the stack: what stands in parentheses.
pub fn pop_parenthesized(stack: &mut Vec<Value>) -> Parenthesized
    requires { IsTop kinds.parenthesized (values_of stack.old.items) }
    ensures { values_of stack.old.items ≡ kinds.AParenthesized (parenthesized_of result) ∷ values_of stack.new.items }
{
    match pop_top(stack) {
        Value::Parenthesized(found) => found,
        _other => unreachable!(),
    }
}

/// Takes the value of this kind off the stack: an annotation.
pub fn pop_annotation(stack: &mut Vec<Value>) -> Nested<Anno>
    requires { IsTop kinds.annotation (values_of stack.old.items) }
    ensures { values_of stack.old.items ≡ kinds.AAnnotation (nested_of anno_of result) ∷ values_of stack.new.items }
{
    match pop_top(stack) {
        Value::Annotation(found) => found,
        _other => unreachable!(),
    }
}

/// Takes the value of this kind off the stack: annotations in their order.
pub fn pop_annotations(stack: &mut Vec<Value>) -> Nested<Vec<Anno>>
    requires { IsTop kinds.annotations (values_of stack.old.items) }
    ensures { values_of stack.old.items ≡ kinds.AAnnotations (nested_of annos_in result) ∷ values_of stack.new.items }
{
    match pop_top(stack) {
        Value::Annotations(found) => found,
        _other => unreachable!(),
    }
}

/// Takes the value of this kind off the stack: the arguments of an annotation, in their order.
pub fn pop_arguments(stack: &mut Vec<Value>) -> Nested<Vec<AnnoArgument>>
    requires { IsTop kinds.arguments (values_of stack.old.items) }
    ensures { values_of stack.old.items ≡ kinds.AArguments (nested_of arguments_in result) ∷ values_of stack.new.items }
{
    match pop_top(stack) {
        Value::Arguments(found) => found,
        _other => unreachable!(),
    }
}

/// Takes the value of this kind off the stack: a value in an annotation.
pub fn pop_annotation_value(stack: &mut Vec<Value>) -> Nested<AnnoValue>
    requires { IsTop kinds.annotation_value (values_of stack.old.items) }
    ensures { values_of stack.old.items ≡ kinds.AAnnotationValue (nested_of anno_value_of result) ∷ values_of stack.new.items }
{
    match pop_top(stack) {
        Value::AnnotationValue(found) => Box::into_inner(found),
        _other => unreachable!(),
    }
}

/// Takes the value of this kind off the stack: values in an annotation, in their order.
pub fn pop_annotation_values(stack: &mut Vec<Value>) -> Nested<Vec<AnnoValue>>
    requires { IsTop kinds.annotation_values (values_of stack.old.items) }
    ensures { values_of stack.old.items ≡ kinds.AAnnotationValues (nested_of anno_values_in result) ∷ values_of stack.new.items }
{
    match pop_top(stack) {
        Value::AnnotationValues(found) => found,
        _other => unreachable!(),
    }
}

/// Takes the value of this kind off the stack: annotations and modifier words, in their order.
pub fn pop_modifiers(stack: &mut Vec<Value>) -> Nested<Vec<Modifier>>
    requires { IsTop kinds.modifiers (values_of stack.old.items) }
    ensures { values_of stack.old.items ≡ kinds.AModifiers (nested_of modifiers_in result) ∷ values_of stack.new.items }
{
    match pop_top(stack) {
        Value::Modifiers(found) => found,
        _other => unreachable!(),
    }
}

/// Takes the value of this kind off the stack: variables or fields, in their order.
pub fn pop_variables(stack: &mut Vec<Value>) -> Nested<Vec<Variable>>
    requires { IsTop kinds.variables (values_of stack.old.items) }
    ensures { values_of stack.old.items ≡ kinds.AVariables (nested_of variables_in result) ∷ values_of stack.new.items }
{
    match pop_top(stack) {
        Value::Variables(found) => found,
        _other => unreachable!(),
    }
}

/// Takes the value of this kind off the stack: a declaration of local variables.
pub fn pop_local(stack: &mut Vec<Value>) -> Nested<Local>
    requires { IsTop kinds.local (values_of stack.old.items) }
    ensures { values_of stack.old.items ≡ kinds.ALocal (nested_of local_of result) ∷ values_of stack.new.items }
{
    match pop_top(stack) {
        Value::Local(found) => found,
        _other => unreachable!(),
    }
}

/// Takes the value of this kind off the stack: a statement.
pub fn pop_statement(stack: &mut Vec<Value>) -> Nested<Stmt>
    requires { IsTop kinds.statement (values_of stack.old.items) }
    ensures { values_of stack.old.items ≡ kinds.AStatement (nested_of stmt_of result) ∷ values_of stack.new.items }
{
    match pop_top(stack) {
        Value::Statement(found) => Box::into_inner(found),
        _other => unreachable!(),
    }
}

/// Takes the value of this kind off the stack: statements in their order.
pub fn pop_statements(stack: &mut Vec<Value>) -> Nested<Vec<Stmt>>
    requires { IsTop kinds.statements (values_of stack.old.items) }
    ensures { values_of stack.old.items ≡ kinds.AStatements (nested_of stmts_in result) ∷ values_of stack.new.items }
{
    match pop_top(stack) {
        Value::Statements(found) => found,
        _other => unreachable!(),
    }
}

/// Takes the value of this kind off the stack: a block.
pub fn pop_block(stack: &mut Vec<Value>) -> Nested<Block>
    requires { IsTop kinds.block (values_of stack.old.items) }
    ensures { values_of stack.old.items ≡ kinds.ABlock (nested_of block_of result) ∷ values_of stack.new.items }
{
    match pop_top(stack) {
        Value::Block(found) => found,
        _other => unreachable!(),
    }
}

/// Takes the value of this kind off the stack: what a `for` begins with.
pub fn pop_for_start(stack: &mut Vec<Value>) -> Nested<ForStart>
    requires { IsTop kinds.for_start (values_of stack.old.items) }
    ensures { values_of stack.old.items ≡ kinds.AForStart (nested_of for_start_of result) ∷ values_of stack.new.items }
{
    match pop_top(stack) {
        Value::ForStart(found) => found,
        _other => unreachable!(),
    }
}

/// Takes the value of this kind off the stack: the resources of a `try`, in their order.
pub fn pop_resources(stack: &mut Vec<Value>) -> Nested<Vec<Resource>>
    requires { IsTop kinds.resources (values_of stack.old.items) }
    ensures { values_of stack.old.items ≡ kinds.AResources (nested_of resources_in result) ∷ values_of stack.new.items }
{
    match pop_top(stack) {
        Value::Resources(found) => found,
        _other => unreachable!(),
    }
}

/// Takes the value of this kind off the stack: the catch clauses of a `try`, in their order.
pub fn pop_catches(stack: &mut Vec<Value>) -> Nested<Vec<Catch>>
    requires { IsTop kinds.catches (values_of stack.old.items) }
    ensures { values_of stack.old.items ≡ kinds.ACatches (nested_of catches_in result) ∷ values_of stack.new.items }
{
    match pop_top(stack) {
        Value::Catches(found) => found,
        _other => unreachable!(),
    }
}

/// Takes the value of this kind off the stack: the parameters of a method or a constructor.
pub fn pop_parameters(stack: &mut Vec<Value>) -> Parameters
    requires { IsTop kinds.parameters (values_of stack.old.items) }
    ensures { values_of stack.old.items ≡ kinds.AParameters (parameters_of result) ∷ values_of stack.new.items }
{
    match pop_top(stack) {
        Value::Parameters(found) => found,
        _other => unreachable!(),
    }
}

/// Takes the value of this kind off the stack: the call of a constructor of the super class that a constructor begins with, where it is written.
pub fn pop_super_call(stack: &mut Vec<Value>) -> Option<SuperCall>
    requires { IsTop kinds.super_call (values_of stack.old.items) }
    ensures { values_of stack.old.items ≡ kinds.ASuperCall (option_map super_call_of result) ∷ values_of stack.new.items }
{
    match pop_top(stack) {
        Value::SuperCall(found) => found,
        _other => unreachable!(),
    }
}

/// Takes the value of this kind off the stack: the body of a constructor.
pub fn pop_constructor_body(stack: &mut Vec<Value>) -> ConstructorBody
    requires { IsTop kinds.constructor_body (values_of stack.old.items) }
    ensures { values_of stack.old.items ≡ kinds.AConstructorBody (constructor_body_of result) ∷ values_of stack.new.items }
{
    match pop_top(stack) {
        Value::ConstructorBody(found) => found,
        _other => unreachable!(),
    }
}

/// Takes the value of this kind off the stack: members in their order.
pub fn pop_members(stack: &mut Vec<Value>) -> Vec<Member>
    requires { IsTop kinds.members (values_of stack.old.items) }
    ensures { values_of stack.old.items ≡ kinds.AMembers (map member_of result.items) ∷ values_of stack.new.items }
{
    match pop_top(stack) {
        Value::Members(found) => found,
        _other => unreachable!(),
    }
}

/// Takes the value of this kind off the stack: classes and interfaces in their order.
pub fn pop_types(stack: &mut Vec<Value>) -> Vec<ClassDecl>
    requires { IsTop kinds.types (values_of stack.old.items) }
    ensures { values_of stack.old.items ≡ kinds.ATypes (map class_of result.items) ∷ values_of stack.new.items }
{
    match pop_top(stack) {
        Value::Types(found) => found,
        _other => unreachable!(),
    }
}

/// Takes the value of this kind off the stack: imports in their order.
pub fn pop_imports(stack: &mut Vec<Value>) -> Vec<Import>
    requires { IsTop kinds.imports (values_of stack.old.items) }
    ensures { values_of stack.old.items ≡ kinds.AImports result.items ∷ values_of stack.new.items }
{
    match pop_top(stack) {
        Value::Imports(found) => found,
        _other => unreachable!(),
    }
}

/// Takes the value of this kind off the stack: a source file, or a section of a stub file.
pub fn pop_unit(stack: &mut Vec<Value>) -> Unit
    requires { IsTop kinds.unit (values_of stack.old.items) }
    ensures { values_of stack.old.items ≡ kinds.AUnit (unit_of result) ∷ values_of stack.new.items }
{
    match pop_top(stack) {
        Value::Unit(found) => found,
        _other => unreachable!(),
    }
}

/// Takes the value of this kind off the stack: the sections of a stub file, in their order.
pub fn pop_units(stack: &mut Vec<Value>) -> Vec<Unit>
    requires { IsTop kinds.units (values_of stack.old.items) }
    ensures { values_of stack.old.items ≡ kinds.AUnits (map unit_of result.items) ∷ values_of stack.new.items }
{
    match pop_top(stack) {
        Value::Units(found) => found,
        _other => unreachable!(),
    }
}
