//! What stands at a number. A number out of range names nothing.

ghost use Rattle.std.specs.Prelude.{◌≡◌};
ghost use Rattle.std.specs.Option.{option_copied};
ghost use Rattle.program_model.specs.Lookups.{body_at, class_at, expression_at, field_at, method_at, statement_at, type_at, variable_at, variable_type};

use crate::kinds::{BodyId, ClassId, ExprId, FieldId, MethodId, StmtId, VType};
use crate::program::{Class, Field, Method, Program};
use crate::tree::{Body, TExpr, TStmt, Var};

impl Program {
    /// The class or interface with this number.
    pub fn class(&self, class: ClassId) -> Option<&Class>
        ensures { option_copied result ≡ class_at self.now class }
    {
        self.classes.get(class.0 as usize)
    }

    /// The method, constructor or constant with this number.
    pub fn method(&self, method: MethodId) -> Option<&Method>
        ensures { option_copied result ≡ method_at self.now method }
    {
        self.methods.get(method.0 as usize)
    }

    /// The field with this number.
    pub fn field(&self, field: FieldId) -> Option<&Field>
        ensures { option_copied result ≡ field_at self.now field }
    {
        self.fields.get(field.0 as usize)
    }

    /// The body with this number.
    pub fn body(&self, body: BodyId) -> Option<&Body>
        ensures { option_copied result ≡ body_at self.now body }
    {
        self.bodies.get(body.0 as usize)
    }
}

impl Body {
    /// The statement with this number.
    pub fn statement(&self, statement: StmtId) -> Option<&TStmt>
        ensures { option_copied result ≡ statement_at self.now statement }
    {
        self.statements.get(statement.0 as usize)
    }

    /// The expression with this number.
    pub fn expression(&self, expression: ExprId) -> Option<&TExpr>
        ensures { option_copied result ≡ expression_at self.now expression }
    {
        self.expressions.get(expression.0 as usize)
    }

    /// The variable with this number.
    pub fn variable(&self, variable: u32) -> Option<&Var>
        ensures { option_copied result ≡ variable_at self.now variable }
    {
        self.vars.get(variable as usize)
    }

    /// The type of an expression. A call of a method without a result has none.
    pub fn type_of(&self, expression: ExprId) -> Option<VType>
        ensures { result ≡ type_at self.now expression }
    {
        match self.expression(expression) {
            None => None,
            Some(found) => found.vtype,
        }
    }

    /// The declared type of a variable.
    pub fn variable_type(&self, variable: u32) -> Option<VType>
        ensures { result ≡ variable_type self.now variable }
    {
        match self.variable(variable) {
            None => None,
            Some(found) => Some(found.vtype),
        }
    }
}
