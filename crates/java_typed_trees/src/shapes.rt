//! What an expression is, without the numbers of its parts.

use program_model::{
    BinaryOperator, ClassId, FieldId, Literal, MethodId, OperandType, UnaryOperator, VType,
};

/// What an expression is (JLS 15), without its parts: one shape for each kind of expression of a typed body.
#[derive(Clone, Copy)]
pub enum Shape {
    Literal(Literal),
    /// A variable of the body, by its number in the list of variables.
    Local(u32),
    /// `this`, and whether it is written.
    This(bool),
    /// An instance field of a program class. Its part is the object that it is read from.
    Field(FieldId),
    /// A static field of a program class.
    StaticField(FieldId),
    /// A static final field of class type of a stub.
    LibraryConstant(MethodId),
    /// Its part is the operand.
    Unary(UnaryOperator),
    /// The operator, and the type to which it takes its operands, which are its parts.
    Binary(BinaryOperator, OperandType),
    /// Its parts are the condition and the values where it is true and where it is false.
    Conditional,
    /// The tested type. Its part is the operand.
    InstanceOf(VType),
    /// Its part is the operand.
    PrimitiveCast,
    /// Its part is the operand.
    ReferenceCast,
    /// Its parts are those of what is assigned to, and the value.
    Assignment(TargetShape),
    /// `x op= e`. Its parts are what is assigned to, and the value.
    OperatorAssignment(BinaryOperator, OperandType),
    /// `x++` or `x--`. Its parts are what is assigned to, and the implied literal 1.
    PostfixStep(BinaryOperator, OperandType),
    /// The method that overload resolution names. Its parts are the target, where the form has one, and the arguments.
    Call(CallShape, MethodId),
    /// The class and the constructor. Its parts are the arguments.
    NewObject(ClassId, MethodId),
    /// Its part is the size.
    NewArray,
    /// Its parts are the array and the index.
    Element,
    /// Its part is the array.
    Length,
    /// An expression without a type, which stands in no typed body.
    Erroneous,
}

/// The left-hand side of a simple assignment (JLS 15.26.1), without its parts.
#[derive(Clone, Copy)]
pub enum TargetShape {
    /// A variable of the body, by its number in the list of variables.
    Local(u32),
    /// An instance field. Its part is the object that has it.
    Field(FieldId),
    StaticField(FieldId),
    /// Its parts are the array and the index.
    Element,
}

/// The form of a call's target (JLS 15.12.1).
#[derive(Clone, Copy)]
pub enum CallShape {
    /// The call of a static method, which has no target.
    Static,
    /// `this`, written or implied.
    This,
    /// `super.m(..)`, whose target is an implied `this`.
    Super,
    /// Any other expression.
    Other,
}
