//! What a step of a body does.

use crate::place::Place;
use program_model::{
    BinaryOperator, ClassId, FieldId, Literal, MethodId, OperandType, StmtId, UnaryOperator, VType,
};
use rlc_base::Pos;

/// A statement or an exception that ends what runs, and is on its way out (JLS 14.1), with the place where it began. The hash looks
/// at the place alone.
#[derive(Clone, Copy, PartialEq, Eq)]
#[derive_where(Hash)]
pub enum Completion {
    Break(Pos),
    Continue(Pos),
    /// `return` without a value.
    Return(Pos),
    /// `return` of the value in the temp of this depth.
    ReturnValue(#[derive_where(skip(Hash))] u32, Pos),
    /// An exception in the temp of this depth, and the class by which it is known.
    Throw(#[derive_where(skip(Hash))] u32, #[derive_where(skip(Hash))] ClassId, Pos),
}

/// The way by which a step goes on.
#[derive(Clone, Copy, PartialEq, Eq)]
pub enum Edge {
    Go,
    /// The tested value is null.
    Null,
    NonNull,
    True,
    False,
    /// An exception of the class, or of one under it, is thrown.
    Throws(ClassId),
}

/// A catch clause: its `try` statement, and how many clauses of the statement stand before it.
#[derive(Clone, Copy, PartialEq, Eq)]
pub struct ClauseId {
    pub statement: StmtId,
    pub index: usize,
}

/// Places that are emptied together.
#[derive(Clone, Copy, PartialEq, Eq)]
pub enum Scope {
    /// The variables that this block, or the head of this `for` statement, declares directly (JLS 6.3); none for another
    /// statement.
    Declared(StmtId),
    /// The variable of a resource or of a catch clause.
    Variable(u32),
    /// The temp of this depth.
    Temp(u32),
    /// All temps of a greater depth.
    TempsAbove(u32),
}

/// A value without an object.
#[derive(Clone, Copy, PartialEq, Eq)]
pub enum PlainValue {
    Literal(Literal),
    /// The value that a variable of this type begins with (JLS 4.12.5): 0, false or null.
    Default(VType),
    /// The value of a static field of a program class.
    StaticField(FieldId),
    /// The value of a static final field of class type of a stub.
    LibraryConstant(MethodId),
}

/// What an `Op` computes from its operands.
#[derive(Clone, Copy, PartialEq, Eq)]
pub enum Operator {
    /// The operand promoted to the type, with the operator applied; never `!`.
    Unary(UnaryOperator, VType),
    /// The operator over operands of the first type; the result is cast to the second one.
    Binary(BinaryOperator, OperandType, VType),
    InstanceOf(VType),
    /// A cast to a primitive type.
    Convert(VType),
    /// The length of an array.
    Length,
    /// The element of an array (operands: array, index).
    Element,
    /// The store into an element (operands: array, index, value), whose result is the value.
    StoreElement,
    /// The store into a static field, whose result is the value.
    StoreStatic(FieldId),
    /// A new array of this type (operand: its size).
    NewArray(VType),
}

/// The form in which the target of a call stands.
#[derive(Clone, Copy, PartialEq, Eq)]
pub enum TargetForm {
    /// No target: a static method, a `new` or a super call.
    Static,
    /// `this`, written or implied.
    This,
    /// `super`.
    Super,
    /// Another expression.
    Other,
}

/// What a step does. `Temp(d)`, the temp of depth d, is written t(d). In a call without a target the operand of position
/// k is t(d + k - 1), and in every other call, `New` and `Super` it is t(d + k), with the receiver at position 0.
#[derive(Clone, Copy, PartialEq, Eq)]
pub enum Action {
    Skip,
    /// The first place takes the value of the second.
    Copy(Place, Place),
    /// The first place takes the value of the second, which then holds nothing.
    Move(Place, Place),
    /// The place takes a value without an object.
    Plain(Place, PlainValue),
    /// The places are emptied.
    Drop(Scope),
    /// t(b) takes the value of the completion's temp, and all other temps from depth b on are emptied.
    Settle(u32, Completion),
    /// Catch clause, variable, b, d: the clause's variable takes the exception in t(d), and all temps from depth b on are
    /// emptied.
    Enter(ClauseId, u32, u32, u32),
    /// t(d) is tested and emptied.
    Test(u32),
    /// Operator, d, n: takes the n operands from t(d) on and gives t(d).
    Op(Operator, u32, u32),
    /// Field, d, and whether the object is `this`, written or implied: reads the field of the object in t(d) into t(d).
    Get(FieldId, u32, bool),
    /// Field, d, and whether the object is `this`: stores t(d + 1) into the field of the object in t(d), and leaves the
    /// stored value in t(d).
    Put(FieldId, u32, bool),
    /// A cast of t(d) to a reference type.
    Cast(VType, u32),
    /// Field, d: stores t(d) into an owning field of `this`; the value stays in t(d).
    PutOwn(FieldId, u32),
    /// Method, d, number of operands, form of the target: calls the method with the operands from t(d) on. The result is
    /// in t(d).
    Call(MethodId, u32, u32, TargetForm),
    /// Constructor, d, number of operands: makes an object with the operands from t(d + 1) on. The object is in t(d).
    New(MethodId, u32, u32),
    /// Constructor, d, number of operands with `this` among them: calls a constructor of the super class on `this`, in
    /// t(d), with the other operands behind it.
    Super(MethodId, u32, u32),
    /// Throws the object in t(d), known by its static class, where it has one.
    Raise(u32, Option<ClassId>),
    /// Ends the frame.
    End(Completion),
}
