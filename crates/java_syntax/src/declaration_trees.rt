use crate::annotation_trees::Modifier;
use crate::expression_trees::Expr;
use crate::names::{Name, Typ};
use crate::statement_trees::{Block, Variable};
use rlc_base::{Pos, Text};

/// A source file (JLS 7.3), or a section of a stub file.
#[derive(Drop)]
pub struct Unit {
    /// The name of its package; empty where none is written.
    pub package: Text,
    /// Its imports, in order.
    pub imports: Vec<Import>,
    /// Its classes and interfaces, in order.
    pub types: Vec<ClassDecl>,
}

/// An import (JLS 7.5).
#[derive(Drop)]
pub struct Import {
    /// The name of the class, or with `star` that of the package.
    pub name: Text,
    /// `.*` stands behind the name.
    pub star: bool,
    /// The place of the word `import`.
    pub pos: Pos,
}

/// A class or an interface (JLS 8.1, 9.1). Its place is that of its name.
#[derive(Drop)]
pub struct ClassDecl {
    /// Its annotations and modifier words, in order.
    pub modifiers: Vec<Modifier>,
    /// It is an interface.
    pub is_interface: bool,
    /// Its name.
    pub name: Name,
    /// What a class extends.
    pub superclass: Option<Name>,
    /// What a class implements, or an interface extends, in order.
    pub interfaces: Vec<Name>,
    /// Its members, in order.
    pub members: Vec<Member>,
}

/// A member of a class or an interface.
#[derive(Drop)]
pub enum Member {
    /// Fields.
    Field(FieldDecl),
    /// A method.
    Method(MethodDecl),
    /// A constructor.
    Constructor(ConstructorDecl),
}

/// A declaration of fields (JLS 8.3).
#[derive(Drop)]
pub struct FieldDecl {
    /// Its annotations and modifier words, in order.
    pub modifiers: Vec<Modifier>,
    /// The type of all its fields.
    pub typ: Typ,
    /// The fields, one at least, in order.
    pub variables: Vec<Variable>,
}

/// A parameter (JLS 8.4.1). Its place is that of its name.
#[derive(Drop)]
pub struct Param {
    /// Its annotations and `final`, in order.
    pub modifiers: Vec<Modifier>,
    /// Its type.
    pub typ: Typ,
    /// Its name; of a receiver parameter the word `this`.
    pub name: Name,
}

/// A method (JLS 8.4). Its place is that of its name.
#[derive(Drop)]
pub struct MethodDecl {
    /// Its annotations and modifier words, in order.
    pub modifiers: Vec<Modifier>,
    /// The type of its result; none for `void`.
    pub result: Option<Typ>,
    /// Its name.
    pub name: Name,
    /// Its receiver parameter, which is no declared parameter.
    pub receiver: Option<Param>,
    /// Its declared parameters, in order.
    pub parameters: Vec<Param>,
    /// The classes of its throws clause, in order.
    pub throws: Vec<Name>,
    /// Its body; none where `;` stands in its place.
    pub body: Option<Block>,
}

/// A constructor (JLS 8.8). Its place is that of its name.
#[derive(Drop)]
pub struct ConstructorDecl {
    /// Its annotations and modifier words, in order.
    pub modifiers: Vec<Modifier>,
    /// Its name, which is that of its class.
    pub name: Name,
    /// Its receiver parameter, which is no declared parameter.
    pub receiver: Option<Param>,
    /// Its declared parameters, in order.
    pub parameters: Vec<Param>,
    /// The classes of its throws clause, in order.
    pub throws: Vec<Name>,
    /// Its body; none where `;` stands in its place.
    pub body: Option<ConstructorBody>,
}

/// The body of a constructor (JLS 8.8.7).
#[derive(Drop)]
pub struct ConstructorBody {
    /// The call of a constructor of the super class that it begins with, where it is written.
    pub super_call: Option<SuperCall>,
    /// The statements behind that call.
    pub block: Block,
}

/// `super(..);` at the begin of a constructor (JLS 8.8.7.1).
#[derive(Drop)]
pub struct SuperCall {
    /// Its arguments, in order.
    pub arguments: Vec<Expr>,
    /// The place of the word `super`.
    pub pos: Pos,
}
