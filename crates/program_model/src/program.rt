//! The tables of a program: its classes, methods, fields and bodies, as the front end leaves them.

use crate::kinds::{BodyId, ClassId, FieldId, Literal, MethodId, MethodKind, Target, VType};
use crate::tree::Body;
use rlc_base::{NameId, NameSet, Names, Pos, Text};

/// A whole program: the classes of the stubs and of the sources, with the typed bodies of the latter. A table without
/// bodies is one too.
#[derive(Drop)]
pub struct Program {
    pub classes: Vec<Class>,
    pub methods: Vec<Method>,
    pub fields: Vec<Field>,
    pub bodies: Vec<Body>,
    /// The classes whose exceptions are ignored, each with its subclasses.
    pub ignored: Vec<ClassId>,
    /// The classes whose exceptions are ignored, each without its subclasses. Empty under settings of version 1.
    pub exact: Vec<ClassId>,
    /// The names of must-call sets, promises and preconditions.
    pub names: Names,
    pub core: CoreClasses,
}

/// The classes of `java.lang` that the language itself names: the root of all classes (JLS 4.3.2), the type of string
/// literals, the roots of the exceptions (JLS 11.1.1), and those that operators throw (JLS 15.6).
#[derive(Clone, Copy)]
pub struct CoreClasses {
    pub object: ClassId,
    pub string: ClassId,
    pub throwable: ClassId,
    pub error: ClassId,
    pub runtime_exception: ClassId,
    pub arithmetic_exception: ClassId,
    pub array_index_exception: ClassId,
    pub class_cast_exception: ClassId,
    pub negative_array_size_exception: ClassId,
    pub null_pointer_exception: ClassId,
}

/// A class or interface.
#[derive(Drop)]
pub struct Class {
    /// The qualified name.
    pub name: Text,
    /// The place of the declaration's name.
    pub pos: Pos,
    /// A stub declares it.
    pub library: bool,
    pub interface: bool,
    /// Always true for an interface.
    pub is_abstract: bool,
    pub is_final: bool,
    /// The direct super class: none for `Object` and for an interface.
    pub sup: Option<ClassId>,
    /// The direct super interfaces (JLS 8.1.5, 9.1.3).
    pub faces: Vec<ClassId>,
    /// Its own fields, in textual order.
    pub fields: Vec<FieldId>,
    /// Its own methods, constructors and constants, in textual order.
    pub methods: Vec<MethodId>,
    /// The class and all classes above it, each once, in class order.
    pub above: Vec<ClassId>,
    pub annos: Vec<RawAnno>,
    /// The set of its own `@InheritableMustCall`, once the signatures are read.
    pub own_must: Option<NameSet>,
    /// Its must-call set, empty until the signatures are read.
    pub must: NameSet,
}

/// A field of a program class.
#[derive(Drop)]
pub struct Field {
    pub class: ClassId,
    pub name: Text,
    pub vtype: VType,
    pub is_static: bool,
    pub is_final: bool,
    pub is_private: bool,
    /// `@Owning` stands on it.
    pub owning: bool,
    pub annos: Vec<RawAnno>,
    /// The place of the declared name.
    pub pos: Pos,
    /// The value that a static field begins with: none where it has no initialiser and begins with its type's default
    /// (JLS 4.12.5), and none for an instance field.
    pub initial: Option<Literal>,
}

/// A method, constructor or library constant.
#[derive(Drop)]
pub struct Method {
    pub class: ClassId,
    /// Empty for a constructor.
    pub name: Text,
    pub sig: Sig,
    pub kind: MethodKind,
    pub is_private: bool,
    pub is_final: bool,
    pub is_abstract: bool,
    pub body: Option<BodyId>,
    pub annos: Vec<RawAnno>,
    /// The place of the declared name, and that of the class's name for a constructor that is not written.
    pub pos: Pos,
}

/// A signature with its effective marks. All but the types and the throws clause is filled when the signatures are
/// read; positions count the receiver as 0 and the k-th declared parameter as k.
#[derive(Drop)]
pub struct Sig {
    /// The declared parameters: parameter k stands at k - 1.
    pub params: Vec<ParamSig>,
    /// `this`, of the method's class. A static method has one too, which no rule reads.
    pub receiver: ParamSig,
    /// None for `void` and for a constructor.
    pub result: Option<VType>,
    pub throws: Vec<ClassId>,
    pub owning_result: bool,
    /// The position whose resource the result, or the constructed object, is an alias of.
    pub alias: Option<u32>,
    /// The set that a fresh result starts with, where the signature bounds it.
    pub first: Option<NameSet>,
    /// The position whose obligation the call creates anew.
    pub reset: Option<u32>,
    /// What the call has called when it ends normally.
    pub promises: Vec<Promise>,
    /// What the call has called when it ends by an exception.
    pub on_throw: Vec<Promise>,
    /// The name of an instance method without parameters, where the name table holds it.
    pub interest: Option<NameId>,
}

/// A parameter of a signature.
#[derive(Drop)]
pub struct ParamSig {
    pub vtype: VType,
    pub owning: bool,
    /// The methods that must have been called before (`@CalledMethods`).
    pub before: NameSet,
    pub annos: Vec<RawAnno>,
}

/// A promise that named methods are called on a target.
#[derive(Clone, Copy)]
pub struct Promise {
    pub target: Target,
    pub names: NameSet,
}

/// An annotation as it stands in the text, known by the last identifier of its name.
#[derive(Drop)]
pub struct RawAnno {
    pub name: Text,
    /// Empty where `shaped` is false.
    pub args: Vec<RawArg>,
    /// False exactly where the arguments have not the form that belongs to the annotation's name (Checker Framework,
    /// Resource Leak Checker): one text or a list for `InheritableMustCall` and `CalledMethods`; a list for `MustCall`; no
    /// arguments for `Owning`, `NotOwning` and `MustCallAlias`; none, or the text `this` or `#k` with a number k, for
    /// `CreatesMustCallFor`; both `value` and `methods`, each a text or a list, for `EnsuresCalledMethods` and
    /// `EnsuresCalledMethodsOnException`. Under any other name every argument has.
    pub shaped: bool,
    pub pos: Pos,
}

/// A value of an annotation, with the key `value` where none is written.
#[derive(Drop)]
pub struct RawArg {
    pub key: Text,
    pub values: Vec<Text>,
}
