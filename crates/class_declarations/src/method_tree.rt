//! What a program has as methods, with its parts as they are written.

ghost use Rattle.std.specs.Prelude.{◌≡◌};
ghost use Rattle.std.specs.Option.{option_copied};
ghost use Rattle.class_order.specs.Declarations.{declaration_of};
ghost use Rattle.class_declarations.specs.Members.{is_abstract_in, kind_of, name_of, modifiers_of, parameters_of, pos_of, receiver_of, result_of, throws_of, written_of};

use class_order::{Declared, has_abstract, has_static};
use java_syntax::{ConstructorDecl, FieldDecl, MethodDecl, Modifier, Name, Param, Typ, Variable};
use program_model::MethodKind;
use rlc_base::Pos;

/// What a program has as a method, by what is written.
#[derive(Clone, Copy)]
pub enum MethodTree<'d> {
    /// A method (JLS 8.4).
    Method(&'d MethodDecl),
    /// A constructor (JLS 8.8).
    Constructor(&'d ConstructorDecl),
    /// The constructor of a class that declares none (JLS 8.8.9), at the class's name.
    ImpliedConstructor(Pos),
    /// A constant of a stub: the declaration of fields, and the field. Reading it is a call of the library.
    Constant(&'d FieldDecl, &'d Variable),
}

impl<'d> MethodTree<'d> {
    /// Its name; empty for a constructor, which has none.
    pub fn name(&self) -> &'d [u8]
        ensures { result.now ≡ name_of (written_of self.now) }
    {
        match *self {
            MethodTree::Method(method) => method.name.text.bytes(),
            MethodTree::Constructor(_) => &[],
            MethodTree::ImpliedConstructor(_) => &[],
            MethodTree::Constant(_, variable) => variable.name.text.bytes(),
        }
    }

    /// The place of its name; that of the class's for a constructor that is not written.
    pub fn pos(&self) -> Pos
        ensures { result ≡ pos_of (written_of self.now) }
    {
        match *self {
            MethodTree::Method(method) => method.name.pos,
            MethodTree::Constructor(constructor) => constructor.name.pos,
            MethodTree::ImpliedConstructor(pos) => pos,
            MethodTree::Constant(_, variable) => variable.name.pos,
        }
    }

    /// Its annotations and modifier words.
    pub fn modifiers(&self) -> &'d [Modifier]
        ensures { result.now ≡ modifiers_of (written_of self.now) }
    {
        match *self {
            MethodTree::Method(method) => method.modifiers.as_slice(),
            MethodTree::Constructor(constructor) => constructor.modifiers.as_slice(),
            MethodTree::ImpliedConstructor(_) => &[],
            MethodTree::Constant(field, _) => field.modifiers.as_slice(),
        }
    }

    /// Whether it is a static method, one of an instance, a constructor or a constant of a stub.
    pub fn kind(&self) -> MethodKind
        ensures { result ≡ kind_of (written_of self.now) }
    {
        match *self {
            MethodTree::Method(method) => {
                if has_static(&method.modifiers) {
                    MethodKind::Static
                } else {
                    MethodKind::Instance
                }
            }
            MethodTree::Constructor(_) => MethodKind::Ctor,
            MethodTree::ImpliedConstructor(_) => MethodKind::Ctor,
            MethodTree::Constant(_, _) => MethodKind::Constant,
        }
    }

    /// Its declared parameters, in order (JLS 8.4.1).
    pub fn parameters(&self) -> &'d [Param]
        ensures { result.now ≡ parameters_of (written_of self.now) }
    {
        match *self {
            MethodTree::Method(method) => method.parameters.as_slice(),
            MethodTree::Constructor(constructor) => constructor.parameters.as_slice(),
            MethodTree::ImpliedConstructor(_) => &[],
            MethodTree::Constant(_, _) => &[],
        }
    }

    /// Its receiver parameter, where one is written (JLS 8.4).
    pub fn receiver(&self) -> Option<&'d Param>
        ensures { option_copied result ≡ receiver_of (written_of self.now) }
    {
        match *self {
            MethodTree::Method(method) => method.receiver.as_ref(),
            MethodTree::Constructor(constructor) => constructor.receiver.as_ref(),
            MethodTree::ImpliedConstructor(_) => None,
            MethodTree::Constant(_, _) => None,
        }
    }

    /// The type of its result; none for `void` and for a constructor (JLS 8.4.5).
    pub fn result(&self) -> Option<&'d Typ>
        ensures { option_copied result ≡ result_of (written_of self.now) }
    {
        match *self {
            MethodTree::Method(method) => method.result.as_ref(),
            MethodTree::Constructor(_) => None,
            MethodTree::ImpliedConstructor(_) => None,
            MethodTree::Constant(field, _) => Some(&field.typ),
        }
    }

    /// The classes of its throws clause, in order (JLS 8.4.6, 8.8.5).
    pub fn throws(&self) -> &'d [Name]
        ensures { result.now ≡ throws_of (written_of self.now) }
    {
        match *self {
            MethodTree::Method(method) => method.throws.as_slice(),
            MethodTree::Constructor(constructor) => constructor.throws.as_slice(),
            MethodTree::ImpliedConstructor(_) => &[],
            MethodTree::Constant(_, _) => &[],
        }
    }

    /// Whether it is abstract in the class that declares it (JLS 8.4.3.1, 9.4). On a method that a class of a stub declares the
    /// word has no effect.
    pub fn is_abstract_in(&self, declared: &Declared) -> bool
        ensures { result ≡ is_abstract_in (declaration_of declared.now) (written_of self.now) }
    {
        match *self {
            MethodTree::Method(method) => {
                declared.declaration.is_interface
                    || (!declared.scope.library && has_abstract(&method.modifiers))
            }
            MethodTree::Constructor(_) => false,
            MethodTree::ImpliedConstructor(_) => false,
            MethodTree::Constant(_, _) => false,
        }
    }
}
