//! The words before a declaration.

ghost use Rattle.std.specs.Prelude.{◌≡◌};
ghost use Rattle.class_order.specs.Modifiers.{has_abstract, has_final, has_private, has_static, is_abstract_word, is_final_word, is_private_word, is_static_word};

use java_syntax::Modifier;

fn is_static_word(modifier: &Modifier) -> bool
    ensures { result ≡ is_static_word modifier.now }
{
    matches!(modifier, Modifier::Static)
}

fn is_private_word(modifier: &Modifier) -> bool
    ensures { result ≡ is_private_word modifier.now }
{
    matches!(modifier, Modifier::Private)
}

fn is_final_word(modifier: &Modifier) -> bool
    ensures { result ≡ is_final_word modifier.now }
{
    matches!(modifier, Modifier::Final)
}

fn is_abstract_word(modifier: &Modifier) -> bool
    ensures { result ≡ is_abstract_word modifier.now }
{
    matches!(modifier, Modifier::Abstract)
}

/// Whether `static` stands before a declaration (JLS 8.3.1.1, 8.4.3.2).
pub fn has_static(modifiers: &[Modifier]) -> bool
    ensures { result ≡ has_static modifiers.now }
{
    modifiers.iter().any(|m| is_static_word(m))
}

/// Whether `private` stands before a declaration (JLS 6.6.1).
pub fn has_private(modifiers: &[Modifier]) -> bool
    ensures { result ≡ has_private modifiers.now }
{
    modifiers.iter().any(|m| is_private_word(m))
}

/// Whether `final` stands before a declaration (JLS 8.1.1.2, 8.3.1.2, 8.4.3.3).
pub fn has_final(modifiers: &[Modifier]) -> bool
    ensures { result ≡ has_final modifiers.now }
{
    modifiers.iter().any(|m| is_final_word(m))
}

/// Whether `abstract` stands before a declaration (JLS 8.1.1.1, 8.4.3.1).
pub fn has_abstract(modifiers: &[Modifier]) -> bool
    ensures { result ≡ has_abstract modifiers.now }
{
    modifiers.iter().any(|m| is_abstract_word(m))
}
