//! Comparisons with the literal `null` (JLS 15.21.3).

ghost use Rattle.std.specs.Prelude.{◌≡◌};
ghost use Rattle.control_actions.specs.NullTests.{compared_with_null, is_null};

use program_model::{BinaryExpression, Body, ExprId, ExpressionKind, Literal};

fn is_null(body: &Body, e: ExprId) -> bool
    ensures { result ≡ is_null body.now e }
{
    match body.expression(e) {
        None => false,
        Some(found) => match &found.kind {
            ExpressionKind::Literal(Literal::Null) => true,
            _ => false,
        },
    }
}

/// The operand that is compared with the literal `null`, in either order: of `null == null` the left one. None where neither
/// operand is that literal.
pub fn compared_with_null(body: &Body, x: BinaryExpression) -> Option<ExprId>
    ensures { result ≡ compared_with_null body.now x }
{
    if is_null(body, x.right) {
        Some(x.left)
    } else if is_null(body, x.left) {
        Some(x.right)
    } else {
        None
    }
}
