//! The values that static fields begin with.

ghost use Rattle.std.specs.Prelude.{◌≡◌};
ghost use Rattle.java_syntax.specs.ExpressionTrees.{expr_of};
ghost use Rattle.java_annotations.specs.InitialValues.{IsInitial, value_negated, value_of, value_under, value_under_minus, written_value};

use crate::field_values::fits_field;
use java_constants::negate;
use java_literals::{LiteralValue, literal_value};
use java_operator_rules::literal_in;
use java_syntax::{Expr, PrefixOperator};
use program_model::{Literal, OperandType, VType};

// The value of a number under a minus.
fn value_negated(literal: LiteralValue) -> Option<Literal>
    ensures { result ≡ value_negated literal }
{
    match literal {
        LiteralValue::Int(n) => Some(Literal::Number(negate(OperandType::Int, n))),
        LiteralValue::Long(n) => Some(Literal::Number(negate(OperandType::Long, n))),
        LiteralValue::IntLimit => Some(Literal::Number(-2147483648)),
        LiteralValue::LongLimit => Some(Literal::Number(i64::MIN)),
        LiteralValue::Character(_)
        | LiteralValue::Boolean(_)
        | LiteralValue::Text
        | LiteralValue::Null => None,
    }
}

fn value_under_minus(e: &Expr) -> Option<Literal>
    ensures { result ≡ value_under_minus (expr_of e.now) }
{
    match e {
        Expr::Literal { text, .. } => match literal_value(text.bytes()) {
            None => None,
            Some(literal) => value_negated(literal),
        },
        _other => None,
    }
}

fn value_under(operator: PrefixOperator, e: &Expr) -> Option<Literal>
    ensures { result ≡ value_under operator (expr_of e.now) }
{
    match operator {
        PrefixOperator::Minus => value_under_minus(e),
        PrefixOperator::Plus | PrefixOperator::Not | PrefixOperator::Complement => None,
    }
}

/// The value of an expression that is a literal, or a number under a minus; none of another one. Whether it may stand where it
/// does is asked where initialisers are typed.
pub fn value_of(e: &Expr) -> Option<Literal>
    ensures { result ≡ value_of (expr_of e.now) }
{
    match e {
        Expr::Literal { text, .. } => match literal_value(text.bytes()) {
            None => None,
            Some(literal) => Some(literal_in(literal)),
        },
        Expr::Prefix {
            operator,
            operand,
            ..
        } => value_under(*operator, operand),
        _other => None,
    }
}

/// The value that an initialiser is, where it is a literal, or a number under a minus.
pub fn written_value(initializer: &Option<Expr>) -> Option<Literal>
    ensures { result ≡ written_value initializer.now }
{
    match initializer {
        None => None,
        Some(e) => value_of(e),
    }
}

/// The value that a static field of the type begins with where this value is written behind its `=`: none where the type
/// has it not, or where no value is written. Both are refused where initialisers are typed.
pub fn initial_value(vtype: VType, written: Option<Literal>) -> Option<Literal>
    ensures { IsInitial vtype written result }
{
    match written {
        None => None,
        Some(literal) => {
            if fits_field(vtype, literal) {
                Some(literal)
            } else {
                None
            }
        }
    }
}
