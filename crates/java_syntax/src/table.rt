ghost use Rattle.std.specs.Prelude.{◌≡◌};
ghost use Rattle.java_syntax.specs.Table.{body_of};

use crate::declarations::declaration_body;
use crate::expressions::expression_body;
use crate::productions::Production;
use crate::statements::statement_body;
use crate::symbols::Item;

/// The items of a production, from the left.
pub fn body(production: Production) -> &'static [Item]
    ensures { result.now ≡ body_of production }
{
    match production {
        Production::Declare(production) => declaration_body(production),
        Production::State(production) => statement_body(production),
        Production::Compute(production) => expression_body(production),
    }
}
