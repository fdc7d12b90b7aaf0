//! The order of refusals: of several that hold, the one at the least place is told, and at one place that with the least
//! code.
#![tactic(auto)]

ghost use Rattle.std.specs.Prelude.{◌≡◌};
ghost use Rattle.refusal_order.specs.Refusals.{is_before, is_less_or, is_place_before_or, least, lesser_of, verdict_of, where_true};

use rlc_base::{Code, Pos, Refusal};

// Whether the first number is the lesser, or the two are equal and `behind` holds.
fn is_less_or(x: u32, y: u32, behind: bool) -> bool
    ensures { result ≡ is_less_or x y behind }
{
    x < y || (x == y && behind)
}

/// Whether the place `x` comes before `y`, by the file, then the line, then the column; at one place, whether `behind`
/// holds.
pub fn is_place_before_or(x: Pos, y: Pos, behind: bool) -> bool
    ensures { result ≡ is_place_before_or x y behind }
{
    is_less_or(
        x.file,
        y.file,
        is_less_or(x.line, y.line, is_less_or(x.col, y.col, behind)),
    )
}

/// Whether the refusal `x` comes before `y`: by the place, and at one place by the number of the code.
pub fn is_before(x: Refusal, y: Refusal) -> bool
    ensures { result ≡ is_before x y }
{
    is_place_before_or(x.pos, y.pos, x.code.number() < y.code.number())
}

/// The lesser of two refusals that may be none. Over lists of refusals it gives the
/// least of a joined list from the least of its parts.
pub fn lesser_of(x: Option<Refusal>, y: Option<Refusal>) -> Option<Refusal>
    ensures { result ≡ lesser_of x y }
{
    match (x, y) {
        (None, _) => y,
        (Some(_), None) => x,
        (Some(first), Some(second)) => { if is_before(second, first) { y } else { x } }
    }
}

/// The refusal, where its case holds.
pub fn where_true(holds: bool, code: Code, pos: Pos) -> Option<Refusal>
    ensures { result ≡ least (where_true holds code pos) }
{
    if holds {
        Some(Refusal { code, pos })
    } else {
        None
    }
}

/// What a pass answers whose least refusal is this.
pub fn verdict_of(least: Option<Refusal>) -> Result<(), Refusal>
    ensures { result ≡ verdict_of least }
{
    match least {
        None => Ok(()),
        Some(refusal) => Err(refusal),
    }
}
