//! The least of refusals.

ghost use Rattle.std.specs.Prelude.{◌≡◌};
ghost use Rattle.refusal_order.specs.Refusals.{least};

use refusal_order::lesser_of;
use rlc_base::Refusal;

/// The refusal at the least place, and at one place that with the least code; none of none.
pub fn least(refusals: &[Refusal]) -> Option<Refusal>
    ensures { result ≡ least refusals.now }
{
    let mut found = None;
    for refusal in refusals {
        found = lesser_of(found, Some(*refusal));
    }
    found
}
