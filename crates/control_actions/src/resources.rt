//! The order in which the resources of a `try` statement are closed.

ghost use Rattle.std.specs.Prelude.{◌≡◌, reverse, IfOk};

use program_model::Resource;
use rlc_base::NoMemory;
use std::alloc::Global;

/// The resources in the order in which they are closed: the opposite of that in which they are opened (JLS 14.20.3.1).
pub fn closing_order(alloc: Global, resources: &[Resource]) -> Result<Vec<Resource>, NoMemory>
    ensures { IfOk result (λ v. v.items ≡ reverse resources.now) }
{
    Ok(resources.iter().rev().copied().collect(alloc)?)
}
