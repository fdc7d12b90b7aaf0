//! The births of a body's entry and of a step, as lists.

ghost use Rattle.std.specs.Prelude.{◌≡◌, ◌<◌, ◌^◌, length, IfOk};
ghost use Rattle.java_cfg.specs.SmallActions.{IsSmallAction};
ghost use Rattle.flow_rules.specs.Births.{births_at_entry};
ghost use Rattle.flow_rules.specs.Room.{HasRoom};
ghost use Rattle.body_origins.specs.Origins.{arc_births};

use control_actions::{Fact, Origin};
use flow_rules::{births, entry_births};
use java_cfg::Arc;
use program_model::{BodyId, Program};
use std::alloc::{AllocError, Global};

/// The births at a body's entry, in order: each origin with its first fact, whose origin has no number yet.
pub fn all_entry_births(
    alloc: Global,
    p: &Program,
    b: BodyId,
) -> Result<Vec<(Origin, Fact)>, AllocError>
    requires room { HasRoom p.now b }
    requires few { length (births_at_entry p.now b) < 2 ^ 32 }
    ensures { IfOk result (λ v. v.items ≡ births_at_entry p.now b) }
{
    let mut found = Vec::new(alloc);
    let mut k: u32 = 0;
    'each: while let Some(birth) = entry_births(p, b, k) {
        found.push(birth)?;
        k += 1;
    }
    Ok(found)
}

/// The births of the step of an arc, in order.
pub fn all_step_births(
    alloc: Global,
    p: &Program,
    b: BodyId,
    arc: &Arc,
) -> Result<Vec<(Origin, Fact)>, AllocError>
    requires room { HasRoom p.now b }
    requires small { IsSmallAction p.now arc.now.action }
    requires few { length (arc_births p.now b arc.now) < 2 ^ 32 }
    ensures { IfOk result (λ v. v.items ≡ arc_births p.now b arc.now) }
{
    let mut found = Vec::new(alloc);
    let mut k: u32 = 0;
    'each: while let Some(birth) = births(p, b, arc.action, arc.edge, arc.pos, k) {
        found.push(birth)?;
        k += 1;
    }
    Ok(found)
}
