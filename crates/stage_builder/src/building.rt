//! Builds the plan of a script.
ghost use Rattle.std.specs.Prelude.{IfOk};
ghost use Rattle.script_defs.specs.Plans.{IsPlan};
ghost use Rattle.script_defs.specs.Reading.{nothing_known};
ghost use Rattle.script_defs.specs.Sound.{IsSound};
ghost use Rattle.stage_builder.specs.Views.{plan_in};

use crate::drafts::add_stages;
use crate::lines::Lines;
use crate::marks::{mark, readers_among};
use crate::plan::Plan;
use crate::work::work_of;
use dia_edge::NoMemory;
use script_read::Script;
use std::alloc::Global;

/// The plan of an accepted script.
pub fn build<'s>(alloc: Global, script: &'s Script) -> Result<Plan<'s>, NoMemory>
    requires { IsSound nothing_known 1 script.now }
    ensures { IfOk result (λ plan. IsPlan script.now (plan_in plan)) }
{
    let lines = Lines::of(alloc, script)?;
    let items = work_of(alloc, lines.script)?;
    let mut stages = Vec::new(alloc);
    add_stages(alloc, &lines, items.as_slice(), &mut stages)?;
    let readers = readers_among(alloc, stages.as_slice())?;
    let mut left = readers.copy(alloc)?;
    mark(stages.as_mut_slice(), &readers, &mut left);
    Ok(Plan { stages })
}
