//! Generated worlds: processes that count one word up, each a hundred times, under one lock and through one
//! confined call each time (`docs/FORMATS.md`, "Generated worlds").
#![tactic(auto)]

mod contents;
mod processes;
mod steps;

ghost use Rattle.std.specs.Prelude.{◌≡◌, ◌<◌, ◌≤◌, IfOk};
ghost use Rattle.hk_model.specs.Limits.{process_limit};
ghost use Rattle.hk_model.specs.Generated.{generate};
ghost use Rattle.hk_gen.specs.ConfinedCalls.{AllCallsConfined};
ghost use Rattle.hk_gen.specs.WholeRuns.{WholeRunsEnd};

use crate::contents::objects;
use crate::processes::processes;
use crate::steps::codes;
use hk_model::limits::EVENT_LIMIT;
use hk_model::{NoMemory, World};
use std::alloc::Global;

/// The generated world of so many processes, 1 to 256 (`docs/FORMATS.md`, "Generated worlds"). `NoMemory` is want
/// of memory.
pub fn generate(alloc: Global, count: u32) -> Result<World, NoMemory>
    requires some { 0 < count }
    requires few { count ≤ process_limit }
    ensures { IfOk result (λ w. w ≡ generate count) }
{
    let objects = objects(alloc)?;
    let codes = codes(alloc)?;
    let processes = processes(alloc, count)?;
    Ok(World::new(EVENT_LIMIT, objects, codes, processes))
}

/// Each call of the generated world of `count` processes is confined (`docs/FORMATS.md`, "Generated worlds"), in every
/// history of it, whichever processors made its lines. The function does nothing; its contract is the law.
pub fn confined_calls_law(count: u32)
    ensures { AllCallsConfined (generate count) }
{}

/// Each whole run of the generated world of `count` processes, at most 256, on processor 0 ends with every process ended
/// (`docs/FORMATS.md`, "Generated worlds"). The function does nothing; its contract is the law.
pub fn whole_runs_end_law(count: u32)
    requires few { count ≤ process_limit }
    ensures { WholeRunsEnd (generate count) }
{}
