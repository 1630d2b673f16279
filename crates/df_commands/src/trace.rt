//! `trace`: the cells of a file are run, and the line of each event is written as it happens.
ghost use Rattle.std.specs.Prelude.{◌≤◌, length, IsErrOf};
ghost use Rattle.df_commands.specs.Verdicts.{JudgesTrace};
ghost use Rattle.df_commands.specs.Judged.{Settles};

use crate::ending::{Ending, TracedRun};
use crate::plan::Plan;
use crate::run::{CellsToRun, judged};
use crate::stop::Stop;
use std::alloc::Global;

/// Runs the cells on the inputs by the schedule, and tells the events.
pub fn trace<'a>(
    alloc: Global,
    cells: &[u8],
    input: &[u8],
    schedule: &[u8],
) -> Result<Plan<'a>, Stop>
    requires { length input.now ≤ 4294967294 }
    ensures settles { Settles (JudgesTrace cells.now input.now schedule.now) result }
    ensures no_fault { IsErrOf result Stop.ReadFault → ⊥ }
{
    let CellsToRun { cells, texts } = judged(alloc, cells, input, schedule)?;
    let run = TracedRun::new(alloc, cells, texts.inputs, texts.schedule)?;
    Ok(Plan::of_ending(alloc, Ending::Trace(run)))
}
