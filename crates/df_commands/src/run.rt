//! `run`: the cells of a file are run.
ghost use Rattle.std.specs.Prelude.{◌≤◌, length, List, IfOk, IsErrOf};
ghost use Rattle.df_values.specs.declared.values.Value.{Value};
ghost use Rattle.df_cells.specs.declared.cells.Cell.{Cell};
ghost use Rattle.df_cells.specs.declared.schedules.Schedule as schedule_meant;
ghost use Rattle.df_values.specs.Inputs.{AreValid};
ghost use Rattle.df_cells.specs.Cells.{declarations};
ghost use Rattle.df_cells.specs.WellFormed.{WellFormed};
ghost use Rattle.df_commands.specs.Ready.{HasFewChoices};
ghost use Rattle.df_commands.specs.Verdicts.{Task, JudgesCells, JudgesRun};
ghost use Rattle.df_commands.specs.Judged.{Finds, Settles};

use crate::cell_files::judge_cells;
use crate::plan::Plan;
use crate::runs::{RunTexts, judged_inputs, run_cells};
use crate::stop::Stop;
use df_cells::cells::Cells;
use df_celltext::version::Version;
use std::alloc::Global;

/// Cells to be run, with the texts of the run.
#[derive(Drop)]
pub struct CellsToRun {
    pub cells: Cells,
    pub texts: RunTexts,
}

/// Judges the texts in their order, whatever the task is that they complete.
pub fn judged(
    alloc: Global,
    cells: &[u8],
    input: &[u8],
    schedule: &[u8],
) -> Result<CellsToRun, Stop>
    requires { length input.now ≤ 4294967294 }
    ensures finds { (task : List Cell → List (List Value) → schedule_meant.Schedule → Task)
        → Finds (λ run. task run.cells run.texts.inputs.lists run.texts.schedule) (JudgesCells cells.now input.now schedule.now task) result }
    ensures no_fault { IsErrOf result Stop.ReadFault → ⊥ }
    ensures well_formed { IfOk result (λ run. WellFormed run.cells) }
    ensures valid { IfOk result (λ run. AreValid (declarations run.cells) run.texts.inputs.lists) }
    ensures few { IfOk result (λ run. HasFewChoices run.texts.schedule) }
{
    let cells = judge_cells(alloc, Version::Two, cells)?;
    let decls = cells.inputs()?;
    let texts = judged_inputs(alloc, &decls, input, schedule)?;
    Ok(CellsToRun { cells, texts })
}

/// Runs the cells on the inputs by the schedule, and reports.
pub fn run<'a>(alloc: Global, cells: &[u8], input: &[u8], schedule: &[u8]) -> Result<Plan<'a>, Stop>
    requires { length input.now ≤ 4294967294 }
    ensures settles { Settles (JudgesRun cells.now input.now schedule.now) result }
    ensures no_fault { IsErrOf result Stop.ReadFault → ⊥ }
{
    let CellsToRun { cells, texts } = judged(alloc, cells, input, schedule)?;
    let ran = run_cells(alloc, cells, texts.inputs, &texts.schedule)?;
    Ok(Plan::of_text(alloc, ran.text, ran.is_drained))
}
