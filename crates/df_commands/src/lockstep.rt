//! `lockstep`: the cells of a file are run in phases.
ghost use Rattle.std.specs.Prelude.{◌≡◌, ◌≤◌, ◌++◌, length, IfOk, OnOk, IsErrOf};
ghost use Rattle.df_values.specs.Inputs.{AreValid};
ghost use Rattle.df_cells.specs.Cells.{declarations};
ghost use Rattle.df_cells.specs.WellFormed.{WellFormed};
ghost use Rattle.df_commands.specs.Phased.{EndsAfter, report_of_phases, phases_line, phases_text};
ghost use Rattle.df_commands.specs.Verdicts.{RunInPhases, JudgesLockstep};
ghost use Rattle.df_commands.specs.Judged.{Finds, Settles};

use crate::cell_files::judge_cells;
use crate::plan::Plan;
use crate::report::report;
use crate::runs::judge_input;
use crate::stop::Stop;
use df_cells::cells::Cells;
use df_celltext::version::Version;
use df_histories::tracked::Tracked;
use df_lockstep::phases::lockstep as run_in_lock_step;
use df_machine::runs::RunEnd;
use df_values::bytes::Bytes;
use df_values::memory::Memory;
use df_values::streams::Streams;
use std::alloc::Global;

// The most phases of a run.
const MOST_PHASES: u64 = 1_000_000;

// Cells to be run in phases, with their inputs.
#[derive(Drop)]
struct CellsToRun {
    cells: Cells,
    inputs: Streams,
}

// Judges the texts in their order.
fn judged(alloc: Global, cells: &[u8], input: &[u8]) -> Result<CellsToRun, Stop>
    requires { length input.now ≤ 4294967294 }
    ensures finds { Finds (λ run. RunInPhases run.cells run.inputs.lists) (JudgesLockstep cells.now input.now) result }
    ensures no_fault { IsErrOf result Stop.ReadFault → ⊥ }
    ensures well_formed { IfOk result (λ run. WellFormed run.cells) }
    ensures valid { IfOk result (λ run. AreValid (declarations run.cells) run.inputs.lists) }
{
    let cells = judge_cells(alloc, Version::Two, cells)?;
    let decls = cells.inputs()?;
    let inputs = judge_input(alloc, input, &decls)?;
    Ok(CellsToRun { cells, inputs })
}

// How many phases there were.
fn push_phases(text: &mut Bytes, phases: u64) -> Result<(), Memory>
    ensures { OnOk result (text.new ≡ text.old ++ phases_line phases) }
{
    text.push_text("phases ")?;
    text.push_number(phases)?;
    text.push_text("\n")?;
    Ok(())
}

// The report of a run in phases, how many there were, and whether it ended where no event is possible.
#[derive(Drop)]
struct Phased {
    text: Bytes,
    phases: u64,
    is_drained: bool,
}

// Runs the cells on the inputs in phases. The only error is want of memory.
fn run_cells(alloc: Global, cells: Cells, inputs: Streams) -> Result<Phased, Memory>
    requires well_formed { WellFormed cells }
    requires valid { AreValid (declarations cells) inputs.lists }
    ensures ends { IfOk result (λ ran. EndsAfter cells inputs.lists ran.phases) }
    ensures text { IfOk result (λ ran. ran.text ≡ phases_text cells inputs.lists ran.phases) }
    ensures drained { IfOk result (λ ran. ran.is_drained ≡ (report_of_phases cells inputs.lists ran.phases).drained) }
{
    let mut machine = Tracked::load(alloc, cells, inputs)?;
    let end = run_in_lock_step(&mut machine, MOST_PHASES);
    let mut text = report(
        alloc,
        &machine,
        RunEnd {
            events: end.events,
            drained: end.drained,
        },
    )?;
    push_phases(&mut text, end.phases)?;
    Ok(Phased {
        text,
        phases: end.phases,
        is_drained: end.drained,
    })
}

/// Runs the cells on the inputs in phases, and reports.
pub fn lockstep<'a>(alloc: Global, cells: &[u8], input: &[u8]) -> Result<Plan<'a>, Stop>
    requires { length input.now ≤ 4294967294 }
    ensures settles { Settles (JudgesLockstep cells.now input.now) result }
    ensures no_fault { IsErrOf result Stop.ReadFault → ⊥ }
{
    let CellsToRun { cells, inputs } = judged(alloc, cells, input)?;
    let ran = run_cells(alloc, cells, inputs)?;
    Ok(Plan::of_text(alloc, ran.text, ran.is_drained))
}
