//! `replay`: the cells of a file are run by the lines of a trace.
ghost use Rattle.std.specs.Prelude.{◌≡◌, ◌≤◌, length, IfOk, IsErrOf};
ghost use Rattle.df_values.specs.Inputs.{AreValid};
ghost use Rattle.df_cells.specs.Cells.{declarations};
ghost use Rattle.df_cells.specs.WellFormed.{WellFormed};
ghost use Rattle.df_trace.specs.Traces.{lines_of};
ghost use Rattle.df_commands.specs.Replayed.{IsRunByLines};
ghost use Rattle.df_commands.specs.Texts.{ReadsTraceFile};
ghost use Rattle.df_commands.specs.Verdicts.{JudgesReplay};
ghost use Rattle.df_commands.specs.Judged.{GivesMeaning, Settles};

use crate::cell_files::judge_cells;
use crate::plan::Plan;
use crate::refusals::refused_at;
use crate::report::report;
use crate::runs::{Ran, judge_input};
use crate::stop::Stop;
use df_cells::cells::Cells;
use df_celltext::version::Version;
use df_histories::tracked::Tracked;
use df_machine::laws::{tells_events, tells_short_runs};
use df_trace::laws::lines_are_events;
use df_trace::replay::replay as replay_lines;
use df_values::streams::Streams;
use std::alloc::Global;

// Runs the cells by the lines of a trace, as long as they are those of possible events.
fn run_lines(alloc: Global, cells: Cells, inputs: Streams, trace: &[u8]) -> Result<Ran, Stop>
    requires well_formed { WellFormed cells }
    requires valid { AreValid (declarations cells) inputs.lists }
    requires short { length trace.now ≤ 67_108_864 }
    ensures gives { GivesMeaning (λ ran. lines_of trace.now) result (ReadsTraceFile cells inputs.lists trace.now) }
    ensures does { IfOk result (λ ran. IsRunByLines cells inputs.lists (lines_of trace.now) ran.text ran.is_drained) }
{
    tells_short_runs();
    tells_events();
    lines_are_events();
    let mut machine = Tracked::load(alloc, cells, inputs)?;
    match replay_lines(&mut machine, trace) {
        Ok(end) => Ok(Ran {
            text: report(alloc, &machine, end)?,
            is_drained: end.drained,
        }),
        Err(answer) => {
            let line = refused_at(alloc, "BadTrace", answer.line())?;
            Err(Stop::Refused(line))
        }
    }
}

/// Runs the cells on the inputs by the lines of the trace, and reports.
pub fn replay<'a>(alloc: Global, cells: &[u8], input: &[u8], trace: &[u8]) -> Result<Plan<'a>, Stop>
    requires input { length input.now ≤ 4294967294 }
    requires trace { length trace.now ≤ 67_108_864 }
    ensures settles { Settles (JudgesReplay cells.now input.now trace.now) result }
    ensures no_fault { IsErrOf result Stop.ReadFault → ⊥ }
{
    let cells = judge_cells(alloc, Version::Two, cells)?;
    let decls = cells.inputs()?;
    let inputs = judge_input(alloc, input, &decls)?;
    let ran = run_lines(alloc, cells, inputs, trace)?;
    Ok(Plan::of_text(alloc, ran.text, ran.is_drained))
}
