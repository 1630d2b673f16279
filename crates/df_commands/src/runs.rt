//! Runs of cells: the judging of their inputs and schedule, and the report.
ghost use Rattle.std.specs.Prelude.{◌≡◌, ◌≤◌, length, map, List, Ok, IfOk, IfErr, IsErrOf};
ghost use Rattle.df_values.specs.Inputs.{AreValid};
ghost use Rattle.df_values.specs.declared.values.Value.{Value};
ghost use Rattle.df_cells.specs.declared.schedules.Schedule as schedule_meant;
ghost use Rattle.df_cells.specs.Cells.{declaration_of, declarations};
ghost use Rattle.df_cells.specs.WellFormed.{WellFormed};
ghost use Rattle.df_iotext.specs.Inputs.{HaveOwnNames};
ghost use Rattle.df_commands.specs.Compiled.{run_of};
ghost use Rattle.df_commands.specs.Ready.{HasFewChoices};
ghost use Rattle.df_commands.specs.Reports.{report_text};
ghost use Rattle.df_commands.specs.Texts.{ReadsInputText, ReadsScheduleText};
ghost use Rattle.df_commands.specs.Verdicts.{Task, JudgesInputs};
ghost use Rattle.df_commands.specs.Judged.{GivesMeaning, StopsAs};

use crate::refusals::{refused_at, refused_input};
use crate::report::report;
use crate::stop::Stop;
use df_cells::cells::{Cells, InputDecl};
use df_cells::schedules::Schedule;
use df_histories::tracked::{Tracked, run_tracked};
use df_iotext::inputs::read_inputs;
use df_iotext::schedules::{ScheduleAnswer, read_schedule};
use df_machine::laws::tells_short_runs;
use df_machine::runs::ScheduleChooser;
use df_values::bytes::Bytes;
use df_values::memory::Memory;
use df_values::streams::Streams;
use std::alloc::Global;

// As many choices as a schedule may have, its drain counted.
const MOST_EVENTS: u64 = 1_001_000_000;

/// The inputs that are declared.
pub fn judge_input(alloc: Global, text: &[u8], decls: &Vec<InputDecl>) -> Result<Streams, Stop>
    requires names { HaveOwnNames decls.now.items }
    requires short { length text.now ≤ 4294967294 }
    ensures gives { GivesMeaning (λ inputs. inputs.lists) result (ReadsInputText decls.now.items text.now) }
    ensures valid { IfOk result (λ inputs. AreValid (map declaration_of decls.now.items) inputs.lists) }
{
    match read_inputs(alloc, text, decls) {
        Ok(inputs) => Ok(inputs),
        Err(answer) => Err(Stop::Refused(refused_input(alloc, &answer)?)),
    }
}

fn judge_schedule(alloc: Global, text: &[u8]) -> Result<Schedule, Stop>
    ensures { GivesMeaning (λ schedule. schedule) result (ReadsScheduleText text.now) }
{
    match read_schedule(alloc, text) {
        Ok(schedule) => Ok(schedule),
        Err(ScheduleAnswer::BadSchedule(word)) => {
            Err(Stop::Refused(refused_at(alloc, "BadSchedule", word)?))
        }
        Err(ScheduleAnswer::Memory) => Err(Stop::Memory),
    }
}

/// The inputs and the schedule of a run.
#[derive(Drop)]
pub struct RunTexts {
    pub inputs: Streams,
    pub schedule: Schedule,
}

/// Judges the inputs that are declared and then the schedule.
pub fn judged_inputs(
    alloc: Global,
    decls: &Vec<InputDecl>,
    input: &[u8],
    schedule: &[u8],
) -> Result<RunTexts, Stop>
    requires names { HaveOwnNames decls.now.items }
    requires short { length input.now ≤ 4294967294 }
    ensures inputs { IfOk result (λ run. ReadsInputText decls.now.items input.now (Ok run.inputs.lists)) }
    ensures valid { IfOk result (λ run. AreValid (map declaration_of decls.now.items) run.inputs.lists) }
    ensures schedule { IfOk result (λ run. ReadsScheduleText schedule.now (Ok run.schedule)) }
    ensures stops { IfErr result (λ why. (task : List (List Value) → schedule_meant.Schedule → Task)
        → StopsAs (JudgesInputs decls.now.items input.now schedule.now task) why) }
    ensures no_fault { IsErrOf result Stop.ReadFault → ⊥ }
{
    let inputs = judge_input(alloc, input, decls)?;
    let schedule = judge_schedule(alloc, schedule)?;
    Ok(RunTexts { inputs, schedule })
}

/// The report of a run, and whether it ended where no event is possible.
#[derive(Drop)]
pub struct Ran {
    pub text: Bytes,
    pub is_drained: bool,
}

/// Runs the cells on the inputs by a schedule. The only error is want of memory.
pub fn run_cells(
    alloc: Global,
    cells: Cells,
    inputs: Streams,
    schedule: &Schedule,
) -> Result<Ran, Memory>
    requires well_formed { WellFormed cells }
    requires valid { AreValid (declarations cells) inputs.lists }
    requires few { HasFewChoices schedule.now }
    ensures text { IfOk result (λ ran. ran.text ≡ report_text (run_of cells inputs.lists schedule.now)) }
    ensures drained { IfOk result (λ ran. ran.is_drained ≡ (run_of cells inputs.lists schedule.now).drained) }
{
    tells_short_runs();
    let mut machine = Tracked::load(alloc, cells, inputs)?;
    let end = run_tracked(
        &mut machine,
        &mut ScheduleChooser::new(schedule),
        MOST_EVENTS,
    );
    Ok(Ran {
        text: report(alloc, &machine, end)?,
        is_drained: end.drained,
    })
}
