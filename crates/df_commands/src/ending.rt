//! What a command writes to the sink: a text that is at hand, or the lines of a run as its events happen.
ghost use Rattle.std.specs.Prelude.{◌≡◌, ◌==◌, ◌++◌, ℕ, take, IfOk, OnOk, OnErr, IsTrue, IsErrOf};
ghost use Rattle.df_io.specs.Faults.{HasSinkCause};
ghost use Rattle.df_cells.specs.Schedules.{choices_of};
ghost use Rattle.df_cells.specs.Cells.{declarations};
ghost use Rattle.df_cells.specs.WellFormed.{WellFormed};
ghost use Rattle.df_values.specs.Inputs.{AreValid};
ghost use Rattle.df_machine.specs.Events.{possible};
ghost use Rattle.df_machine.specs.Runs.{after};
ghost use Rattle.df_machine.specs.States.{start};
ghost use Rattle.df_trace.specs.Traces.{trace_text};
ghost use Rattle.df_commands.specs.Plans.{said, ends_done};

use df_cells::cells::Cells;
use df_cells::schedules::Schedule;
use df_histories::tracked::Tracked;
use df_io::{Fault, Sink, write_out};
use df_machine::runs::ScheduleChooser;
use df_trace::trace::{Waiting, trace};
use df_values::bytes::Bytes;
use df_values::memory::Memory;
use df_values::streams::Streams;
use std::alloc::Global;
use std::marker::Model;

/// A run that is to be traced: its machine, on which no event was done, its choices, and room for the lines.
#[derive(Drop)]
pub struct TracedRun {
    machine: Tracked,
    schedule: Schedule,
    waiting: Waiting,
}

impl Model for TracedRun {
    ghost use Rattle.std.specs.Prelude.{[], ◌≡◌};
    ghost use Rattle.df_cells.specs.Schedules.{choices_of};
    ghost use Rattle.df_histories.specs.Reached.{IsAfter};
    ghost use Rattle.df_commands.specs.TracedRuns.{Traced};

    ghost Value = { Traced };

    ghost view = { λ r. record { cells = r.machine.cells; inputs = r.machine.inputs; choices = choices_of r.schedule } };

    ghost invariant = { λ r. IsAfter r.machine [] × (r.waiting ≡ []) };
}

impl TracedRun {
    /// The run of the cells on the inputs by a schedule. The only error is want of memory.
    pub fn new(
        alloc: Global,
        cells: Cells,
        inputs: Streams,
        schedule: Schedule,
    ) -> Result<TracedRun, Memory>
        requires well_formed { WellFormed cells }
        requires valid { AreValid (declarations cells) inputs.lists }
        ensures { IfOk result (λ run. run ≡ record { cells = cells; inputs = inputs.lists; choices = choices_of schedule }) }
    {
        Ok(TracedRun {
            machine: Tracked::load(alloc, cells, inputs)?,
            schedule,
            waiting: Waiting::new(alloc)?,
        })
    }

    // Runs it, and writes the lines of its events; gives whether no event is possible at the end.
    fn write<K: Sink>(self, out: &mut K) -> Result<bool, Fault>
        ensures done { IfOk result (λ done. done ≡ (possible self.cells (after self.cells self.inputs self.choices) == 0)) }
        ensures written { IsTrue K.tells → OnOk result (K.written out.new
            ≡ K.written out.old ++ trace_text self.cells self.inputs (start self.cells) self.choices) }
        ensures front { IsTrue K.tells → OnErr result ((n : ℕ) × (K.written out.new
            ≡ K.written out.old ++ take n (trace_text self.cells self.inputs (start self.cells) self.choices))) }
        ensures cause { HasSinkCause (IsErrOf result Fault.Failed) (K.faults out.old) (K.faults out.new) }
    {
        let TracedRun {
            mut machine,
            schedule,
            mut waiting,
        } = self;
        let mut chooser = ScheduleChooser::new(&schedule);
        trace(&mut machine, &mut chooser, &mut waiting, out)
    }
}

/// What a command writes to the sink.
#[derive(Drop)]
pub enum Ending {
    /// This text; and whether the command ends in `Done` then.
    Text { text: Bytes, is_done: bool },
    /// The lines of the events of this run; the command ends in `Done` where no event is possible at its end.
    Trace(TracedRun),
}

/// Writes it, and gives whether the command ends in `Done`. On a fault the front of it was written.
pub fn say<K: Sink>(out: &mut K, ending: Ending) -> Result<bool, Fault>
    ensures done { IfOk result (λ done. done ≡ ends_done ending) }
    ensures written { IsTrue K.tells → OnOk result (K.written out.new ≡ K.written out.old ++ said ending) }
    ensures front { IsTrue K.tells → OnErr result ((n : ℕ) × (K.written out.new ≡ K.written out.old ++ take n (said ending))) }
    ensures cause { HasSinkCause (IsErrOf result Fault.Failed) (K.faults out.old) (K.faults out.new) }
{
    match ending {
        Ending::Text { text, is_done } => {
            write_out(out, text.as_slice())?;
            Ok(is_done)
        }
        Ending::Trace(run) => run.write(out),
    }
}
