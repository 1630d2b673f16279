//! A run whose lines are written as its events happen.
ghost use Rattle.std.specs.Prelude.{◌≡◌, ◌+◌, ◌≤◌, ◌↔◌, ◌++◌, ◌∷◌, ℕ, List, [], length, take, IfOk, IfSome, IfNone, OnOk, OnErr, IsTrue, IsErrOf};
ghost use Rattle.df_io.specs.Faults.{HasSinkCause};
ghost use Rattle.df_io.specs.Told.{GainsAll};
ghost use Rattle.df_machine.specs.Events.{possible};
ghost use Rattle.df_machine.specs.Runs.{after};
ghost use Rattle.df_machine.specs.States.{start};
ghost use Rattle.df_machine.specs.Turns.{HasNoTurn};
ghost use Rattle.df_histories.specs.Reached.{IsAfter};
ghost use Rattle.df_trace.specs.Traces.{trace_text};
ghost use Rattle.df_trace.specs.Tracing.{Happens, IsMoved};

use crate::line::{Line, event_line};
use df_histories::tracked::Tracked;
use df_io::{Fault, Sink, write_out};
use df_machine::laws::{stays_drained, tells_events, tells_possible};
use df_machine::packets::Event;
use df_machine::runs::Chooser;
use df_values::memory::Memory;
use std::alloc::Global;
use std::marker::Model;

// How many bytes may wait.
const ROOM: usize = 65_536;

/// Lines that wait to be written, at most 65,536 bytes, with all their room.
#[derive(Drop)]
pub struct Waiting {
    bytes: Vec<u8>,
}

impl Model for Waiting {
    ghost use Rattle.std.specs.Prelude.{ℕ, List, ◌≤◌};
    ghost use Rattle.std.specs.Vec.{vec_capacity};

    ghost Value = { List ℕ };

    ghost view = { λ w. w.bytes.items };

    ghost invariant = { λ w. 65_536 ≤ vec_capacity w.bytes };
}

impl Waiting {
    /// None yet. The only error is want of memory.
    pub fn new(alloc: Global) -> Result<Waiting, Memory>
        ensures { IfOk result (λ waiting. waiting ≡ []) }
    {
        Ok(Waiting {
            bytes: Vec::with_capacity(alloc, ROOM)?,
        })
    }

    // Adds a line with a line feed.
    fn add(&mut self, line: &Line)
        requires { length self.old + 65 ≤ 65_536 }
        ensures { self.new ≡ self.old ++ (line.now ++ 10 ∷ []) }
    {
        let _ = self.bytes.extend_from_slice(line.bytes());
        let _ = self.bytes.extend_from_slice(b"\n");
    }

    // Writes what waits, where there is no room for another line.
    fn make_room<K: Sink>(&mut self, out: &mut K) -> Result<(), Fault>
        ensures room { OnOk result (length self.new + 65 ≤ 65_536) }
        ensures written { IsTrue K.tells → OnOk result (IsMoved self.old self.new (K.written out.old) (K.written out.new)) }
        ensures front { IsTrue K.tells → OnErr result ((n : ℕ) × (K.written out.new ≡ K.written out.old ++ take n self.old)) }
        ensures cause { HasSinkCause (IsErrOf result Fault.Failed) (K.faults out.old) (K.faults out.new) }
    {
        if self.bytes.len() + 65 > ROOM {
            self.write(out)?;
        }
        Ok(())
    }

    // Writes what waits.
    fn write<K: Sink>(&mut self, out: &mut K) -> Result<(), Fault>
        ensures none { OnOk result (self.new ≡ []) }
        ensures written { IsTrue K.tells → GainsAll self.old (K.written out.old) (K.written out.new) result }
        ensures cause { HasSinkCause (IsErrOf result Fault.Failed) (K.faults out.old) (K.faults out.new) }
    {
        write_out(out, self.bytes.as_slice())?;
        self.bytes.clear();
        Ok(())
    }
}

// The next event, by the next choice. None where no event is possible or no choice is left.
fn turn<C: Chooser>(t: &mut Tracked, chooser: &mut C) -> Option<Event>
    ensures some { IfSome result (Happens t.old t.new (C.left chooser.old) (C.left chooser.new)) }
    ensures none { IfNone result (HasNoTurn t.old t.new (C.left chooser.old) (C.left chooser.new)) }
{
    tells_events();
    let machine = t.machine();
    if machine.possible() == 0 {
        return None;
    }
    match chooser.choose(machine) {
        Some(choice) => match t.step(choice) {
            Ok(event) => Some(event),
            Err(_) => None,
        },
        None => None,
    }
}

/// Runs a machine, on which no event was done, by all choices that are left, and writes the line of each event, with a line feed, to
/// the sink: in the order of the events, at the latest when 65,536 bytes wait or the run ends. Gives whether no event is possible
/// then. It takes no memory. On a fault the front of the trace was written.
pub fn trace<C: Chooser, K: Sink>(
    t: &mut Tracked,
    chooser: &mut C,
    waiting: &mut Waiting,
    out: &mut K,
) -> Result<bool, Fault>
    requires begun { IsAfter t.old [] }
    requires empty { waiting.old ≡ [] }
    ensures written { IsTrue K.tells → OnOk result (K.written out.new
        ≡ K.written out.old ++ trace_text t.old.cells t.old.inputs (start t.old.cells) (C.left chooser.old)) }
    ensures front { IsTrue K.tells → OnErr result ((n : ℕ) × (K.written out.new
        ≡ K.written out.old ++ take n (trace_text t.old.cells t.old.inputs (start t.old.cells) (C.left chooser.old)))) }
    ensures drained { IfOk result (λ drained. IsTrue drained
        ↔ (possible t.old.cells (after t.old.cells t.old.inputs (C.left chooser.old)) ≡ 0)) }
    ensures cause { HasSinkCause (IsErrOf result Fault.Failed) (K.faults out.old) (K.faults out.new) }
{
    stays_drained();
    tells_possible();
    let _machine = t.machine();
    let mut line = Line::new();
    while let Some(event) = turn(t, chooser) {
        waiting.make_room(out)?;
        event_line(&event, &mut line);
        waiting.add(&line);
    }
    waiting.write(out)?;
    Ok(t.machine().possible() == 0)
}
