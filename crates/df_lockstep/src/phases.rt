//! Phases of a run in lock step.
ghost use Rattle.std.specs.Prelude.{◌≡◌, ◌≢◌, ◌≤◌, ◌<◌, ◌↔◌, ◌++◌, ℕ, List, [], length, replicate, IsTrue};
ghost use Rattle.std.specs.Bool.{OnTrue, OnFalse};
ghost use Rattle.df_labels.specs.Members.{Labels};
ghost use Rattle.df_machine.specs.Events.{enabled, possible};
ghost use Rattle.df_machine.specs.Runs.{after};
ghost use Rattle.df_histories.specs.Reached.{IsAfter};
ghost use Rattle.df_ends.specs.Good.{HasLabelResults, HasWholeResults};
ghost use Rattle.df_lockstep.specs.Phases.{after_phases, choices_of_phases, flight_choices, phase_choices};
ghost use Rattle.df_lockstep.specs.Rates.{phases_at_most};
ghost use Rattle.df_lockstep.specs.Laws.{Covers};

use crate::laws::{drains_in_time, phases_are_runs};
use df_ends::tracked::drained;
use df_histories::tracked::Tracked;
use df_machine::laws::{joins_runs, tells_possible};

/// Lets all enabled cells fire, and tells how many they were.
fn fire_all(t: &mut Tracked) -> u32
    ensures machine { t.new ≡ record t.old { state = t.new.state } }
    ensures count { (choices : List ℕ) → IsAfter t.old choices
        → result ≡ length (enabled t.old.cells (after t.old.cells t.old.inputs choices)) }
    ensures reached { (choices : List ℕ) → IsAfter t.old choices → IsAfter t.new (choices ++ replicate result 0) }
{
    tells_possible();
    let cells = t.machine().enabled_picks().count();
    for _ in 0..cells {
        match t.step(0) {
            Ok(_) => (),
            Err(_) => (),
        }
    }
    cells
}

/// Takes all packets that are in flight now, the oldest first, and tells how many they were.
fn take_flight(t: &mut Tracked) -> u32
    ensures machine { t.new ≡ record t.old { state = t.new.state } }
    ensures count { (choices : List ℕ) → IsAfter t.old choices
        → result ≡ length (after t.old.cells t.old.inputs choices).packets }
    ensures reached { (choices : List ℕ) → IsAfter t.old choices
        → IsAfter t.new (choices ++ flight_choices t.old.cells t.old.inputs (after t.old.cells t.old.inputs choices)) }
{
    tells_possible();
    joins_runs();
    let packets = t.machine().packet_picks().count();
    for _ in 0..packets {
        // Firings come first among the possible events, so this is the place of the oldest packet.
        let choice = t.machine().enabled_picks().count();
        match t.step(choice) {
            Ok(_) => (),
            Err(_) => (),
        }
    }
    packets
}

/// Does one phase, and tells how many events it had.
pub fn phase(t: &mut Tracked) -> u64
    ensures machine { t.new ≡ record t.old { state = t.new.state } }
    // Whatever choices led here, those of a phase from there come behind them.
    ensures reached { (choices : List ℕ) → IsAfter t.old choices
        → IsAfter t.new (choices ++ phase_choices t.old.cells t.old.inputs (after t.old.cells t.old.inputs choices)) }
    ensures events { (choices : List ℕ) → IsAfter t.old choices
        → result ≡ length (phase_choices t.old.cells t.old.inputs (after t.old.cells t.old.inputs choices)) }
    ensures few { result ≤ 12884901885 }
    ensures quiet { t.new.state.packets ≡ [] }
    // It is empty exactly where no event is possible, and then it changes nothing.
    ensures none { (result ≡ 0) ↔ (possible t.old.cells t.old.state ≡ 0) }
    ensures still { result ≡ 0 → t.new ≡ t.old }
{
    joins_runs();
    tells_possible();
    // Its cells are well-formed, and some choices led here.
    let _machine = t.machine();
    let fires = fire_all(t);
    let operations = take_flight(t);
    let deliveries = take_flight(t);
    fires as u64 + operations as u64 + deliveries as u64
}

/// How a run in lock step ended: after so many phases, with so many events, and whether no event was possible then.
#[derive(Clone, Copy, PartialEq, Eq, Debug)]
pub struct LockEnd {
    pub phases: u64,
    pub events: u64,
    pub drained: bool,
}

/// Runs a machine in phases from its start, until no event is possible or `limit` phases were done.
pub fn lockstep(t: &mut Tracked, limit: u64) -> LockEnd
    requires begun { IsAfter t.old [] }
    requires limit { limit ≤ 1073741824 }
    ensures state { t.new ≡ record t.old { state = after_phases t.old.cells t.old.inputs result.phases } }
    ensures reached { IsAfter t.new (choices_of_phases t.old.cells t.old.inputs result.phases) }
    ensures events { result.events ≡ length (choices_of_phases t.old.cells t.old.inputs result.phases) }
    // In each phase an event was possible: an empty one is not counted.
    ensures counted { (k : ℕ) → k < result.phases → possible t.old.cells (after_phases t.old.cells t.old.inputs k) ≢ 0 }
    ensures limited { result.phases ≤ limit }
    ensures drained { IsTrue result.drained ↔ (possible t.new.cells t.new.state ≡ 0) }
    ensures stopped { OnFalse result.drained (result.phases ≡ limit) }
    ensures labels { OnTrue result.drained (HasLabelResults t.new) }
    ensures whole { OnTrue result.drained (HasWholeResults t.new) }
    // Balanced cells without loops that have labels for more firings than these phases have events take no more phases
    // than the bound, and are drained then.
    ensures in_time { (n : ℕ) (labels : Labels) → Covers t.old.cells t.old.inputs n labels
        → (result.phases ≤ phases_at_most t.old.cells) × (phases_at_most t.old.cells ≤ limit → IsTrue result.drained) }
{
    tells_possible();
    phases_are_runs();
    drains_in_time();
    // Its cells are well-formed, and its inputs are valid.
    let _machine = t.machine();
    let mut phases = 0;
    let mut events = 0;
    while phases < limit && t.machine().possible() != 0 {
        events += phase(t);
        phases += 1;
    }
    LockEnd {
        phases,
        events,
        drained: drained(t),
    }
}
