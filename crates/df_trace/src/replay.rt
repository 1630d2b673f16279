//! Runs that are done again from the lines of their events.
ghost use Rattle.std.specs.Bool.{OnTrue, OnFalse};
ghost use Rattle.std.specs.Prelude.{◌≡◌, ◌≢◌, ◌==◌, ◌<◌, ◌≤◌, ◌∷◌, [], ℕ, List, length, IfOk, IfErr, IfSome, IfNone, Some};
ghost use Rattle.std.specs.Option.{option_map};
ghost use Rattle.std.specs.List.{position_or_len};
ghost use Rattle.df_machine.specs.Events.{chosen_event};
ghost use Rattle.df_machine.specs.Runs.{after};
ghost use Rattle.df_histories.specs.Reached.{IsAfter};
ghost use Rattle.df_trace.specs.Lines.{line_of};
ghost use Rattle.df_trace.specs.Traces.{lines_of, IsNoLine, ReplaysAll, Refuses};

use crate::line::{Line, event_line};
use crate::naming::action_in;
use df_histories::tracked::Tracked;
use df_machine::laws::{events_are_apart, events_are_of_cells, tells_events};
use df_machine::runs::RunEnd;

/// Why a trace isn't replayed.
#[derive(Clone, Copy, PartialEq, Eq, Debug)]
pub enum ReplayAnswer {
    /// This line, counted from 1, is the first that isn't the line of a possible event.
    BadTrace(u32),
}

impl ReplayAnswer {
    /// The number of the line.
    pub fn line(self) -> u32
        ensures { self ≡ ReplayAnswer.BadTrace result }
    {
        match self {
            ReplayAnswer::BadTrace(line) => line,
        }
    }
}

// How many bytes stand before the first line feed; all of them where there is none.
fn line_length(text: &[u8]) -> usize
    ensures length { result ≡ position_or_len (λ b. b == 10) text.now }
    ensures within { result ≤ length text.now }
{
    text.iter().take_while(|byte| **byte != b'\n').count()
}

// The first line of a text, and what stands behind its line feed. None where there is no byte.
fn first_line(text: &[u8]) -> Option<(&[u8], &[u8])>
    ensures line { IfSome result (λ found. lines_of text.now ≡ found.0.now ∷ lines_of found.1.now) }
    ensures shorter { IfSome result (λ found. length found.1.now < length text.now) }
    ensures none { IfNone result (text.now ≡ []) }
{
    if text.is_empty() {
        return None;
    }
    let end = line_length(text);
    if end == text.len() {
        return Some((text, &[]));
    }
    Some((&text[..end], &text[end + 1..]))
}

// Whether two texts are the same.
fn is_same(text: &[u8], other: &[u8]) -> bool
    ensures same { OnTrue result (text.now ≡ other.now) }
    ensures others { OnFalse result (text.now ≢ other.now) }
{
    text == other
}

// The choice whose event has this line. None where no possible event has it.
fn choice_of(t: &Tracked, line: &[u8]) -> Option<u32>
    ensures some { IfSome result (λ k. option_map line_of (chosen_event t.now.cells t.now.state k) ≡ Some line.now) }
    ensures led { IfSome result (λ k. (choices : List ℕ) → IsAfter t.now choices
        → option_map line_of (chosen_event t.now.cells (after t.now.cells t.now.inputs choices) k) ≡ Some line.now) }
    ensures none { IfNone result (IsNoLine t.now.cells t.now.state line.now) }
{
    tells_events();
    events_are_of_cells();
    events_are_apart();
    let machine = t.machine();
    let action = action_in(line)?;
    let choice = machine.place_of(action)?;
    let event = machine.event(choice)?;
    let mut written = Line::new();
    event_line(&event, &mut written);
    if is_same(written.bytes(), line) {
        Some(choice)
    } else {
        None
    }
}

/// Does the events whose lines the text has, in order, on a machine on which no event was done, and gives how many there were and
/// whether no event is possible then. It takes no memory.
///
/// `BadTrace` where a line isn't that of a possible event at its turn, with the number of the first; the events before it were done.
pub fn replay(t: &mut Tracked, text: &[u8]) -> Result<RunEnd, ReplayAnswer>
    requires begun { IsAfter t.old [] }
    requires short { length text.now ≤ 4294967295 }
    ensures done { IfOk result (ReplaysAll t.new (lines_of text.now)) }
    ensures wrong { IfErr result (Refuses t.new (lines_of text.now)) }
    ensures few { IfOk result (λ end. end.events ≤ 4294967295) }
    ensures same { (t.new.cells ≡ t.old.cells) × (t.new.inputs ≡ t.old.inputs) }
{
    let mut rest = text;
    let mut events = 0u32;
    while let Some((line, behind)) = first_line(rest) {
        match choice_of(t, line) {
            Some(choice) => {
                let _event = t.step(choice);
            }
            None => return Err(ReplayAnswer::BadTrace(events + 1)),
        }
        rest = behind;
        events += 1;
    }
    Ok(RunEnd {
        events: u64::from(events),
        drained: t.machine().possible() == 0,
    })
}
