//! What holds of the lines of every run of well-formed cells.
ghost use Rattle.df_trace.specs.Laws.{LinesAreApart, LinesLeadToOneState, LinesAreEvents, HaveOneAnswer, HaveSomeAnswer};

use df_machine::laws::{events_are_apart, events_are_of_cells};
use df_values::laws::leads_with_one_number;

/// In one state at most one of the possible events has a given line.
pub fn lines_are_apart()
    ensures { LinesAreApart }
{
    leads_with_one_number();
    events_are_of_cells();
    events_are_apart();
}

/// Where two runs have the same lines, they lead to one state.
pub fn lines_lead_to_one_state()
    ensures { LinesLeadToOneState }
{
    lines_are_apart();
}

/// A run with lines for all its choices has as many events.
pub fn lines_are_events()
    ensures { LinesAreEvents }
{}

/// Lines are those of a run, or one of them is the first that is wrong, and not both.
pub fn traces_have_one_answer()
    ensures { HaveOneAnswer }
{
    lines_are_apart();
}

/// They are one or the other.
pub fn traces_have_some_answer()
    ensures { HaveSomeAnswer }
{}
