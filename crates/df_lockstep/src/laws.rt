//! What holds of every run in lock step.
ghost use Rattle.df_lockstep.specs.Laws.{PhasesAreRuns, PhasesAreQuiet, PhasesKeepRanks};
ghost use Rattle.df_lockstep.specs.Laws.{KeepsFullRate, DrainsInTime, WholeInTime};

use df_ends::laws::{realizing_for_all_is_good, waits_for_lower_rank};
use df_machine::laws::joins_runs;
use df_members::laws::follows_members;
use df_stages::laws::{heights_rise, heights_stay};

/// A run in phases is a run by choices.
pub fn phases_are_runs()
    ensures { PhasesAreRuns }
{
    joins_runs();
}

/// Each phase begins with no packet in flight.
pub fn phases_are_quiet()
    ensures { PhasesAreQuiet }
{}

/// Each firing happens in a phase of number at most its rank.
pub fn phases_keep_ranks()
    ensures { PhasesKeepRanks }
{
    phases_are_runs();
    waits_for_lower_rank();
}

/// Without loops the firing of turn t happens in a phase of number at most its cell's stage and twice t.
pub fn keeps_full_rate()
    ensures { KeepsFullRate }
{
    phases_keep_ranks();
    heights_rise();
    heights_stay();
}

/// Without loops the run is drained in time.
pub fn drains_in_time()
    ensures { DrainsInTime }
{
    phases_are_runs();
    phases_keep_ranks();
    heights_rise();
    heights_stay();
    follows_members();
}

/// And the results of cells that realize a meaning are then whole.
pub fn whole_in_time()
    ensures { WholeInTime }
{
    phases_are_runs();
    drains_in_time();
    realizing_for_all_is_good();
}
