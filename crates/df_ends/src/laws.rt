//! How runs end.
ghost use Rattle.df_ends.specs.Laws.{WaitsForLowerRank, EndsWhole, EndlessRunsGoOn};
ghost use Rattle.df_ends.specs.Laws.{RealizingForAllIsFaithful, RealizingForAllIsGood, GoodForAllIsGood};
ghost use Rattle.df_ends.specs.Laws.{LabelsOfValuesMeet, RealizingCellsRealizeForAll, HoldIsGood};

use df_histories::laws::{never_clashes, results_have_outputs};
use df_labels::laws::{first_firings_agree, labels_give_histories};
use df_machine::laws::{disabled_cells_wait, has_all_results, nothing_is_possible};
use df_members::laws::follows_members;
use df_rank::laws::{balanced_cells_have_ranks, hold_realizes};

/// A cell that is not enabled, where no packet is in flight, waits for a firing of lower rank.
pub fn waits_for_lower_rank()
    ensures { WaitsForLowerRank }
{
    follows_members();
    disabled_cells_wait();
}

/// Where firings have ranks, a run in which no event is possible has all of its labels.
pub fn ends_whole()
    ensures { EndsWhole }
{
    waits_for_lower_rank();
    follows_members();
    nothing_is_possible();
}

/// Cells that realize a meaning for every number of firings are faithful to it.
pub fn realizing_for_all_is_faithful()
    ensures { RealizingForAllIsFaithful }
{
    never_clashes();
    follows_members();
    has_all_results();
    results_have_outputs();
}

/// And balanced ones are good.
pub fn realizing_for_all_is_good()
    ensures { RealizingForAllIsGood }
{
    realizing_for_all_is_faithful();
    balanced_cells_have_ranks();
    ends_whole();
    has_all_results();
    results_have_outputs();
}

/// Where a result is never whole, no run ends.
pub fn endless_runs_go_on()
    ensures { EndlessRunsGoOn }
{}

/// Labels of values are labels of members for every number of firings.
pub fn labels_of_values_meet()
    ensures { LabelsOfValuesMeet }
{
    labels_give_histories();
    first_firings_agree();
}

/// Cells that realize a meaning by values realize it for every number of firings.
pub fn realizing_cells_realize_for_all()
    ensures { RealizingCellsRealizeForAll }
{
    labels_of_values_meet();
}

/// Cells that are good for every number of firings are good.
pub fn good_for_all_is_good()
    ensures { GoodForAllIsGood }
{}

/// A held value, which is a loop, is such a case.
pub fn hold_is_good()
    ensures { HoldIsGood }
{
    hold_realizes();
    realizing_cells_realize_for_all();
    realizing_for_all_is_good();
}
