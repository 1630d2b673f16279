//! What follows from the definitions alone: each call does nothing, and its contract is a law.
ghost use Rattle.df_realize.specs.Laws.{SkeletonsRealize};

use df_build_elem::laws::{skeletons_are_well_formed, skeletons_have_zones};
use df_ends::laws::realizing_cells_realize_for_all;
use df_labels::laws::obeys_kinds;
use df_meant::laws::{skeletons_tell, valid_inputs_have_lengths};
use df_rank::laws::zones_give_places;

/// Well-formed cells of the skeleton of a flat program realize what the program means: for all valid inputs and every
/// number of firings there are as many outputs as results, and labels that meet the cells, by which each OUT receives
/// the whole of its result and loops have places.
pub fn skeletons_realize()
    ensures { SkeletonsRealize }
{
    skeletons_are_well_formed();
    skeletons_have_zones();
    obeys_kinds();
    skeletons_tell();
    valid_inputs_have_lengths();
    zones_give_places();
    realizing_cells_realize_for_all();
}
