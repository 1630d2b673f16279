//! What follows from the definitions alone: each call does nothing, and its contract is a law.
ghost use Rattle.df_build_elem.specs.Finished.{SkeletonsAreWellFormed, SkeletonsHaveZones};
ghost use Rattle.df_build_elem.specs.Laws.{ProgramsCountTheSame, ProgramsHaveArcs, ProgramsAreMade, ProgramsAreOrderly};

use df_build_cond::laws::{gates_are_made, gates_count_the_same, gates_stay_in_zone};
use df_build_loops::laws::{loops_are_made, loops_count_the_same, loops_stay_in_zone};
use df_build_terms::laws::{terms_are_made, terms_count_the_same, terms_stay_in_zone};

/// Counting the cells of a program is building them: the same but for nodes.
pub fn programs_count_the_same()
    ensures { ProgramsCountTheSame }
{
    gates_count_the_same();
    loops_count_the_same();
    terms_count_the_same();
}

/// The cells of a program within the limits are made as their kinds ask.
pub fn programs_are_made()
    ensures { ProgramsAreMade }
{
    gates_are_made();
    loops_are_made();
    terms_are_made();
}

/// Every skeleton has zones.
pub fn programs_are_orderly()
    ensures { ProgramsAreOrderly }
{
    gates_stay_in_zone();
    loops_stay_in_zone();
    terms_stay_in_zone();
}

/// Each arc of a skeleton comes from one of its cells.
pub fn programs_have_arcs()
    ensures { ProgramsHaveArcs }
{
    programs_are_orderly();
}

/// Finished cells of a skeleton of at most 4,096 cells are well-formed; no cell is a BUF, the inputs are the
/// parameters, and there are as many outputs as results.
pub fn skeletons_are_well_formed()
    ensures { SkeletonsAreWellFormed }
{
    gates_stay_in_zone();
    loops_stay_in_zone();
    terms_stay_in_zone();
    gates_are_made();
    loops_are_made();
    terms_are_made();
    programs_are_made();
}

/// Finished cells of a skeleton have zones, by their shifts.
pub fn skeletons_have_zones()
    ensures { SkeletonsHaveZones }
{
    programs_are_made();
    programs_are_orderly();
}
