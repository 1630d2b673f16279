//! What follows from the definitions alone: each call does nothing, and its contract is a law.
ghost use Rattle.df_build_cond.specs.Laws.{GatesCountTheSame, GatesHaveArcs, GatesAreMade, GatesAreOrderly, GatesStayInZone};

use df_labels::patterns::{
    patterns_are_canonical, patterns_spell, steady_is_canonical, steady_spells,
};

/// Where less is kept of nodes, the graph and what is made in it are the same but for nodes.
pub fn gates_count_the_same()
    ensures { GatesCountTheSame }
{}

/// Arcs, values and what is noted of arms come from cells that are there.
pub fn gates_have_arcs()
    ensures { GatesHaveArcs }
{}

/// Gates, MERGE cells and all other cells of a skeleton are made as their kinds ask.
pub fn gates_are_made()
    ensures { GatesAreMade }
{
    patterns_spell();
    patterns_are_canonical();
    steady_spells();
    steady_is_canonical();
}

/// A graph with zones has zones with such cells too.
pub fn gates_are_orderly()
    ensures { GatesAreOrderly }
{}

/// While a block is built, its gates, MERGE cells and arms stay in one zone.
pub fn gates_stay_in_zone()
    ensures { GatesStayInZone }
{}
