//! What follows from the definitions alone: each call does nothing, and its contract is a law.
ghost use Rattle.df_build_loops.specs.Laws.{LoopsCountTheSame, LoopsHaveArcs, LoopsAreMade, LoopsAreOrderly, LoopsStayInZone};

use df_build_cond::laws::{
    gates_are_made, gates_are_orderly, gates_count_the_same, gates_have_arcs, gates_stay_in_zone,
};

/// Where less is kept of nodes, the graph with a hold or a loop is the same but for nodes.
pub fn loops_count_the_same()
    ensures { LoopsCountTheSame }
{
    gates_count_the_same();
}

/// Arcs of holds and loops come from cells that are there.
pub fn loops_have_arcs()
    ensures { LoopsHaveArcs }
{
    gates_have_arcs();
}

/// The cells of holds and loops are made as their kinds ask, where turns are at most 65,535.
pub fn loops_are_made()
    ensures { LoopsAreMade }
{
    gates_are_made();
}

/// A graph with zones has zones with a hold, and with the cells of a frame that is not closed yet.
pub fn loops_are_orderly()
    ensures { LoopsAreOrderly }
{
    gates_are_orderly();
}

/// A hold stays in a zone, and so do the MERGE of a loop, its gate and what feeds it; its last value lies above.
pub fn loops_stay_in_zone()
    ensures { LoopsStayInZone }
{
    gates_are_orderly();
    gates_stay_in_zone();
}
