//! What follows from the definitions alone: each call does nothing, and its contract is a law.
ghost use Rattle.df_build_access.specs.Laws.{WindowsMeet, PicksAreWindows, WindowsCountTheSame, WindowsHaveArcs, WindowsAreMade, WindowsAreOrderly, WindowsStayInZone};

use df_build_cond::laws::{
    gates_are_made, gates_are_orderly, gates_count_the_same, gates_have_arcs, gates_stay_in_zone,
};

/// A window keeps the turns in which the element is there, and takes these elements in order.
pub fn windows_meet()
    ensures { WindowsMeet }
{}

/// The window of one turn from 0 on is the element at the index, or `miss_elt`.
pub fn picks_are_windows()
    ensures { PicksAreWindows }
{}

/// Where less is kept of nodes, the graph with an access is the same but for nodes.
pub fn windows_count_the_same()
    ensures { WindowsCountTheSame }
{
    gates_count_the_same();
}

/// Arcs, and the value of an access, come from cells that are there.
pub fn windows_have_arcs()
    ensures { WindowsHaveArcs }
{
    gates_have_arcs();
}

/// The cells of an access are made as their kinds ask, where turns and elements are at most 65,536.
pub fn windows_are_made()
    ensures { WindowsAreMade }
{
    gates_are_made();
}

/// A graph with zones has zones with an access too.
pub fn windows_are_orderly()
    ensures { WindowsAreOrderly }
{
    gates_have_arcs();
    gates_are_orderly();
}

/// While a block is built, the cells of an access stay in its zone, but for a gate, which lies below.
pub fn windows_stay_in_zone()
    ensures { WindowsStayInZone }
{
    gates_stay_in_zone();
}
