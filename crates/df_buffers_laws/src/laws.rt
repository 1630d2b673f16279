//! Where inserted BUF cells stand, and what holds of cells that have them.
ghost use Rattle.df_buffers_laws.specs.Laws.{CountsNodes, CountsPorts, EndsAtPorts, KeepsArcs, StandOnArcs, PlacesBuffers, SameSkeletons};

use df_stages::laws::{certifies_least, has_skeletons};
use df_wellformed::laws::marks_are_unique;

/// Each node is named by its least cell, and nodes are counted from cell to cell.
pub fn counts_nodes()
    ensures { CountsNodes }
{}

/// There are as many ports to buffer as the sum of the excesses, where no excess is negative.
pub fn counts_ports()
    ensures { CountsPorts }
{}

/// Each port to buffer is one of the graph.
pub fn ends_at_ports()
    ensures { EndsAtPorts }
{}

/// Each arc of the graph with its buffers comes from a cell of the graph.
pub fn keeps_arcs()
    ensures { KeepsArcs }
{}

/// The cells of the graph with its buffers are the old cells and BUF cells on their arcs.
pub fn stand_on_arcs()
    ensures { StandOnArcs }
{}

/// Cells on whose arcs BUF cells were placed by a balance are well-formed and balanced, and have the same skeleton but for these;
/// by a tight balance they are least. Labels are carried over.
pub fn places_buffers()
    ensures { PlacesBuffers }
{
    marks_are_unique();
    has_skeletons();
    certifies_least();
}

/// Cells of one graph have one skeleton, whatever their stages are.
pub fn same_skeletons()
    ensures { SameSkeletons }
{
    marks_are_unique();
    has_skeletons();
}
