//! What a checked file may have wrong.
use df_cells::cells::{CellId, Dest};

/// What is wrong first.
#[derive(Clone, Copy, Debug, Drop, PartialEq, Eq)]
pub enum DualAnswer {
    /// The stages don't agree on the arc that ends at this port.
    NotBalanced(Dest),
    /// The flow isn't conserved at this node, named by its least cell.
    BadFlow(CellId),
    /// The value of the flow, and the number of BUF cells, which is another.
    NotEqual(i128, u32),
}
