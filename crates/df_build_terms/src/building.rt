//! What stands around a term, and what was met in its block.
use df_build_access::accesses::Accesses;
use df_build_access::windows::Array;
use df_build_cond::tables::Table;
use df_labels::graphs::Flow;
use df_values::values::Integer;

/// A local: its built value, and how many arms were open when it was built.
#[derive(Clone, Copy, PartialEq, Eq, Debug)]
pub struct Local {
    /// The built value.
    pub flow: Flow,
    /// How many arms were open.
    pub arms: usize,
}

/// What a parameter or a block is in the graph.
#[derive(Clone, Copy, PartialEq, Eq, Debug)]
pub enum Outside {
    /// A scalar: a constant, or a cell of one value.
    Single(Flow),
    /// An array.
    Many(Array),
}

/// The turns of a block, one for each index.
#[derive(Clone, Copy, PartialEq, Eq, Debug)]
pub struct Turns {
    /// The lowest index.
    pub lo: Integer,
    /// How many turns there are.
    pub n: u32,
    /// In the element of a recurrence, the cell of its MERGE, which the element is to feed.
    pub own: Option<u64>,
}

/// What was met in a block, each where first met, outside all arms.
#[derive(Drop)]
pub struct Met {
    /// The cell of the index.
    pub index: Option<u64>,
    /// The gate of the element before.
    pub previous: Option<u64>,
    /// The hold of each scalar, by its number.
    pub holds: Table,
    /// What each access was built to.
    pub accesses: Accesses,
}
