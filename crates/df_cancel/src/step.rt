//! Steps between nodes.

/// A step from one node to another, the arc that it goes along, and whether it goes forward.
#[derive(Clone, Copy, Debug)]
pub struct Step {
    pub from: usize,
    pub to: usize,
    pub count: i64,
    pub arc: usize,
    pub forward: bool,
}
