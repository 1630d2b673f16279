//! The steps along which flow can be sent, by the nodes at which they begin.
use df_stages::skeleton::Skeleton;
use df_values::memory::Memory;
use std::alloc::Global;

/// A step to a node along an arc: ahead, where it counts the arc's weight, or back, where it counts minus its weight.
#[derive(Clone, Copy, Debug)]
pub struct Step {
    pub to: usize,
    pub arc: usize,
    pub count: i64,
    pub ahead: bool,
}

/// The steps that begin at each node: those ahead along the arcs that leave it, and then those back along the arcs that enter it.
#[derive(Drop)]
pub struct Steps {
    rows: Vec<Vec<Step>>,
}

fn push_ahead(row: &mut Vec<Step>, s: &Skeleton, places: &[u32]) -> Result<(), Memory> {
    for place in places {
        let arc = *place as usize;
        if let Some(along) = s.arcs().get(arc) {
            row.push(Step {
                to: along.to as usize,
                arc,
                count: along.weight,
                ahead: true,
            })?;
        }
    }
    Ok(())
}

fn push_back(row: &mut Vec<Step>, s: &Skeleton, places: &[u32]) -> Result<(), Memory> {
    for place in places {
        let arc = *place as usize;
        if let Some(along) = s.arcs().get(arc) {
            row.push(Step {
                to: along.from as usize,
                arc,
                count: along.weight.saturating_neg(),
                ahead: false,
            })?;
        }
    }
    Ok(())
}

impl Steps {
    /// The steps of a skeleton. The only error is want of memory.
    pub fn of(alloc: Global, s: &Skeleton) -> Result<Steps, Memory> {
        let nodes = s.nodes().len();
        let mut rows = Vec::with_capacity(alloc, nodes)?;
        for node in 0..nodes {
            let mut row = Vec::new(alloc);
            push_ahead(&mut row, s, s.leaving(node as u32))?;
            push_back(&mut row, s, s.entering(node as u32))?;
            rows.push(row)?;
        }
        Ok(Steps { rows })
    }

    /// The steps that begin at a node; there are none at what is no node.
    pub fn from(&self, node: usize) -> &[Step] {
        if node < self.rows.len() {
            self.rows[node].as_slice()
        } else {
            &[]
        }
    }
}
