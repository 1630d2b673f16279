//! What is kept between searches.
use crate::first_numbers::first_numbers;
use crate::lists::at;
use df_stages::skeleton::Skeleton;
use df_values::memory::Memory;
use std::alloc::Global;

/// A flow on the arcs, what each node still needs, and numbers of the nodes.
///
/// A node needs as much inflow less outflow as its arcs in less its arcs out: below 0 it has too much and sends, above 0 it has too
/// little. No step along which flow can be sent leads past the number of its end, and from where there is flow it just reaches it.
#[derive(Drop)]
pub struct Open {
    pub flow: Vec<i64>,
    pub needs: Vec<i64>,
    pub numbers: Vec<i64>,
    /// The nodes, each before those to which arcs lead from it.
    pub order: Vec<usize>,
}

fn first_needs(alloc: Global, s: &Skeleton) -> Result<Vec<i64>, Memory> {
    let nodes = s.nodes().len();
    let mut needs = Vec::with_capacity(alloc, nodes)?;
    for node in 0..nodes {
        let into = s.entering(node as u32).len() as i64;
        let out = s.leaving(node as u32).len() as i64;
        needs.push(into.saturating_sub(out))?;
    }
    Ok(needs)
}

impl Open {
    /// The beginning: no flow. The only error is want of memory.
    pub fn begin(alloc: Global, s: &Skeleton) -> Result<Open, Memory> {
        let first = first_numbers(alloc, s)?;
        let needs = first_needs(alloc, s)?;
        let flow = vec![in alloc; 0_i64; s.arcs().len()]?;
        Ok(Open {
            flow,
            needs,
            numbers: first.numbers,
            order: first.order,
        })
    }

    /// How far a node with this label is from where a search began.
    pub fn distance(&self, node: usize, label: i64) -> i64 {
        at(&self.numbers, node).saturating_sub(label)
    }
}
