//! The first numbers of the nodes, and an order in which arcs lead upward.
use crate::lists::{at, put};
use df_stages::skeleton::Skeleton;
use df_values::memory::Memory;
use std::alloc::Global;

/// The nodes in an order in which each arc leads from an earlier to a later one, and for each node the greatest sum of the weights along
/// a route that ends there.
#[derive(Drop)]
pub struct FirstNumbers {
    pub order: Vec<usize>,
    pub numbers: Vec<i64>,
}

/// The least number of a node that respects the arcs into it.
fn number_of(s: &Skeleton, numbers: &[i64], entering: &[u32]) -> i64 {
    let mut number = 0;
    for place in entering {
        if let Some(arc) = s.arcs().get(*place as usize) {
            number = at(numbers, arc.from as usize)
                .saturating_add(arc.weight)
                .max(number);
        }
    }
    number
}

/// How many arcs into each node come from nodes without a number.
fn count_entering(alloc: Global, s: &Skeleton) -> Result<Vec<i64>, Memory> {
    let nodes = s.nodes().len();
    let mut waiting = Vec::with_capacity(alloc, nodes)?;
    for node in 0..nodes {
        waiting.push(s.entering(node as u32).len() as i64)?;
    }
    Ok(waiting)
}

/// The nodes into which no arc leads.
fn sources(alloc: Global, waiting: &[i64]) -> Result<Vec<usize>, Memory> {
    let mut order = Vec::with_capacity(alloc, waiting.len())?;
    for node in 0..waiting.len() {
        if waiting[node] == 0 {
            order.push(node)?;
        }
    }
    Ok(order)
}

/// Counts the arcs that leave a node with a number, and adds those nodes to the order that wait for none now.
fn release(
    s: &Skeleton,
    leaving: &[u32],
    waiting: &mut [i64],
    order: &mut Vec<usize>,
) -> Result<(), Memory> {
    for place in leaving {
        if let Some(arc) = s.arcs().get(*place as usize) {
            let to = arc.to as usize;
            let left = at(waiting, to).saturating_sub(1);
            put(waiting, to, left);
            if left == 0 {
                order.push(to)?;
            }
        }
    }
    Ok(())
}

/// Numbers the nodes, each after all nodes from which arcs lead to it.
pub fn first_numbers(alloc: Global, s: &Skeleton) -> Result<FirstNumbers, Memory> {
    let nodes = s.nodes().len();
    let mut waiting = count_entering(alloc, s)?;
    let mut order = sources(alloc, &waiting)?;
    let mut numbers = vec![in alloc; 0_i64; nodes]?;
    for place in 0..nodes {
        if place < order.len() {
            let node = order[place];
            if node < nodes {
                let number = number_of(s, &numbers, s.entering(node as u32));
                put(&mut numbers, node, number);
                release(s, s.leaving(node as u32), &mut waiting, &mut order)?;
            }
        }
    }
    Ok(FirstNumbers { order, numbers })
}
