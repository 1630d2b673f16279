//! What the searches find.
use crate::lists::at;
use crate::open::Open;
use crate::search::Search;
use crate::serving::{raise_line, serve_found};
use crate::steps::Steps;
use crate::tightened::tightened;
use df_stages::skeleton::Skeleton;
use df_values::memory::Memory;
use std::alloc::Global;

/// Stages of the nodes and a flow on the arcs.
#[derive(Drop)]
pub struct Proposal {
    pub stages: Vec<i64>,
    pub flow: Vec<u32>,
}

/// Sends all that a node has to send. Each search serves at least one unit.
fn send_all(
    open: &mut Open,
    search: &mut Search,
    steps: &Steps,
    start: usize,
) -> Result<(), Memory> {
    for _ in steps.from(start) {
        if at(&open.needs, start) >= 0 {
            break;
        }
        search.run(open, steps, start)?;
        let raise = serve_found(open, search, start);
        raise_line(open, search, raise);
        search.clear();
    }
    Ok(())
}

/// Sends what all nodes have to send, the last one in the order first.
fn send_from_all(alloc: Global, open: &mut Open, steps: &Steps) -> Result<(), Memory> {
    let nodes = open.order.len();
    let mut search = Search::new(alloc, nodes)?;
    for behind in 0..nodes {
        let place = nodes - 1 - behind;
        if place < open.order.len() {
            let start = open.order[place];
            send_all(open, &mut search, steps, start)?;
        }
    }
    Ok(())
}

/// The flow as numbers of 32 bits.
fn as_flow(alloc: Global, flow: &[i64]) -> Result<Vec<u32>, Memory> {
    let mut numbers = Vec::with_capacity(alloc, flow.len())?;
    for units in flow {
        numbers.push(u32::try_from(*units).unwrap_or(u32::MAX))?;
    }
    Ok(numbers)
}

/// Stages and a flow found by searches from each node that sends. The only error is want of memory.
pub fn propose(alloc: Global, s: &Skeleton) -> Result<Proposal, Memory> {
    let steps = Steps::of(alloc, s)?;
    let mut open = Open::begin(alloc, s)?;
    send_from_all(alloc, &mut open, &steps)?;
    Ok(Proposal {
        stages: tightened(alloc, s, &open.numbers)?,
        flow: as_flow(alloc, &open.flow)?,
    })
}
