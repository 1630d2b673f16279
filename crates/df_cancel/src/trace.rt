//! A cycle of positive count, found by following a walk back through the table.
ghost use Rattle.std.specs.Prelude.{◌≡◌, ◌<◌, ◌≤◌, ◌+◌, ◌^◌, ◌<ℤ◌, ℕ, drop, length, IfOk, Contains};
ghost use Rattle.df_cancel.specs.Rows.{at_row, step_at, StepsWithin, RowWithin, Leads};
ghost use Rattle.df_cancel.specs.Cycles.{row_at, IsTable, IsPositiveCycle};
ghost use Rattle.df_cancel.specs.Found.{IsFound};

use crate::rows::{extend, reach};
use crate::step::Step;
use df_values::memory::Memory;
use std::alloc::Global;

/// A step by which the count of a node was reached.
fn step_into(steps: &[Step], row: &[i64], node: usize, count: i64) -> Step
    requires steps { StepsWithin (length row.now) (2 ^ 20) steps.now }
    requires row { RowWithin (2 ^ 40) row.now }
    requires led { (k : ℕ) × (k < length steps.now) × Leads row.now node count (step_at steps.now k) }
    ensures taken { Contains steps.now result }
    ensures leads { Leads row.now node count result }
{
    for step in steps {
        if step.to == node && reach(row, step) == count {
            return *step;
        }
    }
    unreachable!()
}

/// A row of a table.
fn row_of(rows: &[Vec<i64>], level: usize) -> &[i64]
    requires { level < length rows.now }
    ensures { result.now ≡ row_at rows.now level }
{
    rows[level].as_slice()
}

/// The steps from a place on.
fn steps_from(alloc: Global, walk: &[Step], place: usize) -> Result<Vec<Step>, Memory>
    requires small { length walk.now < 2 ^ 32 }
    requires place { place ≤ length walk.now }
    ensures { IfOk result (λ part. part.items ≡ drop place walk.now) }
{
    Ok(Vec::from_slice(alloc, &walk[place..])?)
}

/// The cycle at the end of the walk to a node whose count was raised last: the walk is followed back until it comes to
/// a node again.
fn trace(
    alloc: Global,
    nodes: usize,
    steps: &[Step],
    rows: &[Vec<i64>],
    node: usize,
) -> Result<Vec<Step>, Memory>
    requires few { nodes ≤ 2 ^ 16 }
    requires rows { length rows.now ≡ nodes + 1 }
    requires steps { StepsWithin nodes (2 ^ 20) steps.now }
    requires table { IsTable steps.now nodes rows.now }
    requires node { node < nodes }
    requires raised { (k : ℕ) → k + 1 ≡ nodes → at_row (row_at rows.now k) node <ℤ at_row (row_at rows.now nodes) node }
    ensures { IfOk result (λ cycle. IsPositiveCycle nodes steps.now cycle.items) }
{
    let mut walk: Vec<Step> = Vec::new(alloc);
    let mut entered: Vec<Option<usize>> = vec![in alloc; None; nodes]?;
    let mut node = node;
    for back in 0..nodes {
        let level = nodes - 1 - back;
        let count = row_of(rows, level + 1)[node];
        let step = step_into(steps, row_of(rows, level), node, count);
        walk.push(step)?;
        entered[node] = Some(back);
        node = step.from;
        match entered[node] {
            Some(place) => return steps_from(alloc, &walk, place),
            None => {}
        }
    }
    unreachable!()
}

/// Numbers that no step passes, or a cycle of positive count.
#[derive(Drop)]
pub enum Found {
    Numbers(Vec<i64>),
    Cycle(Vec<Step>),
}

/// Gives back the rows of a table.
fn give_back(spare: &mut Vec<Vec<i64>>, rows: Vec<Vec<i64>>) -> Result<(), Memory> {
    for row in rows {
        spare.push(row)?;
    }
    Ok(())
}

/// Looks for numbers of the nodes that no step passes. Where there are none, there is a cycle of positive count. Rows that are no
/// longer needed are spare ones for the next search.
pub fn search(
    alloc: Global,
    nodes: usize,
    steps: &[Step],
    spare: &mut Vec<Vec<i64>>,
) -> Result<Found, Memory>
    requires few { nodes ≤ 2 ^ 16 }
    requires steps { StepsWithin nodes (2 ^ 20) steps.now }
    ensures { IfOk result (IsFound nodes steps.now) }
{
    if nodes == 0 {
        return Ok(Found::Numbers(Vec::new(alloc)));
    }
    let mut rows: Vec<Vec<i64>> = Vec::new(alloc);
    rows.push(vec![in alloc; 0; nodes]?)?;
    let mut node = 0;
    for level in 0..nodes {
        let (next, changed) = extend(alloc, spare, steps, row_of(&rows, level))?;
        match changed {
            Some(raised) => node = raised,
            None => return Ok(Found::Numbers(next)),
        }
        rows.push(next)?;
    }
    let cycle = trace(alloc, nodes, steps, &rows, node)?;
    give_back(spare, rows)?;
    Ok(Found::Cycle(cycle))
}
