//! Units of flow sent along cycles of positive count, until there is none.
ghost use Rattle.std.specs.Prelude.{◌≡◌, ◌<◌, ◌≤◌, ◌+◌, ◌*◌, ◌^◌, ◌≤ℤ◌, ◌-ℤ◌, ℕ, length, All, Contains, IfOk, OnOk, fold, pos, take, vec_len};
ghost use Rattle.df_stages.specs.Flows.{EndsWithin};
ghost use Rattle.df_stages.specs.Routes.{HasNoCycle};
ghost use Rattle.df_stages.specs.Skeletons.{WeightsWithin, IsSkeleton};
ghost use Rattle.df_cancel.specs.Rows.{at_row, step_at, StepsWithin, RowWithin};
ghost use Rattle.df_cancel.specs.Residuals.{forward_step, backward_step, IsResidual, IsAcyclic, unit_step, AreUnitSteps, IsRankedSkeleton};
ghost use Rattle.df_cancel.specs.Sends.{moved, CanMove};
ghost use Rattle.df_cancel.specs.Lowered.{IsLowered};
ghost use Rattle.df_cancel.specs.Balanced.{IsBalancedBy};

use crate::step::Step;
use crate::trace::{Found, search};
use df_stages::skeleton::SkeletonArc;
use df_values::memory::Memory;
use std::alloc::Global;

/// The step forward along an arc.
fn step_forward(arcs: &[SkeletonArc], i: usize) -> Step
    requires { i < length arcs.now }
    ensures { result ≡ forward_step arcs.now i }
{
    let arc = arcs[i];
    Step {
        from: arc.from as usize,
        to: arc.to as usize,
        count: arc.weight,
        arc: i,
        forward: true,
    }
}

/// The step back along an arc.
fn step_backward(arcs: &[SkeletonArc], i: usize) -> Step
    requires within { i < length arcs.now }
    requires weights { WeightsWithin (2 ^ 20) arcs.now }
    ensures { result ≡ backward_step arcs.now i }
{
    let arc = arcs[i];
    Step {
        from: arc.to as usize,
        to: arc.from as usize,
        count: -arc.weight,
        arc: i,
        forward: false,
    }
}

/// The steps along which a unit of flow can be sent, in the place of older ones.
fn residual(old: Vec<Step>, arcs: &[SkeletonArc], flow: &[u32]) -> Result<Vec<Step>, Memory>
    requires flow { length flow.now ≡ length arcs.now }
    requires weights { WeightsWithin (2 ^ 20) arcs.now }
    ensures { IfOk result (λ steps. IsResidual arcs.now flow.now (length arcs.now) (length arcs.now) steps.items) }
{
    let mut steps = old;
    steps.clear();
    for ahead in 0..arcs.len() {
        steps.push(step_forward(arcs, ahead))?;
    }
    for back in 0..arcs.len() {
        if 0 < flow[back] {
            steps.push(step_backward(arcs, back))?;
        }
    }
    Ok(steps)
}

/// Sends one unit of flow along the steps.
fn send(flow: Vec<u32>, cycle: &[Step]) -> Vec<u32>
    requires { (k : ℕ) → k < length cycle.now → CanMove (fold moved flow.items (take k cycle.now)) (step_at cycle.now k) }
    ensures { result.items ≡ fold moved flow.items cycle.now }
{
    let mut flow = flow;
    for k in 0..cycle.len() {
        let step = cycle[k];
        if step.forward {
            flow[step.arc] += 1;
        } else {
            flow[step.arc] -= 1;
        }
    }
    flow
}

/// The numbers less the least of them.
fn lowered(alloc: Global, numbers: &[i64]) -> Result<Vec<i64>, Memory>
    requires { RowWithin (2 ^ 40) numbers.now }
    ensures { IfOk result (λ stages. IsLowered numbers.now stages.items) }
{
    if numbers.is_empty() {
        return Ok(Vec::new(alloc));
    }
    let mut least = numbers[0];
    for i in 0..numbers.len() {
        least = least.min(numbers[i]);
    }
    let mut stages: Vec<i64> = Vec::new(alloc);
    for j in 0..numbers.len() {
        stages.push(numbers[j] - least)?;
    }
    Ok(stages)
}

/// Stages of the nodes, and a flow on the arcs.
#[derive(Drop)]
pub struct Pair {
    pub stages: Vec<i64>,
    pub flow: Vec<u32>,
}

/// Sends units along cycles of positive count, until there is none. The steps and the rows of the table are used again from cycle to
/// cycle.
fn cancel_cycles(alloc: Global, nodes: usize, arcs: &[SkeletonArc]) -> Result<Pair, Memory>
    requires { IsRankedSkeleton nodes arcs.now }
    ensures { IfOk result (λ b. IsBalancedBy nodes arcs.now b.stages.items b.flow.items) }
{
    let mut flow = vec![in alloc; 1_u32; arcs.len()]?;
    let mut steps: Vec<Step> = Vec::new(alloc);
    let mut spare: Vec<Vec<i64>> = Vec::new(alloc);
    'cycles: loop {
        steps = residual(steps, arcs, &flow)?;
        match search(alloc, nodes, &steps, &mut spare)? {
            Found::Numbers(numbers) => {
                let stages = lowered(alloc, &numbers)?;
                return Ok(Pair { stages, flow });
            }
            Found::Cycle(cycle) => flow = send(flow, &cycle),
        }
    }
}

/// The step of count 1 along an arc.
fn unit_along(arcs: &[SkeletonArc], i: usize) -> Step
    requires { i < length arcs.now }
    ensures { result ≡ unit_step arcs.now i }
{
    let arc = arcs[i];
    Step {
        from: arc.from as usize,
        to: arc.to as usize,
        count: 1,
        arc: i,
        forward: true,
    }
}

/// One step of count 1 along each arc.
fn unit_steps(alloc: Global, arcs: &[SkeletonArc]) -> Result<Vec<Step>, Memory>
    ensures { IfOk result (λ steps. AreUnitSteps arcs.now (length arcs.now) steps.items) }
{
    let mut steps: Vec<Step> = Vec::new(alloc);
    for i in 0..arcs.len() {
        steps.push(unit_along(arcs, i))?;
    }
    Ok(steps)
}

/// Ranks of the nodes, each arc going up: where the nodes form no cycle there are such.
fn find_ranks(alloc: Global, nodes: usize, arcs: &[SkeletonArc]) -> Result<Vec<i64>, Memory>
    requires few { nodes ≤ 2 ^ 16 }
    requires ends { EndsWithin nodes arcs.now }
    requires acyclic { HasNoCycle arcs.now }
    ensures { OnOk result (IsAcyclic arcs.now) }
{
    let steps = unit_steps(alloc, arcs)?;
    let mut spare: Vec<Vec<i64>> = Vec::new(alloc);
    let Found::Numbers(numbers) = search(alloc, nodes, &steps, &mut spare)? else {
        unreachable!()
    };
    Ok(numbers)
}

/// Finds ranks first: they show that no flow grows past the number of arcs, so that the cycles come to an end.
pub fn balance_arcs(alloc: Global, nodes: usize, arcs: &[SkeletonArc]) -> Result<Pair, Memory>
    requires { IsSkeleton nodes arcs.now }
    ensures { IfOk result (λ b. IsBalancedBy nodes arcs.now b.stages.items b.flow.items) }
{
    let _ranks = find_ranks(alloc, nodes, arcs)?;
    cancel_cycles(alloc, nodes, arcs)
}
