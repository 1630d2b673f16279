//! The law of a balancer, tried equation by equation.
ghost use Rattle.std.specs.Prelude.{◌≡◌, ◌<◌, ◌≤◌, ◌^◌, ◌↔◌, ℕ, IsTrue, All, Contains, length, pos, ◌≤ℤ◌, sum_by, slice_index};
ghost use Rattle.df_stages.specs.Flows.{difference, EndsWithin, IsConservedAt};
ghost use Rattle.df_stages.specs.Skeletons.{WeightsWithin};
ghost use Rattle.df_cancel.specs.Rows.{RowWithin};
ghost use Rattle.df_cancel.specs.Balances.{numbered, IsBalance, IsTight};
ghost use Rattle.df_paths.specs.Settled.{IsSettledArc, AreSettled};

use df_stages::skeleton::{Skeleton, SkeletonArc};

/// How far the stages rise along an arc.
fn rise(stages: &[i64], arc: &SkeletonArc) -> i64
    requires stages { RowWithin (2 ^ 40) stages.now }
    requires from { arc.now.from < length stages.now }
    requires to { arc.now.to < length stages.now }
    ensures { result ≡ difference (numbered stages.now) arc.now }
{
    stages[arc.to as usize] - stages[arc.from as usize]
}

/// Whether an arc rises by its weight at least, and where it has flow by just its weight.
fn is_settled_arc(stages: &[i64], arc: &SkeletonArc, units: u32) -> bool
    requires stages { RowWithin (2 ^ 40) stages.now }
    requires from { arc.now.from < length stages.now }
    requires to { arc.now.to < length stages.now }
    ensures { IsTrue result ↔ IsSettledArc (numbered stages.now) arc.now units }
{
    let rise = rise(stages, arc);
    rise == arc.weight || units == 0 && arc.weight < rise
}

/// Whether all arcs do.
fn are_settled(stages: &[i64], arcs: &[SkeletonArc], flow: &[u32]) -> bool
    requires stages { RowWithin (2 ^ 40) stages.now }
    requires ends { EndsWithin (length stages.now) arcs.now }
    requires flow { length flow.now ≡ length arcs.now }
    ensures { IsTrue result ↔ AreSettled (numbered stages.now) arcs.now flow.now }
{
    for i in 0..arcs.len() {
        if !is_settled_arc(stages, &arcs[i], flow[i]) {
            return false;
        }
    }
    true
}

/// The greatest absolute value of a weight.
fn greatest_weight(arcs: &[SkeletonArc]) -> u64
    requires { WeightsWithin 131071 arcs.now }
    ensures bound { result ≤ 131071 }
    ensures least { (m : ℕ) → WeightsWithin m arcs.now → result ≤ m }
{
    let mut greatest: u64 = 0;
    for i in 0..arcs.len() {
        greatest = greatest.max(arcs[i].weight.unsigned_abs());
    }
    greatest
}

/// Whether each stage is from 0 to a top one.
fn are_within(stages: &[i64], top: u64) -> bool
    requires { top ≤ 2 ^ 40 }
    ensures { IsTrue result ↔ RowWithin top stages.now }
{
    for i in 0..stages.len() {
        if stages[i] < 0 || stages[i] > top as i64 {
            return false;
        }
    }
    true
}

/// Whether a stage is 0, if there is one.
fn has_lowest(stages: &[i64]) -> bool
    ensures { IsTrue result ↔ (0 < length stages.now → Contains stages.now (pos 0)) }
{
    stages.is_empty() || stages.contains(&0)
}

/// The flow on the arcs at these places.
fn flow_at(flow: &[u32], places: &[u32]) -> u64
    requires within { All (λ i. i < length flow.now) places.now }
    requires few { length places.now ≤ 196608 }
    ensures value { result ≡ sum_by (λ i. slice_index flow.now i) places.now }
    ensures bound { result ≤ 2 ^ 62 }
{
    let mut sum: u64 = 0;
    for i in places {
        sum += u64::from(flow[*i as usize]);
    }
    sum
}

/// Whether inflow less outflow at a node is the number of arcs in less the number of arcs out.
fn is_conserved_at(s: &Skeleton, flow: &[u32], node: u32) -> bool
    requires node { node < length s.now.nodes }
    requires flow { length flow.now ≡ length s.now.arcs }
    requires few { length s.now.arcs ≤ 196608 }
    ensures { IsTrue result ↔ IsConservedAt s.now.arcs flow.now node }
{
    let entering = s.entering(node);
    let leaving = s.leaving(node);
    let gained = flow_at(flow, entering) + leaving.len() as u64;
    let lost = flow_at(flow, leaving) + entering.len() as u64;
    gained == lost
}

/// Whether it is at all nodes.
fn is_conserved(s: &Skeleton, flow: &[u32]) -> bool
    requires { length flow.now ≡ length s.now.arcs }
    ensures { IsTrue result ↔ ((node : ℕ) → node < length s.now.nodes → IsConservedAt s.now.arcs flow.now node) }
{
    let nodes = s.nodes();
    for node in 0..nodes.len() {
        if !is_conserved_at(s, flow, node as u32) {
            return false;
        }
    }
    true
}

/// Whether stages and a flow obey the law: a flow is of greatest value where each arc that has some is as long as its weight.
pub fn is_lawful(s: &Skeleton, stages: &[i64], flow: &[u32]) -> bool
    ensures balance { IsTrue result → IsBalance s.now stages.now flow.now }
    ensures tight { IsTrue result → IsTight s.now stages.now flow.now }
{
    let arcs = s.arcs();
    let nodes = s.nodes().len();
    if stages.len() != nodes || flow.len() != arcs.len() {
        return false;
    }
    let top = nodes as u64 * greatest_weight(arcs);
    if !are_within(stages, top) {
        return false;
    }
    if !has_lowest(stages) {
        return false;
    }
    if !are_settled(stages, arcs, flow) {
        return false;
    }
    is_conserved(s, flow)
}
