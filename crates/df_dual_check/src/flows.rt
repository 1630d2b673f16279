//! The flow at each node, its value, and the number of BUF cells.
ghost use Rattle.std.specs.Prelude.{◌≡◌, ◌<◌, ◌≤◌, ◌^◌, ◌↔◌, IsTrue, MatchOption, All, length, pos, neg_ℤ, ◌*ℤ◌, ◌≤ℤ◌, sum_by, slice_index};
ghost use Rattle.df_stages.specs.Flows.{IsConservedAt, flow_value};
ghost use Rattle.df_stages.specs.Skeletons as skeletons;
ghost use Rattle.df_dual_check.specs.Checked.{IsConserved, IsFirstUnconserved};

use df_cells::cells::{CellId, Cells};
use df_stages::skeleton::{Skeleton, SkeletonArc};

/// The flow on the arcs at these places.
fn flow_at(flow: &[u32], places: &[u32]) -> u64
    requires within { All (λ i. i < length flow.now) places.now }
    requires few { length places.now ≤ 196608 }
    ensures value { result ≡ sum_by (λ i. slice_index flow.now i) places.now }
    ensures bound { result ≤ 2 ^ 62 }
{
    let mut sum: u64 = 0;
    for i in places {
        sum += u64::from(flow[*i as usize]);
    }
    sum
}

/// Whether inflow less outflow at a node is the number of arcs in less the number of arcs out.
fn is_conserved_at(s: &Skeleton, flow: &[u32], node: u32) -> bool
    requires node { node < length s.now.nodes }
    requires flow { length flow.now ≡ length s.now.arcs }
    requires few { length s.now.arcs ≤ 196608 }
    ensures { IsTrue result ↔ IsConservedAt s.now.arcs flow.now node }
{
    let entering = s.entering(node);
    let leaving = s.leaving(node);
    let gained = flow_at(flow, entering) + leaving.len() as u64;
    let lost = flow_at(flow, leaving) + entering.len() as u64;
    gained == lost
}

/// The first node at which the flow isn't conserved, named by its least cell.
pub fn first_unconserved(s: &Skeleton, flow: &[u32]) -> Option<CellId>
    requires { length flow.now ≡ length s.now.arcs }
    ensures { MatchOption result (IsConserved s.now flow.now) (IsFirstUnconserved s.now flow.now) }
{
    let nodes = s.nodes();
    for (node, least) in nodes.iter().enumerate() {
        if !is_conserved_at(s, flow, node as u32) {
            return Some(*least);
        }
    }
    None
}

/// The weight times the flow of an arc.
fn carried_by(weight: i64, flow: u32) -> i128
    ensures value { result ≡ weight *ℤ pos flow }
    ensures low { neg_ℤ (pos (2 ^ 95)) ≤ℤ result }
    ensures high { result ≤ℤ pos (2 ^ 95) }
{
    i128::from(weight) * i128::from(flow)
}

/// The sum of weight times flow, less the sum of the weights.
pub fn value_of(arcs: &[SkeletonArc], flow: &[u32]) -> i128
    requires flow { length flow.now ≡ length arcs.now }
    requires few { length arcs.now ≤ 196608 }
    ensures { result ≡ flow_value arcs.now flow.now }
{
    let mut carried: i128 = 0;
    let mut weights: i128 = 0;
    for (i, arc) in arcs.iter().enumerate() {
        carried += carried_by(arc.weight, flow[i]);
        weights += i128::from(arc.weight);
    }
    carried - weights
}

/// How many BUF cells there are.
pub fn count_buffers(cells: &Cells) -> u32
    ensures { result ≡ skeletons.buffers cells.now }
{
    let mut count: u32 = 0;
    for c in 0..cells.len() {
        if cells.get(CellId(c)).kind.is_buffer() {
            count += 1;
        }
    }
    count
}
