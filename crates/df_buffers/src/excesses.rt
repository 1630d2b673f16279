//! How many BUF cells the arcs of a skeleton need, and at which ports.
ghost use Rattle.std.specs.Prelude.{◌≡◌, ◌<◌, ◌≤◌, ◌++◌, ◌^◌, pos, neg_ℤ, ◌-ℤ◌, ◌≤ℤ◌, length, replicate, IfOk, OnOk};
ghost use Rattle.df_cancel.specs.Balances.{numbered};
ghost use Rattle.df_stages.specs.Flows as flows;
ghost use Rattle.df_stages.specs.Flows.{EndsWithin};
ghost use Rattle.df_buffers_laws.specs.Insertions.{natural, ports_to_buffer};

use df_cells::cells::Dest;
use df_stages::skeleton::SkeletonArc;
use df_values::memory::Memory;
use std::alloc::Global;

// How far the difference of two stages is above a weight.
fn above_weight(from: i64, to: i64, weight: i64) -> i128
    ensures value { result ≡ (to -ℤ from) -ℤ weight }
    ensures low { neg_ℤ (pos (2 ^ 66)) ≤ℤ result }
    ensures high { result ≤ℤ pos (2 ^ 66) }
{
    i128::from(to) - i128::from(from) - i128::from(weight)
}

// How far the difference of the stages at the ends of an arc is above its weight.
fn excess(stages: &[i64], arc: &SkeletonArc) -> i128
    requires from { arc.now.from < length stages.now }
    requires to { arc.now.to < length stages.now }
    ensures value { result ≡ flows.excess (numbered stages.now) arc.now }
    ensures low { neg_ℤ (pos (2 ^ 66)) ≤ℤ result }
    ensures high { result ≤ℤ pos (2 ^ 66) }
{
    let from = stages[arc.from as usize];
    let to = stages[arc.to as usize];
    above_weight(from, to, arc.weight)
}

/// The sum of the excesses of arcs between nodes of these stages. It is taken before any BUF cell is made, and may be far larger than
/// the number of cells that there can be.
pub fn total_excess(stages: &[i64], arcs: &[SkeletonArc]) -> i128
    requires ends { EndsWithin (length stages.now) arcs.now }
    requires few { length arcs.now ≤ 196608 }
    ensures value { result ≡ flows.total_excess (numbered stages.now) arcs.now }
    ensures low { neg_ℤ (pos (2 ^ 84)) ≤ℤ result }
    ensures high { result ≤ℤ pos (2 ^ 84) }
{
    let mut sum: i128 = 0;
    for arc in arcs {
        sum += excess(stages, arc);
    }
    sum
}

// Adds a port so many times, and not at all where the count is negative.
fn push_copies(ports: &mut Vec<Dest>, port: Dest, count: i128) -> Result<(), Memory>
    ensures { OnOk result (ports.new.items ≡ ports.old.items ++ replicate (natural count) port) }
{
    let mut left = count;
    while left > 0 {
        ports.push(port)?;
        left -= 1;
    }
    Ok(())
}

/// The ports at which the arcs end, in the order of the arcs, each as often as the excess of its arc. The only error is want
/// of memory.
pub fn ports_to_buffer(
    alloc: Global,
    stages: &[i64],
    arcs: &[SkeletonArc],
) -> Result<Vec<Dest>, Memory>
    requires { EndsWithin (length stages.now) arcs.now }
    ensures { IfOk result (λ ports. ports.items ≡ ports_to_buffer arcs.now (numbered stages.now)) }
{
    let mut ports = Vec::new(alloc);
    for arc in arcs {
        push_copies(&mut ports, arc.name, excess(stages, arc))?;
    }
    Ok(ports)
}
