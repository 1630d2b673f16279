//! The loops of folds.
ghost use Rattle.std.specs.Prelude.{◌≡◌, IfOk};
ghost use Rattle.df_build_loops.specs.Folds.{loop_begun, loop_ended};

use crate::frames::{Frame, close_frame, frame_last, open_frame, values_before};
use df_build_cond::kinds::kind_of;
use df_labels::graphs::{Flow, Graphs};
use df_values::kinds::{Binary, Op};
use df_values::memory::Memory;
use std::alloc::Global;

/// The loop of a fold, whose operator isn't built yet.
#[derive(Clone, Copy, PartialEq, Eq, Debug)]
pub struct Begun {
    /// The number of its MERGE.
    pub merge: u64,
    /// The number of the gate that gives the operator its left operand.
    pub gate: u64,
}

/// Adds the MERGE of a fold of n turns and the gate of its values before. The only refusal is want of memory.
#[tactic(auto, unfolding(crate::specs::Folds::loop_begun))]
pub fn begin_loop<G: Graphs>(
    alloc: Global,
    graph: &mut G,
    first: Flow,
    n: u32,
) -> Result<Begun, Memory>
    ensures { IfOk result (λ l. record { graph = G.graph graph.new; merge = l.merge; gate = l.gate }
        ≡ loop_begun G.keep first n (G.graph graph.old)) }
{
    let merge = open_frame(alloc, graph, first, n)?.merge;
    let gate = values_before(alloc, graph, merge, n)?;
    Ok(Begun { merge, gate })
}

/// Adds the operator of a fold of n turns, feeds the loop by it, and adds the gate of its last value, whose number it
/// gives. The only refusal is want of memory.
#[tactic(auto, unfolding(crate::specs::Folds::loop_ended))]
pub fn end_loop<G: Graphs>(
    alloc: Global,
    graph: &mut G,
    op: Op,
    begun: Begun,
    n: u32,
    next: Flow,
) -> Result<u64, Memory>
    ensures { IfOk result (λ cell. record { graph = G.graph graph.new; cell = cell }
        ≡ loop_ended G.keep op begun.merge begun.gate n (record { graph = G.graph graph.old; flow = next })) }
{
    let joined = graph.cell(
        kind_of(Binary::Operation(op)),
        &[Flow::Cell(begun.gate), next],
    )?;
    let frame = Frame {
        merge: begun.merge,
        turns: n,
        previous: Some(begun.gate),
    };
    let all = close_frame(graph, frame, Flow::Cell(joined))?;
    frame_last(alloc, graph, all, n)
}
