//! Frames: loops that are open while what feeds them is built.
ghost use Rattle.std.specs.Prelude.{◌≡◌, IfOk, Some, None};
ghost use Rattle.df_build_loops.specs.Frames.{opened, previous, frame_gate, closed, last};

use df_build_cond::ruled::{ruled_gate, ruled_merge};
use df_cells::cells::Port;
use df_labels::graphs::{Flow, Graphs};
use df_labels::patterns::two_parts;
use df_values::memory::Memory;
use df_values::values::{ErrorValue, Value};
use std::alloc::Global;

/// An open loop.
#[derive(Clone, Copy, PartialEq, Eq, Debug)]
pub struct Frame {
    /// The number of its MERGE, which gives the first value and then, one turn later, what the body gives.
    pub merge: u64,
    /// How many turns the body has.
    pub turns: u32,
    /// The number of the gate that gives the body the values before, once it was asked for.
    pub previous: Option<u64>,
}

/// Adds the MERGE of a loop with its CTL: the first value, and then n turns of the body, whose port waits with `undef`.
/// The only refusal is want of memory.
pub fn open_frame<G: Graphs>(
    alloc: Global,
    graph: &mut G,
    first: Flow,
    n: u32,
) -> Result<Frame, Memory>
    ensures cells { IfOk result (λ frame. record { graph = G.graph graph.new; cell = frame.merge }
        ≡ opened G.keep (G.graph graph.old) first n) }
    ensures turns { IfOk result (λ frame. frame.turns ≡ n) }
    ensures unmet { IfOk result (λ frame. frame.previous ≡ None) }
{
    let runs = two_parts(alloc, 1, true, n)?;
    let waiting = Flow::Constant(Value::Error(ErrorValue::Undef));
    let merge = ruled_merge(graph, first, waiting, runs)?;
    Ok(Frame {
        merge,
        turns: n,
        previous: None,
    })
}

/// Adds the gate that passes all values of a loop's MERGE but the last, with its CTL: in each of n turns the value
/// before. Gives its number. The only refusal is want of memory.
pub fn values_before<G: Graphs>(
    alloc: Global,
    graph: &mut G,
    merge: u64,
    n: u32,
) -> Result<u64, Memory>
    ensures { IfOk result (λ cell. record { graph = G.graph graph.new; cell = cell }
        ≡ previous G.keep (G.graph graph.old) merge n) }
{
    let runs = two_parts(alloc, n, true, 1)?;
    ruled_gate(graph, true, merge, runs)
}

/// The number of the gate of a frame's values before: one gate a frame, which is made at the first call. The only
/// refusal is want of memory.
pub fn frame_previous<G: Graphs>(
    alloc: Global,
    graph: &mut G,
    frame: &mut Frame,
) -> Result<u64, Memory>
    ensures cells { IfOk result (λ cell. record { graph = G.graph graph.new; cell = cell }
        ≡ frame_gate G.keep (G.graph graph.old) frame.old) }
    ensures noted { IfOk result (λ cell. frame.new ≡ record frame.old { previous = Some cell }) }
{
    if let Some(gate) = frame.previous {
        return Ok(gate);
    }
    let gate = values_before(alloc, graph, frame.merge, frame.turns)?;
    frame.previous = Some(gate);
    Ok(gate)
}

/// Feeds the waiting port of a frame by what the body gives, and gives the number of the MERGE, which has the first
/// value and those of the turns. The only refusal is want of memory.
pub fn close_frame<G: Graphs>(graph: &mut G, frame: Frame, next: Flow) -> Result<u64, Memory>
    ensures fed { IfOk result (λ _. G.graph graph.new ≡ closed (G.graph graph.old) frame.merge next) }
    ensures all { IfOk result (λ cell. cell ≡ frame.merge) }
{
    graph.feed(frame.merge, Port(2), next)?;
    Ok(frame.merge)
}

/// Adds the gate that passes the last of n + 1 values, with its CTL, and gives its number. All the values come from the
/// cell of the number `all`. The only refusal is want of memory.
pub fn frame_last<G: Graphs>(alloc: Global, graph: &mut G, all: u64, n: u32) -> Result<u64, Memory>
    ensures { IfOk result (λ cell. record { graph = G.graph graph.new; cell = cell }
        ≡ last G.keep (G.graph graph.old) all n) }
{
    let runs = two_parts(alloc, n, true, 1)?;
    ruled_gate(graph, false, all, runs)
}
