//! Open arms of an `if`, and values that are brought inside.
ghost use Rattle.std.specs.Prelude.{◌≡◌, IfOk};
ghost use Rattle.df_build_cond.specs.Arms.{pass, cross};
ghost use Rattle.df_build_cond.specs.OpenArms.{arm_of, arms_of};

use crate::gates::gate;
use crate::tables::Table;
use df_labels::graphs::{Flow, Graphs};
use df_values::memory::Memory;
use std::alloc::Global;

/// An open arm of an `if`. Contracts see it as `arm_of` it.
#[derive(Drop)]
pub struct Arm {
    /// The cell of its control.
    pub control: u64,
    /// The control at which it is taken.
    pub side: bool,
    /// The gate of each stream that was met in it, by the cell of the stream.
    pub gates: Table,
}

impl Arm {
    ghost use Rattle.df_build_cond.specs.Arms.{opened};

    /// An arm in which no stream was met.
    pub fn new(alloc: Global, control: u64, side: bool) -> Arm
        ensures { arm_of result ≡ opened control side }
    {
        Arm {
            control,
            side,
            gates: Table::new(alloc),
        }
    }
}

/// A value inside an arm: a constant as it is, a stream by its gate, which is made where the stream is first met. The
/// only refusal is want of memory.
pub fn pass<G: Graphs>(graph: &mut G, arm: &mut Arm, flow: Flow) -> Result<Flow, Memory>
    ensures { IfOk result (λ r. record { arm = arm_of arm.new; graph = G.graph graph.new; flow = r }
        ≡ pass G.keep (arm_of arm.old) (G.graph graph.old) flow) }
{
    let stream = match flow {
        Flow::Constant(_) => return Ok(flow),
        Flow::Cell(stream) => stream,
    };
    if let Some(gate) = arm.gates.get(stream) {
        return Ok(Flow::Cell(gate));
    }
    let gate = gate(graph, arm.side, arm.control, stream)?;
    arm.gates.note(stream, gate)?;
    Ok(Flow::Cell(gate))
}

/// A value that was made where only the first `level` arms were open, inside all of them. The arms stand outermost
/// first. The only refusal is want of memory.
pub fn cross<G: Graphs>(
    graph: &mut G,
    arms: &mut [Arm],
    level: usize,
    flow: Flow,
) -> Result<Flow, Memory>
    ensures { IfOk result (λ r. record { graph = G.graph graph.new; arms = arms_of arms.new; flow = r }
        ≡ cross G.keep level (G.graph graph.old) (arms_of arms.old) flow) }
{
    let mut inside = flow;
    for k in level..arms.len() {
        inside = pass(graph, &mut arms[k], inside)?;
    }
    Ok(inside)
}
