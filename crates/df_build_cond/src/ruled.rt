//! Gates and MERGE cells with a CTL of their own, whose values are known when they are made.
ghost use Rattle.std.specs.Prelude.{◌≡◌, ◌∷◌, [], IfOk};
ghost use Rattle.df_cells.specs.Kinds.{AreCanonical};
ghost use Rattle.df_cells.specs.declared.kinds.Kind.TheVariants as kinds;
ghost use Rattle.df_labels.specs.declared.graphs.Flow.TheVariants.{Cell};
ghost use Rattle.df_build_cond.specs.Gates.{gate_kind, ruled};

use crate::gates::gate_kind;
use df_cells::kinds::{Kind, Runs};
use df_labels::graphs::{Flow, Graphs};
use df_values::memory::Memory;

/// Adds a gate that passes what the operand gives where these runs have `side`, and its CTL behind it. Gives the number
/// of the gate. The operand is the number of a cell. The only refusal is want of memory.
#[tactic(auto, unfolding(crate::specs::Gates::ruled))]
pub fn ruled_gate<G: Graphs>(
    graph: &mut G,
    side: bool,
    operand: u64,
    runs: Runs,
) -> Result<u64, Memory>
    requires { AreCanonical runs }
    ensures { IfOk result (λ cell. record { graph = G.graph graph.new; cell = cell }
        ≡ ruled G.keep (G.graph graph.old) (gate_kind side) (Cell operand ∷ []) runs) }
{
    // memory ends before the numbers of cells do
    let Some(control) = graph.count().checked_add(1) else {
        return Err(Memory);
    };
    let gate = graph.cell(gate_kind(side), &[Flow::Cell(control), Flow::Cell(operand)])?;
    graph.cell(Kind::Ctl { runs }, &[])?;
    Ok(gate)
}

/// Adds a MERGE that gives the next value of the one side where these runs have true, of the other where they have
/// false, and its CTL behind it. Gives the number of the MERGE. The only refusal is want of memory.
#[tactic(auto, unfolding(crate::specs::Gates::ruled))]
pub fn ruled_merge<G: Graphs>(
    graph: &mut G,
    on_true: Flow,
    on_false: Flow,
    runs: Runs,
) -> Result<u64, Memory>
    requires { AreCanonical runs }
    ensures { IfOk result (λ cell. record { graph = G.graph graph.new; cell = cell }
        ≡ ruled G.keep (G.graph graph.old) kinds.Merge (on_true ∷ on_false ∷ []) runs) }
{
    // memory ends before the numbers of cells do
    let Some(control) = graph.count().checked_add(1) else {
        return Err(Memory);
    };
    let merge = graph.cell(Kind::Merge, &[Flow::Cell(control), on_true, on_false])?;
    graph.cell(Kind::Ctl { runs }, &[])?;
    Ok(merge)
}
