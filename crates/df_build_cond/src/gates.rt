//! Gates and MERGE cells whose control is a cell of the graph.
ghost use Rattle.std.specs.Prelude.{◌≡◌, IfOk};
ghost use Rattle.df_cells.specs.Kinds.{port_count, HasCanonicalRuns};
ghost use Rattle.df_build_cond.specs.Gates.{gate_kind, gated, merged};

use df_cells::kinds::Kind;
use df_labels::graphs::{Flow, Graphs};
use df_values::memory::Memory;

/// The kind of the gates that pass at this control.
pub fn gate_kind(side: bool) -> Kind
    ensures kind { result ≡ gate_kind side }
    ensures ports { port_count result ≡ 2 }
    ensures runs { HasCanonicalRuns result }
{
    if side { Kind::Tgate } else { Kind::Fgate }
}

/// Adds a gate that passes what the operand gives where the control gives `side`, and gives its number. The control and
/// the operand are numbers of cells. The only refusal is want of memory.
pub fn gate<G: Graphs>(graph: &mut G, side: bool, control: u64, operand: u64) -> Result<u64, Memory>
    ensures { IfOk result (λ cell. record { graph = G.graph graph.new; cell = cell }
        ≡ gated G.keep (G.graph graph.old) side control operand) }
{
    graph.cell(gate_kind(side), &[Flow::Cell(control), Flow::Cell(operand)])
}

/// Adds a MERGE that gives the next value of the one side where its control gives true, of the other where it gives
/// false, and gives its number. The control is the number of a cell. The only refusal is want of memory.
pub fn merge<G: Graphs>(
    graph: &mut G,
    control: u64,
    on_true: Flow,
    on_false: Flow,
) -> Result<u64, Memory>
    ensures { IfOk result (λ cell. record { graph = G.graph graph.new; cell = cell }
        ≡ merged G.keep (G.graph graph.old) control on_true on_false) }
{
    graph.cell(Kind::Merge, &[Flow::Cell(control), on_true, on_false])
}
