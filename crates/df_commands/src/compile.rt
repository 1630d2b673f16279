//! `compile`: the cells of a source are written, and the dual flow that certifies their buffers.
ghost use Rattle.std.specs.Prelude.{◌≡◌, ◌≤◌, length, IfOk, IsErrOf, string_bytes};
ghost use Rattle.df_stages.specs.Skeletons.{skeleton_of};
ghost use Rattle.df_commands.specs.Compiled.{IsCompiled, MayDo};
ghost use Rattle.df_commands.specs.Plans.{effect_of};
ghost use Rattle.df_commands.specs.Verdicts.{CompileSource, JudgesCompile};
ghost use Rattle.df_commands.specs.Judged.{Settles};

use crate::compilation::{CompiledSource, files_of, judge_compilation};
use crate::ending::Ending;
use crate::plan::Plan;
use crate::report::counts;
use crate::stop::Stop;
use df_values::memory::Memory;
use std::alloc::Global;

// The files of cells and of their dual flow, and how many cells there are.
fn planned<'a>(
    alloc: Global,
    it: &CompiledSource,
    cells: &'a String,
    dual: &'a String,
) -> Result<Plan<'a>, Memory>
    requires compiled { IsCompiled it.now.tree it.now.compiled.cells it.now.compiled.balance.flow }
    requires skeleton { it.now.compiled.skeleton ≡ skeleton_of it.now.compiled.cells }
    ensures { IfOk result (λ plan.
        MayDo (CompileSource it.now.tree (string_bytes cells.now) (string_bytes dual.now)) (effect_of plan)) }
{
    Ok(Plan {
        files: files_of(alloc, &it.compiled, cells, dual)?,
        ending: Ending::Text {
            text: counts(alloc, &it.compiled.cells)?,
            is_done: true,
        },
    })
}

/// Compiles the source. The cells are written under `cells` and their dual flow under `dual`; it is told how many cells
/// the skeleton has, and how many BUF cells there are.
pub fn compile<'a>(
    alloc: Global,
    source: &[u8],
    cells: &'a String,
    dual: &'a String,
) -> Result<Plan<'a>, Stop>
    requires { length source.now ≤ 4294967294 }
    ensures settles { Settles (JudgesCompile source.now (string_bytes cells.now) (string_bytes dual.now)) result }
    ensures no_fault { IsErrOf result Stop.ReadFault → ⊥ }
{
    let it = judge_compilation(alloc, source)?;
    Ok(planned(alloc, &it, cells, dual)?)
}
