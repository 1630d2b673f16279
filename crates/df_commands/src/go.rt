//! `go`: a source is compiled, its cells are written, and they are run.
ghost use Rattle.std.specs.Prelude.{ℕ, List, ◌≡◌, ◌≤◌, length, IfOk, IsErrOf, string_bytes};
ghost use Rattle.df_values.specs.Inputs.{AreValid};
ghost use Rattle.df_cells.specs.Cells.{declarations};
ghost use Rattle.df_stages.specs.Skeletons.{skeleton_of};
ghost use Rattle.df_commands.specs.Compiled.{IsCompiled, MayDo};
ghost use Rattle.df_commands.specs.Plans.{effect_of};
ghost use Rattle.df_commands.specs.Ready.{HasFewChoices};
ghost use Rattle.df_commands.specs.Verdicts.{CompileAndRun, JudgesGo};
ghost use Rattle.df_commands.specs.Judged.{Finds, Settles};

use crate::compilation::{CompiledSource, files_of, judge_compilation};
use crate::ending::Ending;
use crate::plan::Plan;
use crate::runs::{RunTexts, judged_inputs, run_cells};
use crate::stop::Stop;
use df_compile::compile::Compiled;
use df_syntax::program::Program;
use df_values::memory::Memory;
use std::alloc::Global;

// A source with its cells, and the texts of their run.
#[derive(Drop)]
struct SourceToRun {
    source: CompiledSource,
    texts: RunTexts,
}

// Judges the texts in their order, whatever the names are of the files to be written.
fn judged(alloc: Global, source: &[u8], input: &[u8], schedule: &[u8]) -> Result<SourceToRun, Stop>
    requires source { length source.now ≤ 4294967294 }
    requires input { length input.now ≤ 4294967294 }
    ensures finds { (cells dual : List ℕ) → Finds
        (λ it. CompileAndRun it.source.tree it.texts.inputs.lists it.texts.schedule cells dual)
        (JudgesGo source.now input.now schedule.now cells dual) result }
    ensures no_fault { IsErrOf result Stop.ReadFault → ⊥ }
    ensures compiled { IfOk result (λ it.
        IsCompiled it.source.tree it.source.compiled.cells it.source.compiled.balance.flow) }
    ensures skeleton { IfOk result (λ it. it.source.compiled.skeleton ≡ skeleton_of it.source.compiled.cells) }
    ensures valid { IfOk result (λ it. AreValid (declarations it.source.compiled.cells) it.texts.inputs.lists) }
    ensures few { IfOk result (λ it. HasFewChoices it.texts.schedule) }
{
    let source = judge_compilation(alloc, source)?;
    let decls = source.compiled.cells.inputs()?;
    let texts = judged_inputs(alloc, &decls, input, schedule)?;
    Ok(SourceToRun { source, texts })
}

// The files of the cells and of their dual flow, and the report of their run.
fn planned<'a>(
    alloc: Global,
    tree: &Program,
    compiled: Compiled,
    texts: RunTexts,
    cells: &'a String,
    dual: &'a String,
) -> Result<Plan<'a>, Memory>
    requires compiled { IsCompiled tree.now compiled.cells compiled.balance.flow }
    requires skeleton { compiled.skeleton ≡ skeleton_of compiled.cells }
    requires valid { AreValid (declarations compiled.cells) texts.inputs.lists }
    requires few { HasFewChoices texts.schedule }
    ensures { IfOk result (λ plan.
        MayDo (CompileAndRun tree.now texts.inputs.lists texts.schedule (string_bytes cells.now) (string_bytes dual.now))
        (effect_of plan)) }
{
    let files = files_of(alloc, &compiled, cells, dual)?;
    let ran = run_cells(alloc, compiled.cells, texts.inputs, &texts.schedule)?;
    Ok(Plan {
        files,
        ending: Ending::Text {
            text: ran.text,
            is_done: ran.is_drained,
        },
    })
}

/// Compiles the source and runs its cells on the inputs by the schedule. The cells are written under `cells` and their
/// dual flow under `dual`.
pub fn go<'a>(
    alloc: Global,
    source: &[u8],
    input: &[u8],
    schedule: &[u8],
    cells: &'a String,
    dual: &'a String,
) -> Result<Plan<'a>, Stop>
    requires source { length source.now ≤ 4294967294 }
    requires input { length input.now ≤ 4294967294 }
    ensures settles { Settles
        (JudgesGo source.now input.now schedule.now (string_bytes cells.now) (string_bytes dual.now)) result }
    ensures no_fault { IsErrOf result Stop.ReadFault → ⊥ }
{
    let SourceToRun { source, texts } = judged(alloc, source, input, schedule)?;
    let CompiledSource { tree, compiled } = source;
    Ok(planned(alloc, &tree, compiled, texts, cells, dual)?)
}
