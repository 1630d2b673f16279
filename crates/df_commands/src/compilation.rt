//! The cells of a source, and their files.
ghost use Rattle.std.specs.Prelude.{◌≡◌, ◌≤◌, length, map, IfOk, string_bytes};
ghost use Rattle.df_celltext.specs.CellText.{cell_text};
ghost use Rattle.df_celltext.specs.Writable.{HaveNames, IsTextOf};
ghost use Rattle.df_stages.specs.Balance.{IsCertificate};
ghost use Rattle.df_stages.specs.Skeletons.{skeleton_of};
ghost use Rattle.df_commands.specs.Compiled.{IsCompiled, files_of};
ghost use Rattle.df_commands.specs.Plans.{file_of};
ghost use Rattle.df_commands.specs.ProgramTexts.{ReadsCompilable};
ghost use Rattle.df_commands.specs.Judged.{GivesMeaning};

use crate::laws::{cells_of_sources_are_good, cells_of_sources_are_in_time};
use crate::plan::NewFile;
use crate::programs::{Source, judge_program};
use crate::refusals::{refused, refused_count};
use crate::stop::Stop;
use df_celltext::writer::write_cells;
use df_compile::compile::{CompileAnswer, Compiled, compile};
use df_dual_check::dual_text::write_dual;
use df_input_names::laws::inputs_are_named;
use df_syntax::program::Program;
use df_values::memory::Memory;
use std::alloc::Global;

/// A source with its cells.
#[derive(Drop)]
pub struct CompiledSource {
    /// Its tree.
    pub tree: Program,
    /// Its cells.
    pub compiled: Compiled,
}

/// The cells of a source, if it is accepted and they are not too many. For all valid inputs and every list of choices
/// no operand comes to an occupied place, each result is a prefix of what the source means, and it is all of it
/// whenever no event is possible. Where no cell is on a loop, they keep the full rate in lock step.
pub fn judge_compilation(alloc: Global, text: &[u8]) -> Result<CompiledSource, Stop>
    requires { length text.now ≤ 4294967294 }
    ensures reads { GivesMeaning (λ it. it.tree) result (ReadsCompilable text.now) }
    ensures compiled { IfOk result (λ it. IsCompiled it.tree it.compiled.cells it.compiled.balance.flow) }
    ensures skeleton { IfOk result (λ it. it.compiled.skeleton ≡ skeleton_of it.compiled.cells) }
{
    cells_of_sources_are_good();
    cells_of_sources_are_in_time();
    inputs_are_named();
    let Source { tree, flat } = judge_program(alloc, text)?;
    match compile(alloc, &flat) {
        Ok(compiled) => Ok(CompiledSource { tree, compiled }),
        Err(CompileAnswer::TooManyCells) => Err(Stop::Refused(refused(alloc, "TooManyCells", "")?)),
        Err(CompileAnswer::TooManySkeletonCells(count)) => {
            Err(Stop::Refused(refused_count(alloc, "TooManySkeletonCells", count)?))
        }
        Err(CompileAnswer::Memory) => Err(Stop::Memory),
    }
}

/// The files of the cells and of their dual flow, under these names. The text of the cells can be read again. The only
/// error is want of memory.
pub fn files_of<'a>(
    alloc: Global,
    it: &Compiled,
    cells: &'a String,
    dual: &'a String,
) -> Result<Vec<NewFile<'a>>, Memory>
    requires named { HaveNames it.now.cells }
    requires certificate { IsCertificate it.now.cells it.now.balance.flow }
    requires skeleton { it.now.skeleton ≡ skeleton_of it.now.cells }
    ensures files { IfOk result (λ files. map file_of files.items
        ≡ files_of it.now.cells it.now.balance.flow (string_bytes cells.now) (string_bytes dual.now)) }
    ensures readable { IfOk result (λ _. IsTextOf (cell_text it.now.cells) it.now.cells) }
{
    let mut files = Vec::new(alloc);
    files.push(NewFile {
        name: cells,
        bytes: write_cells(alloc, &it.cells)?,
    })?;
    files.push(NewFile {
        name: dual,
        bytes: write_dual(alloc, &it.skeleton, &it.balance.flow)?,
    })?;
    Ok(files)
}
