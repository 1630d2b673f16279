//! `migrate`: the cells of a file of version 1 are written as one of version 2.
ghost use Rattle.std.specs.Prelude.{◌≡◌, IfOk, IsErrOf, string_bytes};
ghost use Rattle.df_commands.specs.Compiled.{MayDo};
ghost use Rattle.df_commands.specs.Plans.{effect_of};
ghost use Rattle.df_commands.specs.Verdicts.{WriteAnew, JudgesMigrate};
ghost use Rattle.df_commands.specs.Judged.{Settles};

use crate::cell_files::judge_cells;
use crate::ending::Ending;
use crate::plan::{NewFile, Plan};
use crate::report::migrated;
use crate::stop::Stop;
use df_cells::cells::Cells;
use df_celltext::version::Version;
use df_celltext::writer::write_cells;
use df_values::memory::Memory;
use std::alloc::Global;

// The text of the cells under this name.
fn planned<'a>(alloc: Global, cells: &Cells, name: &'a String) -> Result<Plan<'a>, Memory>
    ensures { IfOk result (λ plan. MayDo (WriteAnew cells.now (string_bytes name.now)) (effect_of plan)) }
{
    let bytes = write_cells(alloc, cells)?;
    let mut files = Vec::new(alloc);
    files.push(NewFile { name, bytes })?;
    Ok(Plan {
        files,
        ending: Ending::Text {
            text: migrated(alloc, cells)?,
            is_done: true,
        },
    })
}

/// Writes the cells anew under `cells`, where the old text has them and they are well-formed.
pub fn migrate<'a>(alloc: Global, old: &[u8], cells: &'a String) -> Result<Plan<'a>, Stop>
    ensures settles { Settles (JudgesMigrate old.now (string_bytes cells.now)) result }
    ensures no_fault { IsErrOf result Stop.ReadFault → ⊥ }
{
    let read = judge_cells(alloc, Version::One, old)?;
    Ok(planned(alloc, &read, cells)?)
}
