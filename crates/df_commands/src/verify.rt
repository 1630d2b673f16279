//! `verify`: it is told of cells that they are balanced and their buffers least.
ghost use Rattle.std.specs.Prelude.{IfOk, IsErrOf};
ghost use Rattle.df_cells.specs.WellFormed.{WellFormed};
ghost use Rattle.df_stages.specs.Balance.{IsBalanced, IsLeast};
ghost use Rattle.df_commands.specs.Texts.{ReadsDualFile};
ghost use Rattle.df_commands.specs.Verdicts.{TellLeast, JudgesVerify};
ghost use Rattle.df_commands.specs.Judged.{GivesMeaning, Finds, Settles};

use crate::cell_files::judge_cells;
use crate::plan::Plan;
use crate::refusals::{refused_at, refused_dual};
use crate::report::least;
use crate::stop::Stop;
use df_cells::cells::Cells;
use df_celltext::version::Version;
use df_dual_check::dual_check::check_dual;
use df_dual_check::dual_text::{DualTextAnswer, read_dual};
use df_stages::building::skeleton;
use df_stages::flow::Flow;
use df_stages::laws::certifies_least;
use std::alloc::Global;

// The flow of a file, if it certifies the cells.
fn judge_dual(alloc: Global, text: &[u8], cells: &Cells) -> Result<Flow, Stop>
    requires { WellFormed cells.now }
    ensures { GivesMeaning (λ flow. flow) result (ReadsDualFile cells.now text.now) }
{
    let skeleton = skeleton(alloc, cells)?;
    let flow = match read_dual(alloc, text, &skeleton) {
        Ok(flow) => flow,
        Err(DualTextAnswer::BadDual(line)) => {
            return Err(Stop::Refused(refused_at(alloc, "BadDual", line)?));
        }
        Err(DualTextAnswer::Memory) => return Err(Stop::Memory),
    };
    match check_dual(&skeleton, cells, &flow) {
        Ok(()) => Ok(flow),
        Err(answer) => Err(Stop::Refused(refused_dual(alloc, answer)?)),
    }
}

// Judges the texts in their order.
fn judged(alloc: Global, cells: &[u8], dual: &[u8]) -> Result<Cells, Stop>
    ensures finds { Finds (λ cells. TellLeast cells) (JudgesVerify cells.now dual.now) result }
    ensures no_fault { IsErrOf result Stop.ReadFault → ⊥ }
    ensures balanced { IfOk result IsBalanced }
    ensures least { IfOk result IsLeast }
{
    let cells = judge_cells(alloc, Version::Two, cells)?;
    certifies_least();
    judge_dual(alloc, dual, &cells)?;
    Ok(cells)
}

/// Tells of the cells that they are balanced and their buffers least, where the dual flow shows it.
pub fn verify<'a>(alloc: Global, cells: &[u8], dual: &[u8]) -> Result<Plan<'a>, Stop>
    ensures settles { Settles (JudgesVerify cells.now dual.now) result }
    ensures no_fault { IsErrOf result Stop.ReadFault → ⊥ }
{
    let cells = judged(alloc, cells, dual)?;
    Ok(Plan::of_text(alloc, least(alloc, &cells)?, true))
}
