//! The cells of a file.
ghost use Rattle.std.specs.Prelude.{IfOk, IfErr};
ghost use Rattle.df_celltext.specs.Writable.{IsTextIn};
ghost use Rattle.df_celltext.specs.WrongLines.{ShowsWrong};
ghost use Rattle.df_commands.specs.Judged.{GivesMeaning};
ghost use Rattle.df_commands.specs.Texts.{ReadsCellFile};

use crate::refusals::{refused_at, refused_by_rule};
use crate::stop::Stop;
use df_cells::cells::Cells;
use df_celltext::reader::{CellTextAnswer, read_cells, read_cells_1};
use df_celltext::version::Version;
use df_wellformed::answers::WellFormedAnswer;
use df_wellformed::rules::well_formed;
use std::alloc::Global;

// The cells of a text in a version of the form.
fn cells_of(alloc: Global, version: Version, text: &[u8]) -> Result<Cells, CellTextAnswer>
    ensures found { IfOk result (λ cells. IsTextIn version text.now cells) }
    ensures wrong { IfErr result (λ answer. ShowsWrong version text.now answer) }
{
    match version {
        Version::One => read_cells_1(alloc, text),
        Version::Two => read_cells(alloc, text),
    }
}

/// The cells of a text in a version of the form, if they are well-formed.
pub fn judge_cells(alloc: Global, version: Version, text: &[u8]) -> Result<Cells, Stop>
    ensures { GivesMeaning (λ cells. cells) result (ReadsCellFile version text.now) }
{
    let cells = match cells_of(alloc, version, text) {
        Ok(cells) => cells,
        Err(CellTextAnswer::BadCellText(line)) => {
            return Err(Stop::Refused(refused_at(alloc, "BadCellText", line)?));
        }
        Err(CellTextAnswer::Memory) => return Err(Stop::Memory),
    };
    match well_formed(alloc, &cells) {
        Ok(()) => Ok(cells),
        Err(WellFormedAnswer::BadCells(rule, cell)) => {
            Err(Stop::Refused(refused_by_rule(alloc, rule, cell)?))
        }
        Err(WellFormedAnswer::Memory) => Err(Stop::Memory),
    }
}
