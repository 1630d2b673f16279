//! Reading the text of a cell file.
ghost use Rattle.std.specs.Prelude.{◌≡◌, ℕ, List, MatchOption, MatchResult, IfOk, IfErr, ◌==◌, length};
ghost use Rattle.std.specs.Bool.{OnTrue, OnFalse};
ghost use Rattle.df_cells.specs.declared.cells.Cell.{Cell};
ghost use Rattle.df_celltext.specs.declared.reader.CellTextAnswer.TheVariants as cell_text_answer;
ghost use Rattle.df_celltext.specs.Cuts.{cut_at};
ghost use Rattle.df_celltext.specs.Reading.{Gives, Passes, count_line, cell_line_in, end_line};
ghost use Rattle.df_celltext.specs.declared.version.Version.TheVariants as version;
ghost use Rattle.df_celltext.specs.Writable.{IsTextIn, IsTextOf};
ghost use Rattle.df_celltext.specs.WrongLines.{answer_at, ShowsWrong};

use crate::version::Version;
use crate::words::{LineAnswer, Words, cut, is};
use df_cells::cells::{Cell, Cells};
use df_values::memory::Memory;
use std::alloc::Global;
use std::marker::Model;

/// Why a text wasn't read.
#[derive(Clone, Copy, PartialEq, Eq, Debug)]
pub enum CellTextAnswer {
    /// No list of cells has the text, and this line, counted from 1, is the first that no text of a list can have which begins with
    /// the lines before it.
    BadCellText(u32),
    /// Want of memory.
    Memory,
}

// What is left of a text, at the beginning of a line.
#[derive(Drop)]
struct Lines<'a> {
    rest: &'a [u8],
}

impl<'a> Model for Lines<'a> {
    ghost use Rattle.std.specs.Prelude.{List, ℕ};

    ghost Value = { List ℕ };

    ghost view = { λ l. l.rest.now };
}

impl From<Memory> for CellTextAnswer {
    ghost use Rattle.std.specs.Prelude.{◌≡◌};
    ghost use Rattle.df_celltext.specs.declared.reader.CellTextAnswer.TheVariants.{Memory};

    ghost from_gives = { λ _ answer. answer ≡ Memory };

    fn from(_refused: Memory) -> CellTextAnswer {
        CellTextAnswer::Memory
    }
}

// The line at which the words were wrong.
fn answer_at(answer: LineAnswer, line: u32) -> CellTextAnswer
    ensures { result ≡ answer_at answer line }
{
    match answer {
        LineAnswer::Wrong => CellTextAnswer::BadCellText(line),
        LineAnswer::Memory => CellTextAnswer::Memory,
    }
}

impl<'a> Lines<'a> {
    // Takes the next line with its line feed, where there is one.
    fn next(&mut self) -> Option<&'a [u8]>
        ensures { MatchOption result (cut_at 10 self.old ≡ None) (λ line. cut_at 10 self.old ≡ Some (line.now, self.new)) }
    {
        match cut(self.rest, b'\n') {
            Some((line, rest)) => {
                self.rest = rest;
                Some(line)
            }
            None => None,
        }
    }

    // Takes the first line, and gives the number of cells.
    #[tactic(auto, unfolding(crate::specs::Reading::count_line))]
    fn count(&mut self, version: Version) -> Result<u32, LineAnswer>
        ensures { Gives result self.new (count_line version self.old) }
    {
        let Some(line) = self.next() else {
            return Err(LineAnswer::Wrong);
        };
        Words::new(line).count(version)
    }

    // Takes the line of the cell of this number.
    #[tactic(auto, unfolding(crate::specs::Reading::cell_line_in))]
    fn cell(&mut self, alloc: Global, version: Version, number: u32) -> Result<Cell, LineAnswer>
        ensures { Gives result self.new (cell_line_in version number self.old) }
    {
        let Some(line) = self.next() else {
            return Err(LineAnswer::Wrong);
        };
        let cell = Words::new(line).cell(alloc, number)?;
        if version.has_cell(&cell) {
            Ok(cell)
        } else {
            Err(LineAnswer::Wrong)
        }
    }

    // Takes the last line.
    #[tactic(auto, unfolding(crate::specs::Reading::end_line))]
    fn end(&mut self) -> bool
        ensures yes { OnTrue result (end_line self.old ≡ Some self.new) }
        ensures no { OnFalse result (end_line self.old ≡ None) }
    {
        match self.next() {
            Some(line) => is(line, "end"),
            None => false,
        }
    }

    fn is_empty(&self) -> bool
        ensures { result ≡ (length self.now == 0) }
    {
        self.rest.is_empty()
    }
}

/// The cells whose text this is. A text is that of one list of cells at most.
///
/// Each line is judged by itself: a line that ends without its line feed is wrong, and so is one that is missing. Behind the line
/// `end` nothing may stand.
pub fn read_cells(alloc: Global, text: &[u8]) -> Result<Cells, CellTextAnswer>
    ensures found { IfOk result (λ cells. IsTextOf text.now cells) }
    ensures wrong { IfErr result (λ answer. ShowsWrong version.Two text.now answer) }
    ensures only { (cells : List Cell) → IsTextOf text.now cells
        → MatchResult result (λ found. found ≡ cells) (λ answer. answer ≡ cell_text_answer.Memory) }
{
    read_version(alloc, Version::Two, text)
}

/// The same for a text of version 1, in which numbers are from -2147483648 to 2147483647 and no port is loaded.
pub fn read_cells_1(alloc: Global, text: &[u8]) -> Result<Cells, CellTextAnswer>
    ensures found { IfOk result (λ cells. IsTextIn version.One text.now cells) }
    ensures wrong { IfErr result (λ answer. ShowsWrong version.One text.now answer) }
    ensures only { (cells : List Cell) → IsTextIn version.One text.now cells
        → MatchResult result (λ found. found ≡ cells) (λ answer. answer ≡ cell_text_answer.Memory) }
{
    read_version(alloc, Version::One, text)
}

fn read_version(alloc: Global, version: Version, text: &[u8]) -> Result<Cells, CellTextAnswer>
    ensures found { IfOk result (λ cells. IsTextIn version text.now cells) }
    ensures wrong { IfErr result (λ answer. ShowsWrong version text.now answer) }
    ensures only { (cells : List Cell) → IsTextIn version text.now cells
        → MatchResult result (λ found. found ≡ cells) (λ answer. answer ≡ cell_text_answer.Memory) }
{
    let mut lines = Lines { rest: text };
    let count = match lines.count(version) {
        Ok(count) => count,
        Err(answer) => return Err(answer_at(answer, 1)),
    };
    let mut cells = Cells::new(alloc);
    for number in 0..count {
        let cell = match lines.cell(alloc, version, number) {
            Ok(cell) => cell,
            Err(answer) => return Err(answer_at(answer, number + 2)),
        };
        cells.push(cell)?;
    }
    if !lines.end() {
        return Err(CellTextAnswer::BadCellText(count + 2));
    }
    if !lines.is_empty() {
        return Err(CellTextAnswer::BadCellText(count + 3));
    }
    Ok(cells)
}
