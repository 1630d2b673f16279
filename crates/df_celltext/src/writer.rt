//! The text of a cell file.
ghost use Rattle.std.specs.Prelude.{◌≡◌, ◌++◌, ◌∷◌, [], All, map, OnOk, IfOk};
ghost use Rattle.df_values.specs.Spelling.{spelled};
ghost use Rattle.df_values.specs.Values.{IsValue};
ghost use Rattle.df_celltext.specs.CellText.{spaced, run_word, port_word, dest_word, spelled_basic, kind_words, cell_line, cell_text};
ghost use Rattle.df_celltext.specs.Writable.{IsNamed, HaveNames, IsWritableRun, IsWritableKind, IsWritableFeed, IsWritableDest, IsWritableCell, IsTextOf};

use crate::kinds::plain_word;
use df_cells::cells::{Cell, CellId, Cells, Dest, Feed};
use df_cells::kinds::{Kind, Run};
use df_values::bytes::Bytes;
use df_values::memory::Memory;
use df_values::values::{Basic, Value};
use std::alloc::Global;

// Each function adds its piece at the end. What the types keep of its numbers makes that piece one that can be read again.

// A value, whose number is within the range of its type.
#[tactic(auto, unfolding(df_values::specs::Values::least, df_values::specs::Values::greatest))]
fn push_value(text: &mut Bytes, value: Value) -> Result<(), Memory>
    ensures text { OnOk result (text.new ≡ text.old ++ spelled value) }
    ensures writable { IsValue value }
{
    match value {
        Value::Int(number) => text.push_signed(i128::from(number)),
        Value::Truth(_) | Value::Error(_) => text.push_value(value),
    }
}

fn push_run(text: &mut Bytes, run: &Run) -> Result<(), Memory>
    ensures text { OnOk result (text.new ≡ text.old ++ spaced (run_word run.now ∷ [])) }
    ensures writable { OnOk result (IsWritableRun run.now) }
{
    text.push_text(" ")?;
    text.push_number(u64::from(run.count))?;
    text.push_text("*")?;
    push_value(text, run.value)
}

fn push_runs(text: &mut Bytes, runs: &[Run]) -> Result<(), Memory>
    ensures text { OnOk result (text.new ≡ text.old ++ spaced (map run_word runs.now)) }
    ensures writable { OnOk result (All IsWritableRun runs.now) }
{
    for run in runs {
        push_run(text, run)?;
    }
    Ok(())
}

fn push_feed(text: &mut Bytes, feed: &Feed) -> Result<(), Memory>
    ensures text { OnOk result (text.new ≡ text.old ++ spaced (port_word feed.now ∷ [])) }
    ensures writable { OnOk result (IsWritableFeed feed.now) }
{
    match feed {
        Feed::Arc(cell) => {
            text.push_text(" @")?;
            text.push_number(u64::from(cell.0))
        }
        Feed::Constant(value) => {
            text.push_text(" =")?;
            push_value(text, *value)
        }
        Feed::Loaded(cell, value) => {
            text.push_text(" @")?;
            text.push_number(u64::from(cell.0))?;
            text.push_text("!")?;
            push_value(text, *value)
        }
    }
}

fn push_feeds(text: &mut Bytes, feeds: &[Feed]) -> Result<(), Memory>
    ensures text { OnOk result (text.new ≡ text.old ++ spaced (map port_word feeds.now)) }
    ensures writable { OnOk result (All IsWritableFeed feeds.now) }
{
    for feed in feeds {
        push_feed(text, feed)?;
    }
    Ok(())
}

fn push_dest(text: &mut Bytes, dest: &Dest) -> Result<(), Memory>
    ensures text { OnOk result (text.new ≡ text.old ++ spaced (dest_word dest.now ∷ [])) }
    ensures writable { OnOk result (IsWritableDest dest.now) }
{
    text.push_text(" ")?;
    text.push_number(u64::from(dest.cell.0))?;
    text.push_text(".")?;
    text.push_number(u64::from(dest.port.0))
}

fn push_dests(text: &mut Bytes, dests: &[Dest]) -> Result<(), Memory>
    ensures text { OnOk result (text.new ≡ text.old ++ spaced (map dest_word dests.now)) }
    ensures writable { OnOk result (All IsWritableDest dests.now) }
{
    for dest in dests {
        push_dest(text, dest)?;
    }
    Ok(())
}

fn basic_word(basic: Basic) -> &'static str
    ensures { result.now ≡ spelled_basic basic }
{
    match basic {
        Basic::Integer => "integer",
        Basic::Boolean => "boolean",
    }
}

// The name of a kind with a space before it, and what goes with it.
#[tactic(auto, unfolding(df_values::specs::Values::least, df_values::specs::Values::greatest))]
fn push_kind(text: &mut Bytes, kind: &Kind) -> Result<(), Memory>
    ensures text { OnOk result (text.new ≡ text.old ++ spaced (kind_words kind.now)) }
    ensures writable { OnOk result (IsNamed kind.now → IsWritableKind kind.now) }
{
    match kind {
        Kind::In {
            name,
            basic,
            length,
        } => {
            text.push_text(" IN ")?;
            text.push_slice(name.bytes())?;
            text.push_text(" ")?;
            text.push_text(basic_word(*basic))?;
            text.push_text(" ")?;
            text.push_number(u64::from(*length))
        }
        Kind::Idx { lo, length } => {
            text.push_text(" IDX ")?;
            text.push_signed(i128::from(*lo))?;
            text.push_text(" ")?;
            text.push_number(u64::from(*length))
        }
        Kind::Ctl { runs } => {
            text.push_text(" CTL")?;
            push_runs(text, runs.as_slice())
        }
        Kind::Out { result, length } => {
            text.push_text(" OUT ")?;
            text.push_number(u64::from(*result))?;
            text.push_text(" ")?;
            text.push_number(u64::from(*length))
        }
        _ => text.push_text(plain_word(kind)),
    }
}

// The line of a cell.
fn push_cell(text: &mut Bytes, number: u32, cell: &Cell) -> Result<(), Memory>
    ensures text { OnOk result (text.new ≡ text.old ++ cell_line number cell.now) }
    ensures writable { OnOk result (IsNamed cell.now.kind → IsWritableCell cell.now) }
{
    text.push_number(u64::from(number))?;
    push_kind(text, &cell.kind)?;
    text.push_text(" stage ")?;
    text.push_number(u64::from(cell.stage))?;
    text.push_text(" loop ")?;
    text.push_number(u64::from(cell.mark))?;
    text.push_text(" ports")?;
    push_feeds(text, cell.ports.as_slice())?;
    text.push_text(" dests")?;
    push_dests(text, cell.dests.as_slice())?;
    text.push_text("\n")
}

/// The text of a list of cells, of version 2. Where the names of its inputs are names, it is the text of this list and of no other,
/// so that it can be read again. The only error is want of memory.
pub fn write_cells(alloc: Global, cells: &Cells) -> Result<Bytes, Memory>
    ensures text { IfOk result (λ text. text ≡ cell_text cells.now) }
    ensures readable { IfOk result (λ text. HaveNames cells.now → IsTextOf text cells.now) }
{
    let mut text = Bytes::new(alloc);
    text.push_text("dataflow 2 ")?;
    text.push_number(u64::from(cells.len()))?;
    text.push_text("\n")?;
    for number in 0..cells.len() {
        push_cell(&mut text, number, cells.get(CellId(number)))?;
    }
    text.push_text("end\n")?;
    Ok(text)
}
