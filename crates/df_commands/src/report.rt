//! The texts that report a run and tell of least buffers.
ghost use Rattle.std.specs.Prelude.{◌≡◌, ◌++◌, OnOk, IfOk};
ghost use Rattle.df_stages.specs.Skeletons.{buffers};
ghost use Rattle.df_commands.specs.Reports.{report_text, spaced_counts, counts_text, least_text, others, migrated_text};

use df_cells::cells::{CellId, Cells};
use df_histories::tracked::Tracked;
use df_iotext::printing::print_outputs;
use df_machine::machine::Machine;
use df_machine::runs::RunEnd;
use df_values::bytes::Bytes;
use df_values::memory::Memory;
use std::alloc::Global;

// For each cell, how often it fired.
fn push_firings(text: &mut Bytes, machine: &Machine) -> Result<(), Memory>
    ensures { OnOk result (text.new ≡ text.old ++ spaced_counts machine.now.state.fired) }
{
    for cell in 0..machine.cells().len() {
        text.push_text(" ")?;
        text.push_number(u64::from(machine.fired(CellId(cell))))?;
    }
    Ok(())
}

/// The text of a machine's report after a run that ended so: whether it is drained, the number of events, the results, and how
/// often each cell fired. The only error is want of memory.
#[tactic(auto, unfolding(crate::specs::Reports::report_text))]
pub fn report(alloc: Global, tracked: &Tracked, end: RunEnd) -> Result<Bytes, Memory>
    ensures { IfOk result (λ text. text ≡ report_text (record {
      drained = end.drained;
      events = end.events;
      results = tracked.now.state.results;
      fired = tracked.now.state.fired;
    })) }
{
    let machine = tracked.machine();
    let mut text = Bytes::new(alloc);
    text.push_text(if end.drained { "drained" } else { "stopped" })?;
    text.push_text("\nevents ")?;
    text.push_number(end.events)?;
    text.push_text("\n")?;
    text.push_slice(print_outputs(alloc, machine.results())?.as_slice())?;
    text.push_text("fired")?;
    push_firings(&mut text, machine)?;
    text.push_text("\n")?;
    Ok(text)
}

// How many BUF cells there are.
fn count_buffers(cells: &Cells) -> u32
    ensures { result ≡ buffers cells.now }
{
    let mut count = 0;
    for c in 0..cells.len() {
        if cells.get(CellId(c)).kind.is_buffer() {
            count += 1;
        }
    }
    count
}

// How many other cells there are.
fn count_others(cells: &Cells) -> u32
    ensures { result ≡ others cells.now }
{
    cells.len() - count_buffers(cells)
}

// How many other cells and how many BUF cells there are.
#[tactic(auto, unfolding(crate::specs::Reports::counts_text))]
fn push_counts(text: &mut Bytes, cells: &Cells) -> Result<(), Memory>
    ensures { OnOk result (text.new ≡ text.old ++ counts_text cells.now) }
{
    text.push_text("skeleton ")?;
    text.push_number(u64::from(count_others(cells)))?;
    text.push_text("\nbuffers ")?;
    text.push_number(u64::from(count_buffers(cells)))?;
    text.push_text("\n")?;
    Ok(())
}

/// What is told of compiled cells: how many are no BUF cells, and how many are. The only error is want of memory.
pub fn counts(alloc: Global, cells: &Cells) -> Result<Bytes, Memory>
    ensures { IfOk result (λ text. text ≡ counts_text cells.now) }
{
    let mut text = Bytes::new(alloc);
    push_counts(&mut text, cells)?;
    Ok(text)
}

/// What is told of cells whose buffers are least: the same counts. The only error is want of memory.
pub fn least(alloc: Global, cells: &Cells) -> Result<Bytes, Memory>
    ensures { IfOk result (λ text. text ≡ least_text cells.now) }
{
    let mut text = Bytes::new(alloc);
    text.push_text("verified\n")?;
    push_counts(&mut text, cells)?;
    Ok(text)
}

/// What is told of cells that are written anew: how many there are. The only error is want of memory.
pub fn migrated(alloc: Global, cells: &Cells) -> Result<Bytes, Memory>
    ensures { IfOk result (λ text. text ≡ migrated_text cells.now) }
{
    let mut text = Bytes::new(alloc);
    text.push_text("migrated ")?;
    text.push_number(u64::from(cells.len()))?;
    text.push_text("\n")?;
    Ok(text)
}
