//! Graphs of cells under construction.
ghost use Rattle.std.specs.Prelude.{◌≡◌, ◌<◌, ◌++◌, ◌∷◌, ℕ, [], length, IfOk, OnOk, OnErr, IsTrue, ◌↔◌};
ghost use Rattle.df_cells.specs.Kinds.{port_count, HasCanonicalRuns};
ghost use Rattle.df_cells.specs.Cells.{cell_at};
ghost use Rattle.df_cells.specs.Paths.{HasMarks};
ghost use Rattle.df_cells.specs.WellFormed.{NamesWithin, ListsItsArcs};
ghost use Rattle.df_labels.specs.Graphs.{with_fed, graph_of, HasArcs, HasPort, feed_in, node_at};

use crate::finishing::{clear_all, list_dests, set_marks};
use df_cells::cells::{Cell, CellId, Cells, Dest, Feed};
use df_cells::kinds::Kind;
use df_cells::ports::{Dests, Ports};
use df_values::memory::Memory;
use df_wellformed::marks::right_marks;
use std::alloc::Global;
use std::marker::Model;

/// A graph under construction: cells, and what feeds their ports. Destinations, stages and marks come at the end.
#[derive(Drop)]
pub struct Builder {
    alloc: Global,
    cells: Cells,
}

impl Model for Builder {
    ghost use Rattle.df_labels.specs.Graphs.{Graph, graph_of};
    ghost use Rattle.df_labels.specs.Finishing.{AreBare};

    ghost Value = { Graph };

    ghost view = { λ b. graph_of b.cells };

    ghost invariant = { λ b. AreBare b.cells };
}

// The feeds of the ports of a cell, in order.
fn ports_of(alloc: Global, feeds: &[Feed]) -> Result<Ports, Memory>
    ensures { IfOk result (λ ports. ports ≡ feeds.now) }
{
    let mut ports = Ports::new(alloc);
    for feed in feeds {
        ports.push(*feed)?;
    }
    Ok(ports)
}

impl Builder {
    /// A graph without cells.
    pub fn new(alloc: Global) -> Builder
        ensures { result ≡ [] }
    {
        Builder {
            alloc,
            cells: Cells::new(alloc),
        }
    }

    // What its memory comes from.
    pub(crate) fn alloc(&self) -> Global {
        self.alloc
    }

    /// The graph of cells, without their destinations, stages and marks.
    pub fn of(alloc: Global, cells: Cells) -> Builder
        ensures { result ≡ graph_of cells }
    {
        let mut cells = cells;
        clear_all(&mut cells);
        Builder { alloc, cells }
    }

    /// What feeds a port of the graph.
    pub fn fed(&self, at: Dest) -> Feed
        requires cell { at.cell.0 < length self.now }
        requires port { at.port.0 < length (node_at self.now at.cell.0).ports }
        ensures { result ≡ feed_in self.now at }
    {
        match self.cells.get(at.cell).ports.get(at.port.0 as usize) {
            Some(feed) => feed,
            None => Feed::default(),
        }
    }

    /// Adds a cell at the end and gives its number. A port that is to be fed later may have the constant `undef`. A refusal
    /// changes nothing; its only cause is want of memory.
    pub fn cell(&mut self, kind: Kind, feeds: &[Feed]) -> Result<CellId, Memory>
        requires room { length self.old < 65536 }
        requires ports { length feeds.now ≡ port_count kind }
        requires runs { HasCanonicalRuns kind }
        ensures ok { OnOk result (self.new ≡ self.old ++ record { kind = kind; ports = feeds.now } ∷ []) }
        ensures number { IfOk result (λ c. c.0 ≡ length self.old) }
        ensures err { OnErr result (self.new ≡ self.old) }
    {
        let ports = ports_of(self.alloc, feeds)?;
        self.push(kind, ports)
    }

    // Adds a cell with these ports.
    pub(crate) fn push(&mut self, kind: Kind, ports: Ports) -> Result<CellId, Memory>
        requires room { length self.old < 65536 }
        requires ports { length ports ≡ port_count kind }
        requires runs { HasCanonicalRuns kind }
        ensures ok { OnOk result (self.new ≡ self.old ++ record { kind = kind; ports = ports } ∷ []) }
        ensures number { IfOk result (λ c. c.0 ≡ length self.old) }
        ensures err { OnErr result (self.new ≡ self.old) }
    {
        self.cells.push(Cell {
            kind,
            stage: 0,
            mark: 0,
            ports,
            dests: Dests::new(self.alloc),
        })
    }

    /// How many cells there are.
    pub fn len(&self) -> u32
        ensures { result ≡ length self.now }
    {
        self.cells.len()
    }

    // Whether there is such a port.
    fn has(&self, at: Dest) -> bool
        ensures { IsTrue result ↔ HasPort self.now at }
    {
        at.cell.0 < self.cells.len() && (at.port.0 as usize) < self.cells.get(at.cell).ports.len()
    }

    /// Feeds a port of the graph by something else; a port that isn't there stays as it is. A refusal changes nothing; its only
    /// cause is want of memory.
    pub fn feed(&mut self, at: Dest, from: Feed) -> Result<(), Memory>
        ensures ok { OnOk result (self.new ≡ with_fed self.old at from) }
        ensures err { OnErr result (self.new ≡ self.old) }
    {
        if self.has(at) {
            self.cells.set_feed(at, from);
        }
        Ok(())
    }

    /// The cells of the graph, of stage 0, with their destinations in order and right marks. The time is linear in the cells and
    /// arcs. The only error is want of memory.
    pub fn finish(self) -> Result<Cells, Memory>
        requires { HasArcs self }
        ensures graph { IfOk result (λ cells. graph_of cells ≡ self) }
        ensures stage { IfOk result (λ cells. (c : ℕ) → (cell_at cells c).stage ≡ 0) }
        ensures port { IfOk result (λ cells. (c : ℕ) → c < length cells → NamesWithin cells c) }
        ensures dest { IfOk result (λ cells. (c : ℕ) → c < length cells → ListsItsArcs cells c) }
        ensures marks { IfOk result HasMarks }
    {
        let Builder { alloc, mut cells } = self;
        list_dests(&mut cells)?;
        let marks = right_marks(alloc, &cells)?;
        set_marks(&mut cells, marks.as_slice());
        Ok(cells)
    }
}
