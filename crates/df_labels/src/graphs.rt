//! What a graph is built with: cells that are kept, or only counted.
ghost use Rattle.std.specs.Prelude.{◌≡◌, ◌++◌, ◌∷◌, [], length, map, IfOk, OnOk, OnErr, replicate};
ghost use Rattle.df_cells.specs.Kinds.{port_count, HasCanonicalRuns};
ghost use Rattle.df_cells.specs.Cells.{port_of};
ghost use Rattle.df_labels.specs.Graphs.{Graph, Node, no_node, with_fed};
ghost use Rattle.df_labels.specs.Flows.{feed_of};

use crate::builder::Builder;
use df_cells::cells::{CellId, Dest, Feed, Port};
use df_cells::kinds::Kind;
use df_cells::ports::Ports;
use df_values::memory::Memory;
use df_values::values::Value;
use std::alloc::Global;

/// A value under construction: a constant, or what the cell of this number answers.
#[derive(Clone, Copy, PartialEq, Eq, Debug)]
pub enum Flow {
    /// A constant.
    Constant(Value),
    /// What a cell answers.
    Cell(u64),
}

/// A graph under construction. `keep` is what is kept of a node: all of it where cells are made, nothing where they are counted.
pub trait Graphs {
    ghost keep: { Node → Node };

    ghost graph: { Self → Graph };

    /// How many cells there are.
    fn count(&self) -> u64
        ensures { result ≡ length (graph self.now) };

    /// Adds a cell at the end and gives its number. Its ports may be fed by cells that come later. A refusal changes nothing; its
    /// only cause is want of memory.
    fn cell(&mut self, kind: Kind, flows: &[Flow]) -> Result<u64, Memory>
        requires ports { length flows.now ≡ port_count kind }
        requires runs { HasCanonicalRuns kind }
        ensures ok { OnOk result (graph self.new ≡ graph self.old ++ keep (record { kind = kind; ports = map feed_of flows.now }) ∷ []) }
        ensures number { IfOk result (λ c. c ≡ length (graph self.old)) }
        ensures err { OnErr result (graph self.new ≡ graph self.old) };

    /// Feeds a port by something else; one that isn't there stays as it is. A refusal changes nothing; its only cause is want of
    /// memory.
    fn feed(&mut self, cell: u64, port: Port, from: Flow) -> Result<(), Memory>
        ensures ok { OnOk result (graph self.new ≡ with_fed (graph self.old) (port_of cell port.0) (feed_of from)) }
        ensures err { OnErr result (graph self.new ≡ graph self.old) };
}

// What feeds a port with a value. A builder has no cell of a higher number than 2^32 - 1.
fn feed_by(flow: Flow) -> Result<Feed, Memory>
    ensures { IfOk result (λ feed. feed ≡ feed_of flow) }
{
    match flow {
        Flow::Constant(value) => Ok(Feed::Constant(value)),
        Flow::Cell(cell) => match u32::try_from(cell) {
            Ok(number) => Ok(Feed::Arc(CellId(number))),
            Err(_) => Err(Memory),
        },
    }
}

// What feeds the ports of a cell, in order.
fn ports_by(alloc: Global, flows: &[Flow]) -> Result<Ports, Memory>
    ensures { IfOk result (λ ports. ports ≡ map feed_of flows.now) }
{
    let mut ports = Ports::new(alloc);
    for flow in flows {
        ports.push(feed_by(*flow)?)?;
    }
    Ok(ports)
}

impl Graphs for Builder {
    ghost keep = { λ node. node };

    ghost graph = { λ builder. builder };

    fn count(&self) -> u64 {
        self.len() as u64
    }

    fn cell(&mut self, kind: Kind, flows: &[Flow]) -> Result<u64, Memory> {
        if self.len() >= 65536 {
            return Err(Memory);
        }
        let ports = ports_by(self.alloc(), flows)?;
        let cell = self.push(kind, ports)?;
        Ok(cell.0 as u64)
    }

    #[tactic(auto, using(crate::proofs::Building::fed_past))]
    fn feed(&mut self, cell: u64, port: Port, from: Flow) -> Result<(), Memory> {
        if cell >= self.len() as u64 {
            return Ok(());
        }
        let from = feed_by(from)?;
        let at = Dest {
            cell: CellId(cell as u32),
            port,
        };
        Builder::feed(self, at, from)
    }
}

/// Counts cells and keeps none of them. A byte stands for each, so memory ends before the numbers do.
#[derive(Drop)]
pub struct Counter {
    counted: Vec<u8>,
}

impl Counter {
    /// None is counted yet.
    pub fn new(alloc: Global) -> Counter
        ensures { result.counted.items ≡ [] }
    {
        Counter {
            counted: Vec::new(alloc),
        }
    }
}

impl Graphs for Counter {
    ghost keep = { λ node. no_node };

    ghost graph = { λ counter. replicate (length counter.counted.items) no_node };

    fn count(&self) -> u64 {
        self.counted.len() as u64
    }

    fn cell(&mut self, kind: Kind, flows: &[Flow]) -> Result<u64, Memory> {
        let number = self.counted.len() as u64;
        self.counted.push(0)?;
        Ok(number)
    }

    fn feed(&mut self, cell: u64, port: Port, from: Flow) -> Result<(), Memory> {
        Ok(())
    }
}
