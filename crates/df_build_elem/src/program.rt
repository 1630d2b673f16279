//! The cells of flat programs.
ghost use Rattle.std.specs.Prelude.{◌≡◌, ◌≤◌, ◌<◌, fold, length, slice_get, IfOk};
ghost use Rattle.df_values.specs.Inputs.{HasExtent, input_length};
ghost use Rattle.df_core.specs.Within.{HasRange, HaveRanges};
ghost use Rattle.df_build_elem.specs.Laying.{laid_of};
ghost use Rattle.df_build_elem.specs.Program.{input_at, laid_input, laid_block, result_of, result_more, program_on};

use crate::blocks::{listed, placed, shown};
use df_build_access::windows::Array;
use df_build_terms::building::Outside;
use df_cells::kinds::{Kind, Runs};
use df_core::flat::{Block, Flat};
use df_labels::graphs::{Flow, Graphs};
use df_values::inputs::{Extent, Input};
use df_values::memory::Memory;
use std::alloc::Global;

/// A graph, and what parameters and blocks are in it by their numbers. Contracts see it as `laid_of` it.
#[derive(Drop)]
pub struct Laying<G> {
    /// The graph.
    pub graph: G,
    /// What parameters and blocks are in it.
    pub outer: Vec<Outside>,
}

fn input_length(extent: Option<Extent>) -> u32
    ensures { result ≡ input_length extent }
{
    match extent {
        Some(extent) => extent.n,
        None => 1,
    }
}

fn input_at(cell: u64, extent: Option<Extent>) -> Outside
    ensures { result ≡ input_at cell extent }
{
    match extent {
        Some(extent) => Outside::Many(Array {
            cell,
            lo: extent.lo,
            n: extent.n,
        }),
        None => Outside::Single(Flow::Cell(cell)),
    }
}

impl<G: Graphs + Drop> Laying<G> {
    // A parameter more.
    #[tactic(auto, unfolding(crate::specs::Laying::laid_of))]
    fn input(&mut self, input: &Input) -> Result<(), Memory>
        ensures { IfOk result (λ _. laid_of G.graph self.new
            ≡ laid_input G.keep (laid_of G.graph self.old) input.now) }
    {
        let cell = self.graph.cell(
            Kind::In {
                name: input.name,
                basic: input.basic,
                length: input_length(input.extent),
            },
            &[],
        )?;
        self.outer.push(input_at(cell, input.extent))?;
        Ok(())
    }

    // A block more.
    #[tactic(auto, unfolding(crate::specs::Laying::laid_of))]
    fn block(self, alloc: Global, block: &Block) -> Result<Laying<G>, Memory>
        requires { HasRange block.now.body }
        ensures { IfOk result (λ new. laid_of G.graph new ≡ laid_block G.keep (laid_of G.graph self) block.now) }
    {
        let Laying { graph, mut outer } = self;
        let (mut graph, outside) = placed(alloc, graph, &block.body, outer.as_slice())?;
        let outside = shown(alloc, &mut graph, block.is_result, outside)?;
        outer.push(outside)?;
        Ok(Laying { graph, outer })
    }
}

// All parameters.
fn inputs<G: Graphs + Drop>(laying: &mut Laying<G>, parameters: &[Input]) -> Result<(), Memory>
    ensures { IfOk result (λ _. laid_of G.graph laying.new
        ≡ fold (laid_input G.keep) (laid_of G.graph laying.old) parameters.now) }
{
    for input in parameters {
        laying.input(input)?;
    }
    Ok(())
}

// All blocks.
fn blocks<G: Graphs + Drop>(
    alloc: Global,
    laying: Laying<G>,
    blocks: &[Block],
) -> Result<Laying<G>, Memory>
    requires { HaveRanges blocks.now }
    ensures { IfOk result (λ new. laid_of G.graph new
        ≡ fold (laid_block G.keep) (laid_of G.graph laying) blocks.now) }
{
    let mut laid = laying;
    for block in blocks {
        laid = laid.block(alloc, block)?;
    }
    Ok(laid)
}

fn outside_at(outer: &[Outside], number: usize) -> Option<Outside>
    ensures { result ≡ slice_get outer.now number }
{
    outer.get(number).copied()
}

// The OUT of a result, by its number from 0.
#[tactic(auto, unfolding(crate::specs::Program::result_of))]
fn result_of<G: Graphs>(
    alloc: Global,
    graph: &mut G,
    number: u32,
    outside: Option<Outside>,
) -> Result<(), Memory>
    requires { number < 4294967295 }
    ensures { IfOk result (λ _. G.graph graph.new ≡ result_of G.keep number (G.graph graph.old) outside) }
{
    let (cell, length) = match outside {
        Some(Outside::Single(flow)) => (listed(alloc, graph, 1, flow)?, 1),
        Some(Outside::Many(array)) => (array.cell, array.n),
        None => {
            let runs = Runs::new(alloc);
            (graph.cell(Kind::Ctl { runs }, &[])?, 0)
        }
    };
    graph.cell(
        Kind::Out {
            result: number + 1,
            length,
        },
        &[Flow::Cell(cell)],
    )?;
    Ok(())
}

// All results.
fn results<G: Graphs>(
    alloc: Global,
    graph: &mut G,
    outer: &[Outside],
    results: &[usize],
) -> Result<(), Memory>
    requires { length results.now ≤ 4294967295 }
    ensures { IfOk result (λ _. record { graph = G.graph graph.new; count = length results.now }
        ≡ fold (result_more G.keep outer.now) (record { graph = G.graph graph.old; count = 0 }) results.now) }
{
    let mut number: u32 = 0;
    for result in results {
        result_of(alloc, graph, number, outside_at(outer, *result))?;
        number += 1;
    }
    Ok(())
}

/// Adds the cells of a flat program to a graph: an IN for each parameter, the blocks, and an OUT for each result, each
/// in order.
///
/// Its ranges have to be within the limits, and it has at most 4,294,967,295 results. The only refusal is want of
/// memory.
#[tactic(auto, unfolding(crate::specs::Program::program_on, crate::specs::Laying::laid_of))]
pub fn program_on<G: Graphs + Drop>(alloc: Global, graph: G, flat: &Flat) -> Result<G, Memory>
    requires ranges { HaveRanges flat.now.blocks }
    requires results { length flat.now.results ≤ 4294967295 }
    ensures { IfOk result (λ new. G.graph new ≡ program_on G.keep flat.now (G.graph graph)) }
{
    let mut laying = Laying {
        graph,
        outer: Vec::new(alloc),
    };
    inputs(&mut laying, flat.parameters.as_slice())?;
    let Laying { mut graph, outer } = blocks(alloc, laying, flat.blocks.as_slice())?;
    results(alloc, &mut graph, outer.as_slice(), flat.results.as_slice())?;
    Ok(graph)
}
