//! `eval`: it is told what a source means under its inputs.
ghost use Rattle.std.specs.Prelude.{◌≡◌, ◌≤◌, length, IfOk, IsErrOf};
ghost use Rattle.df_syntax.specs.SourceMeaning.{source_inputs};
ghost use Rattle.df_values.specs.Inputs.{AreValid, declared};
ghost use Rattle.df_build_elem.specs.Program.{declared_input};
ghost use Rattle.df_commands.specs.Inputs.{decls_by};
ghost use Rattle.df_commands.specs.Ready.{IsFlatOf};
ghost use Rattle.df_commands.specs.Verdicts.{TellMeaning, JudgesEval};
ghost use Rattle.df_commands.specs.Judged.{Finds, Settles};

use crate::plan::Plan;
use crate::programs::{Source, judge_program};
use crate::runs::judge_input;
use crate::stop::Stop;
use df_cells::cells::InputDecl;
use df_core::evaluator::{TURNS, evaluate};
use df_core::laws::results_are_whole_without_loops;
use df_flattened::laws::lowering_keeps_the_meaning;
use df_iotext::printing::print_outputs;
use df_values::inputs::Input;
use df_values::memory::Memory;
use df_values::streams::Streams;
use std::alloc::Global;

// What is declared of a parameter.
fn decl_by(input: &Input) -> InputDecl
    ensures { result ≡ declared_input input.now }
{
    let length = match input.extent {
        None => 1,
        Some(extent) => extent.n,
    };
    InputDecl {
        name: input.name,
        basic: input.basic,
        length,
    }
}

// What is declared of each parameter.
fn decls_by(alloc: Global, inputs: &[Input]) -> Result<Vec<InputDecl>, Memory>
    ensures { IfOk result (λ decls. decls.items ≡ decls_by inputs.now) }
{
    let mut decls = Vec::new(alloc);
    for input in inputs {
        decls.push(decl_by(input))?;
    }
    Ok(decls)
}

// A source with its inputs.
#[derive(Drop)]
struct Evaluated {
    source: Source,
    inputs: Streams,
}

// Judges the texts in their order.
fn judged(alloc: Global, source: &[u8], input: &[u8]) -> Result<Evaluated, Stop>
    requires source { length source.now ≤ 4294967294 }
    requires input { length input.now ≤ 4294967294 }
    ensures finds { Finds (λ it. TellMeaning it.source.tree it.inputs.lists) (JudgesEval source.now input.now) result }
    ensures no_fault { IsErrOf result Stop.ReadFault → ⊥ }
    ensures flat { IfOk result (λ it. IsFlatOf it.source.tree it.source.flat) }
    ensures results { IfOk result (λ it. length it.source.flat.results ≤ 4294967294) }
    ensures valid { IfOk result (λ it. AreValid (declared (source_inputs it.source.tree)) it.inputs.lists) }
{
    let source = judge_program(alloc, source)?;
    let decls = decls_by(alloc, source.flat.parameters.as_slice())?;
    let inputs = judge_input(alloc, input, &decls)?;
    Ok(Evaluated { source, inputs })
}

/// Tells what the source means under the inputs, by its flat program.
pub fn eval<'a>(alloc: Global, source: &[u8], input: &[u8]) -> Result<Plan<'a>, Stop>
    requires source { length source.now ≤ 4294967294 }
    requires input { length input.now ≤ 4294967294 }
    ensures settles { Settles (JudgesEval source.now input.now) result }
    ensures no_fault { IsErrOf result Stop.ReadFault → ⊥ }
{
    lowering_keeps_the_meaning();
    results_are_whole_without_loops();
    let it = judged(alloc, source, input)?;
    let results = evaluate(alloc, &it.source.flat, &it.inputs, TURNS)?;
    Ok(Plan::of_text(alloc, print_outputs(alloc, &results)?, true))
}
