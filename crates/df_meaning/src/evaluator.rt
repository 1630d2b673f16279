//! Programs in blocks, evaluated.
ghost use Rattle.std.specs.Prelude.{◌≡◌, ◌≤◌, length, IfOk};
ghost use Rattle.df_values.specs.Inputs.{AreValid, declared};
ghost use Rattle.df_syntax.specs.BlockMeaning.{mean};
ghost use Rattle.df_syntax.specs.WellShaped.{IsPiped};
ghost use Rattle.df_inline.specs.Sizes.{piped_size};

use df_core::evaluator::{TURNS, evaluate};
use df_core::laws::results_are_whole_without_loops;
use df_flattened::laws::{lowered_programs_are_flat, lowering_keeps_the_meaning};
use df_inline::{InlineAnswer, inline};
use df_syntax::piped::Piped;
use df_values::memory::Memory;
use df_values::streams::Streams;
use std::alloc::Global;

/// The meaning of a program in blocks under inputs that are valid for it: a list of values for each result, in order, of which
/// a scalar's has one.
///
/// The program keeps the demands on programs in blocks, and with its calls replaced it has at most 20,000 nodes and nests at
/// most 256 brackets. The only refusal is want of memory.
pub fn eval(alloc: Global, piped: &Piped, inputs: &Streams) -> Result<Streams, Memory>
    requires piped { IsPiped piped.now }
    requires valid { AreValid (declared piped.now.parameters) inputs.now.lists }
    requires nodes { (piped_size piped.now).nodes ≤ 20_000 }
    requires brackets { (piped_size piped.now).brackets ≤ 256 }
    requires results { length piped.now.results ≤ 4_294_967_294 }
    ensures { IfOk result (λ results. results.lists ≡ mean piped.now inputs.now.lists) }
{
    lowering_keeps_the_meaning();
    lowered_programs_are_flat();
    results_are_whole_without_loops();
    match inline(alloc, piped) {
        Ok(flat) => evaluate(alloc, &flat, inputs, TURNS),
        Err(InlineAnswer::Memory) => Err(Memory),
        Err(InlineAnswer::TooLarge | InlineAnswer::TooTall) => unreachable!(),
    }
}
