//! Sources put into blocks.
ghost use Rattle.std.specs.Prelude.{IfOk, All};
ghost use Rattle.df_values.specs.Inputs.{HasExtent};
ghost use Rattle.df_values.specs.declared.inputs.Input.{Input};
ghost use Rattle.df_syntax.specs.WellShaped.{HaveRanges};
ghost use Rattle.df_shape.specs.Answers.{Shapes};

use crate::answers::ShapeAnswer;
use crate::building::build;
use crate::sources::demand_form;
use df_syntax::piped::Piped;
use df_syntax::program::Program;
use std::alloc::Global;

/// The source as a program in blocks, where it has the form: all demands on its constants, its ranges and its functions
/// hold, in this order. Else the refusal of the first demand that fails, or `Memory` for want of memory.
///
/// The names and types of the source have to be checked before: the demands are those that are left then.
pub fn shape(alloc: Global, program: &Program) -> Result<Piped, ShapeAnswer>
    ensures answer { Shapes program.now result }
    ensures ranges { IfOk result (λ piped. HaveRanges piped.blocks) }
    ensures extents { IfOk result (λ piped. All (λ (p : Input). HasExtent p.extent) piped.parameters) }
{
    let numbers = demand_form(alloc, program)?;
    Ok(build(alloc, &numbers, program)?)
}
