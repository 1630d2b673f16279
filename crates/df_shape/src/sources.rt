//! What is demanded of the form of a whole source.
ghost use Rattle.std.specs.Prelude.{◌≡◌};
ghost use Rattle.df_syntax.specs.SourceForms.{numbers_of};
ghost use Rattle.df_names.specs.Found.{names_of};
ghost use Rattle.df_shape.specs.Sources.{demands};
ghost use Rattle.df_shape.specs.Walked.{Tried};

use crate::answers::ShapeAnswer;
use crate::constants::{ask_ranges, constants};
use crate::functions::ask_functions;
use df_names::NameMap;
use df_syntax::program::Program;
use df_values::values::Integer;
use std::alloc::Global;

/// The numbers of the constants of a source that has the form. Else the answer is the refusal of the first demand that
/// fails, or `Memory` for want of memory. The demands come in three passes: the constants, the ranges, the functions.
pub(crate) fn demand_form(alloc: Global, program: &Program) -> Result<NameMap<Integer>, ShapeAnswer>
    ensures { Tried (demands program.now) (λ numbers. names_of numbers ≡ numbers_of program.now) result }
{
    let numbers = constants(alloc, program.constants.as_slice())?;
    ask_ranges(&numbers, program.ranges.as_slice())?;
    ask_functions(alloc, &numbers, program.functions.as_slice())?;
    Ok(numbers)
}
